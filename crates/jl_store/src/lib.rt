//! The cached call over a folder that others use too: its files, and how they are read and
//! published.
#![tactic(auto)]

mod answer;
mod cached;
mod checking;
mod checks;
mod files;
mod folders;
mod found;
mod keeping;
mod looking;
mod memory;
mod reading;
mod temporary;

pub use answer::Keep;
pub use cached::{Cached, call_cached};
pub use checking::check_code;
pub use checks::CodeCheck;
pub use files::{Published, publish};
pub use found::Look;
pub use jl_clear::{Clear, clear_all, clear_function, clear_item, clear_module};
pub use jl_folder::FileRead;
pub use keeping::{keep, touch};
pub use looking::look;
pub use memory::{Memory, WarnKind, Warning, warning_text};
pub use reading::read_final;
