//! What a cache holds, and taking away what was used least lately.
#![tactic(auto)]

mod choosing;
mod item;
mod measure;
mod reading;
mod reducing;
mod walk;

pub use choosing::choose;
pub use item::Item;
pub use jl_quota::Limits;
pub use reading::{ItemsRead, items};
pub use reducing::{Reduced, reduce_size};
