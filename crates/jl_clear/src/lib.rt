//! Clearing a cache folder that others use too: an entry, a function, a module, or all of them.
#![tactic(auto)]

mod clear;
mod levels;
mod listing;
mod removing;
mod stop;
mod walk;

pub use clear::{clear_all, clear_entries, clear_entry, clear_function, clear_item, clear_module};
pub use levels::Level;
pub use listing::names_in;
pub use removing::Clear;
pub use stop::Stop;
