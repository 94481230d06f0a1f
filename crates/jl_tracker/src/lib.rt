//! The resource tracker: counts of references to files, folders and semaphores, and the removal of
//! what is referred to no longer.
#![tactic(auto)]

mod counts;
mod effects;
mod following;
mod law;
mod line;
mod parts;
mod paths;
mod removing;
mod table;
mod texts;

pub use counts::{Counts, Leaked};
pub use following::{Tracked, track};
pub use law::{folders_stay_for_a_cause, removals_fail_by_counted_faults};
pub use line::{BadLine, Kind, Line, read_line};
pub use table::Step;
