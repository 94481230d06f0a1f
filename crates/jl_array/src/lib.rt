//! Arrays of whole numbers in files of their own: a list is dumped once, and then read in parts
//! through one open number.
#![tactic(auto)]

mod appending;
mod blocks;
mod comparing;
mod dumping;
mod filling;
mod laws;
mod opening;
mod ranging;

pub use comparing::{SameArray, same};
pub use dumping::{Dumped, dump};
pub use laws::{comparisons_have_one_answer, dumps_are_told_apart, files_are_judged_one_way};
pub use opening::{ArrayFile, ArrayOpened, close_array, open_array};
pub use ranging::{Ranged, range};
