//! Values inside an evaluation and the members of lists, whose whole numbers may be kept as such, and
//! the count of the steps. A value is counted before it is made.
#![tactic(auto)]

mod counting;
mod fault;
mod gathered;
mod lists;
mod operand;
mod steps;
mod weights;

pub use counting::{Counted, count_copy, count_list, count_operand, count_table, count_value};
pub use fault::CallFault;
pub use gathered::Gathered;
pub use lists::source;
pub use operand::{Operand, wholes_onto};
pub use steps::Steps;
pub use weights::{items_weight, length_weight, nests_within};
