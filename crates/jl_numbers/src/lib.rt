//! Whole numbers: division that rounds down, and decimal digits. No call takes memory.
#![tactic(auto)]

mod digits;
mod division;
mod laws;

pub use digits::{are_digits, count_digits, read_decimal};
pub use division::{div_floor, rem_floor};
pub use laws::division_rounds_down;
