//! What the definition language's operators, functions and lists make of values. A value is counted
//! before it is made.
#![tactic(auto)]

mod arithmetic;
mod calls;
mod joined;
mod laws;
mod left_side;
mod operations;
mod same;

pub use arithmetic::operate_wholes;
pub use calls::{call, span};
pub use laws::the_later_key_stands;
pub use left_side::{Settled, settle};
pub use operations::{element, operate, operate_prefix};
