//! The grammar of the definition language's expressions, the reading of signs one by one, the laws
//! between the two, and what waits while signs are read.
#![tactic(auto)]

mod frames;
mod joint;
mod laws;
mod mode;
mod stack;

pub use frames::{Bare, Double, Frame, Single, Waiting};
pub use joint::{Joint, read_joint};
pub use laws::{
    signs_write_one_expression, what_is_broken_breaks_off, what_is_read_is_written,
    what_is_too_deep_opens_too_many, what_is_written_is_not_broken, what_is_written_is_read,
};
pub use mode::Mode;
pub use stack::{Operands, Stack, Top, reduce};
