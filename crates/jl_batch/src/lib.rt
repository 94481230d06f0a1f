//! How many jobs there are, how many tasks may be in flight, and how many make a batch. No call
//! takes memory.
#![tactic(auto)]

mod arithmetic;
mod auto;
mod jobs;
mod lexer;
mod parser;
mod pre_dispatch;
mod window;

pub use auto::{Auto, BatchSize, Step, replay};
pub use jobs::{ZeroJobs, effective_jobs};
pub use pre_dispatch::{PreDispatchFault, read_pre_dispatch};
pub use window::Window;
