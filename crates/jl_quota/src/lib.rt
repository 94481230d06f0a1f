//! How much a cache may keep, and the texts that say so. No call takes memory.
#![tactic(auto)]

mod limits;

pub use limits::{BadLimit, Limits, read_age, read_count, read_size};
