//! Laws of a cache folder that many runs share: which moves are proper and lawful, and which states
//! they keep.
#![tactic(auto)]

mod laws;

pub use laws::{
    absent_roots_are_sound, calls_compose, fronts_of_codes_are_not_whole, moves_keep_stores,
    runs_compose, whole_codes_are_read,
};
