//! The definition language: modules of one-line functions, and what they answer.
#![tactic(auto)]

mod evaluator;
mod lang;
mod laws;
mod numbers;
mod scope;

pub use lang::Lang;
pub use laws::{
    a_list_has_a_member_for_each, a_list_has_what_its_condition_lets_through,
    answers_keep_the_limits, the_count_keeps_its_limit,
};
