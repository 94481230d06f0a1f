use crate::claim::{AnyState, AnyStep};
use crate::laws::{look_ups_change_by_touches, runs_compose, throughout_is_by_prefixes};

#[test]
fn laws_hold_of_claims_that_claim_nothing() {
    throughout_is_by_prefixes::<AnyStep, AnyStep>();
    runs_compose::<AnyStep, AnyState>();
    look_ups_change_by_touches();
}
