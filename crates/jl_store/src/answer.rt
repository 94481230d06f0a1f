// What came of keeping an answer.
/// The answer of `keep` and of `touch`.
#[derive(Clone, Copy, Debug, PartialEq, Eq, Drop)]
pub enum Keep {
    Kept,
    Skipped,
    Fault,
    NoMemory,
}
