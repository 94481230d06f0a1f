// What a cache holds.
use jl_text::Text;

/// An item of a cache: the entry of a function and arguments. Its path is `MODULE/FUNC/KEY`.
#[derive(Debug, Drop, PartialEq)]
pub struct Item {
    pub path: Text,
    /// How many bytes its files have; it stands still at its last value.
    pub bytes: u64,
    /// When it was last used, in microseconds; 0 where nothing tells.
    pub access: u64,
}
