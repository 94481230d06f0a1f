// What a look finds.
use jl_value::Value;

/// The answer of a look.
#[derive(Drop)]
pub enum Look {
    Hit(Value),
    Miss,
    NoMemory,
}

// What stands under an output's name.
#[derive(Drop)]
pub(crate) enum Found {
    Value(Value),
    Absent,
    NotMine,
    Damaged,
    Fault,
    NoMemory,
}
