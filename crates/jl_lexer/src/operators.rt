/// An operator between two operands.
#[derive(Clone, Copy)]
pub enum Operator {
    Or,
    And,
    Equal,
    Unequal,
    Less,
    AtMost,
    Greater,
    AtLeast,
    Plus,
    Minus,
    Times,
    Quotient,
    Remainder,
}

/// An operator before its operand.
#[derive(Clone, Copy)]
pub enum Prefix {
    Not,
    Negative,
}

/// A function that every module has.
#[derive(Clone, Copy)]
pub enum Function {
    Len,
    Sum,
    Min,
    Max,
    Range,
    Array,
}
