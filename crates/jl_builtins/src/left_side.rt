// Whether the left side of an operator decides.
ghost use Rattle.std.specs.Prelude.{◌≡◌};
ghost use Rattle.jl_value.specs.Form.{tree_of};
ghost use Rattle.jl_builtins.specs.Operations.{settle as settle_of};
ghost use Rattle.jl_operands.specs.Operands.{list_of_wholes, tree_of_operand};

use jl_lexer::Operator;
use jl_operands::Operand;
use jl_value::Value;

/// What the left side of an operator tells.
#[derive(Clone, Copy)]
pub enum Settled {
    Known(bool),
    Open,
    Wrong,
    Both,
}

fn settle_value(operator: Operator, left: &Value) -> Settled
    ensures { result ≡ settle_of operator (tree_of left.now) }
{
    match operator {
        Operator::Or => match left {
            Value::Truth(true) => Settled::Known(true),
            Value::Truth(false) => Settled::Open,
            _ => Settled::Wrong,
        },
        Operator::And => match left {
            Value::Truth(true) => Settled::Open,
            Value::Truth(false) => Settled::Known(false),
            _ => Settled::Wrong,
        },
        _ => Settled::Both,
    }
}

fn settle_wholes(operator: Operator, numbers: &[i64]) -> Settled
    ensures { result ≡ settle_of operator (list_of_wholes numbers.now) }
{
    match operator {
        Operator::Or => Settled::Wrong,
        Operator::And => Settled::Wrong,
        _ => Settled::Both,
    }
}

/// Whether the left side of an operator decides.
pub fn settle(operator: Operator, left: &Operand) -> Settled
    ensures { result ≡ settle_of operator (tree_of_operand left.now) }
{
    match left {
        Operand::Plain(left) => settle_value(operator, left),
        Operand::Wholes(left) => settle_wholes(operator, left.as_slice()),
    }
}
