// Reads the arguments of a call.
ghost use Rattle.std.specs.Prelude.{◌≡◌, ◌≢◌, ◌≤◌, IfOk, IfErr, Ok, Err, length};
ghost use Rattle.jl_text.specs.declared.limits.TheConstants.{MOST_TEXT_BYTES, MOST_VALUE_DEPTH};
ghost use Rattle.jl_value.specs.Tree.{nesting};
ghost use Rattle.jl_value.specs.Canonical.{text_of};
ghost use Rattle.jl_value.specs.Key.{args_tree};
ghost use Rattle.jl_value.specs.Proper.{IsProper};
ghost use Rattle.jl_cmd.specs.declared.arguments.ArgumentsFault.TheVariants.{Memory};
ghost use Rattle.jl_cmd.specs.Arguments.{arguments_of, sized_of, fault_of as fault_of_lem};

use jl_text::limits::{MOST_TEXT_BYTES, MOST_VALUE_DEPTH};
use jl_value::{Args, ValueFault, canonical_table, read_value};
use std::alloc::Global;
use thiserror::Error;

/// Why arguments are refused.
#[derive(Clone, Copy, Debug, PartialEq, Eq, Error)]
pub enum ArgumentsFault {
    #[error("unknown function")]
    UnknownFunction,
    #[error("too long")]
    TooLong,
    #[error("not JSON")]
    NotJson,
    #[error("not a whole number")]
    NotWhole,
    #[error("bad array")]
    BadArray,
    #[error("too deep")]
    TooDeep,
    #[error("not a table")]
    NotTable,
    #[error("out of memory")]
    Memory,
}

fn fault_of(fault: ValueFault) -> ArgumentsFault
    ensures { result ≡ fault_of_lem fault }
{
    match fault {
        ValueFault::NotJson => ArgumentsFault::NotJson,
        ValueFault::TooDeep => ArgumentsFault::TooDeep,
        ValueFault::BadArray => ArgumentsFault::BadArray,
        ValueFault::NotWhole => ArgumentsFault::NotWhole,
        ValueFault::Memory => ArgumentsFault::Memory,
    }
}

// The arguments, unless their canonical text is too long.
fn sized(alloc: Global, args: Args) -> Result<Args, ArgumentsFault>
    ensures given { IfOk result (λ a. (a ≡ args) × (sized_of args ≡ Ok a)) }
    ensures proper { IfOk result (λ a. IsProper (args_tree a)) }
    ensures size { IfOk result (λ a. length (text_of (args_tree a)) ≤ MOST_TEXT_BYTES) }
    ensures fault { IfErr result (λ e. e ≢ Memory → sized_of args ≡ Err e) }
{
    match canonical_table(alloc, args.value()) {
        Ok(text) if text.as_str().len() > MOST_TEXT_BYTES => Err(ArgumentsFault::TooLong),
        Ok(_) => Ok(args),
        Err(_) => Err(ArgumentsFault::Memory),
    }
}

/// The arguments that a text gives.
pub fn read_arguments(alloc: Global, text: &str) -> Result<Args, ArgumentsFault>
    ensures given { IfOk result (λ a. arguments_of text.now ≡ Ok a) }
    ensures proper { IfOk result (λ a. IsProper (args_tree a)) }
    ensures depth { IfOk result (λ a. nesting (args_tree a) ≤ MOST_VALUE_DEPTH) }
    ensures size { IfOk result (λ a. length (text_of (args_tree a)) ≤ MOST_TEXT_BYTES) }
    ensures fault { IfErr result (λ e. e ≢ Memory → arguments_of text.now ≡ Err e) }
{
    if text.len() > MOST_TEXT_BYTES {
        return Err(ArgumentsFault::TooLong);
    }
    match read_value(alloc, text.as_bytes(), MOST_VALUE_DEPTH) {
        Ok(value) => match Args::from_value(value) {
            Ok(args) => sized(alloc, args),
            Err(_) => Err(ArgumentsFault::NotTable),
        },
        Err(fault) => Err(fault_of(fault)),
    }
}
