// The texts of the error stream.
ghost use Rattle.std.specs.Prelude.{◌≡◌, ◌++◌, IfOk, codes};
ghost use Rattle.std.specs.Fmt.{decimal};
ghost use Rattle.jl_value.specs.Names.{name_of, fault_name_of};
ghost use Rattle.jl_cmd.specs.Output.{refuses_input};
ghost use Rattle.jl_cmd.specs.Texts.{error_line as error_line_lem, why as why_lem};

use crate::arguments::ArgumentsFault;
use jl_text::Text;
use jl_value::{ModuleFault, TaskError};
use std::alloc::{AllocError, Global};

fn why(fault: ArgumentsFault) -> &'static str
    ensures { result.now ≡ why_lem fault }
{
    match fault {
        ArgumentsFault::UnknownFunction => "unknown function",
        ArgumentsFault::TooLong => "too long",
        ArgumentsFault::NotJson => "not JSON",
        ArgumentsFault::NotWhole => "not a whole number",
        ArgumentsFault::BadArray => "bad array",
        ArgumentsFault::TooDeep => "too deep",
        ArgumentsFault::NotTable => "not a table",
        ArgumentsFault::Memory => "out of memory",
    }
}

#[tactic(auto, unfolding(crate::specs::Texts::error_line))]
fn error_line(alloc: Global, what: &str) -> Result<Text, AllocError>
    ensures { IfOk result (λ t. t ≡ error_line_lem what.now) }
{
    let line = format!(in alloc; "error: {what}\n")?;
    Ok(Text::new(line))
}

pub fn task_line(alloc: Global, index: u64, error: TaskError) -> Result<Text, AllocError>
    ensures { IfOk result (λ t. t ≡ error_line_lem
        (codes "task " ++ (decimal index ++ (codes ": " ++ name_of error)))) }
{
    let name = error.name();
    let what = format!(in alloc; "task {index}: {name}")?;
    error_line(alloc, what.as_str())
}

pub fn module_line(alloc: Global, fault: ModuleFault) -> Result<Text, AllocError>
    ensures { IfOk result
        (λ t. t ≡ error_line_lem (codes "module line " ++ (decimal fault.line ++ (codes ": " ++ fault_name_of fault.kind)))) }
{
    let line = fault.line;
    let kind = fault.kind.name();
    let what = format!(in alloc; "module line {line}: {kind}")?;
    error_line(alloc, what.as_str())
}

/// The text about an input of which so much was taken as may be.
pub fn too_much_line(alloc: Global, line: u64) -> Result<Text, AllocError>
    ensures { IfOk result (λ t. t ≡ (refuses_input line).text) }
{
    let what = format!(in alloc; "line {line}: too much input")?;
    error_line(alloc, what.as_str())
}

fn reason_line(alloc: Global, reason: &str) -> Result<Text, AllocError>
    ensures { IfOk result (λ t. t ≡ error_line_lem (codes "arguments: " ++ reason.now)) }
{
    let what = format!(in alloc; "arguments: {reason}")?;
    error_line(alloc, what.as_str())
}

pub fn arguments_line(alloc: Global, fault: ArgumentsFault) -> Result<Text, AllocError>
    ensures { IfOk result (λ t. t ≡ error_line_lem (codes "arguments: " ++ why_lem fault)) }
{
    reason_line(alloc, why(fault))
}
