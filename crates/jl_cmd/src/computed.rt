// What a command comes to, before anything is written.
ghost use Rattle.std.specs.Prelude.{◌≡◌, ◌++◌, ◌∷◌, [], IfOk, ⊤};
ghost use Rattle.jl_value.specs.Form.{tree_of};
ghost use Rattle.jl_value.specs.Canonical.{text_of};
ghost use Rattle.jl_cmd.specs.Output.{prints, fails, refuses_arguments, refuses_module};
ghost use Rattle.jl_cmd.specs.Computing.{Computes, IsRefused, IsPrinted, IsFailed};

use crate::arguments::ArgumentsFault;
use crate::texts::{arguments_line, module_line, task_line};
use jl_text::Text;
use jl_value::{ModuleFault, TaskError, Value, canonical};
use std::alloc::{AllocError, Global};

/// What a command comes to: the bytes to print, or the last text of the error stream.
#[derive(Debug, Drop)]
pub enum Computed {
    Printed(Text),
    Failed(Text),
    Refused(Text),
    NoMemory,
}

fn with_newline(alloc: Global, value: &Value) -> Result<Text, AllocError>
    ensures { IfOk result (λ t. t ≡ text_of (tree_of value.now) ++ 10 ∷ []) }
{
    let text = canonical(alloc, value)?;
    let mut line = String::from_str(alloc, text.as_str())?;
    line.push_str("\n")?;
    Ok(Text::new(line))
}

/// Refuses arguments.
pub fn refused_arguments(alloc: Global, fault: ArgumentsFault) -> Computed
    ensures computes { Computes (refuses_arguments fault) ⊤ result }
    ensures refused { IsRefused result }
{
    match arguments_line(alloc, fault) {
        Ok(text) => Computed::Refused(text),
        Err(_) => Computed::NoMemory,
    }
}

/// Refuses a module.
pub fn refused_module(alloc: Global, fault: ModuleFault) -> Computed
    ensures computes { Computes (refuses_module fault) ⊤ result }
    ensures refused { IsRefused result }
{
    match module_line(alloc, fault) {
        Ok(text) => Computed::Refused(text),
        Err(_) => Computed::NoMemory,
    }
}

/// Prints a value.
pub fn printed(alloc: Global, value: &Value) -> Computed
    ensures computes { Computes (prints (tree_of value.now)) ⊤ result }
    ensures printed { IsPrinted result }
{
    match with_newline(alloc, value) {
        Ok(text) => Computed::Printed(text),
        Err(_) => Computed::NoMemory,
    }
}

/// Tells an error of the function.
pub fn failed(alloc: Global, error: TaskError) -> Computed
    ensures computes { Computes (fails 0 error) ⊤ result }
    ensures failed { IsFailed result }
{
    match task_line(alloc, 0, error) {
        Ok(text) => Computed::Failed(text),
        Err(_) => Computed::NoMemory,
    }
}
