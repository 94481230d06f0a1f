// Where a run keeps answers, and what it warns of.
ghost use Rattle.std.specs.Prelude.{◌≡◌, ◌++◌, IfOk};
ghost use Rattle.jl_store.specs.Warnings.{kind_text, warning_text as warning_text_is};

use jl_folder::{Path, Text, Token};
use jl_value::Key;
use std::alloc::{AllocError, Global};

/// Where the answers of a module's functions are kept: the folder in which the cache stands, the
/// module's name, and the token
/// of the run.
#[derive(Debug, Drop)]
pub struct Memory {
    pub location: Path,
    pub module: Text,
    pub token: Token,
}

/// What a warning is of.
#[derive(Clone, Copy, Debug, PartialEq, Eq, Drop)]
pub enum WarnKind {
    LoadFault,
    StoreFault,
    NotMine,
    Damaged,
    Skipped,
}

/// A warning on the entry of a function and of arguments with a key.
#[derive(Debug, Drop)]
pub struct Warning {
    pub kind: WarnKind,
    pub name: Text,
    pub key: Key,
}

fn kind_words(kind: WarnKind) -> &'static str
    ensures { result.now ≡ kind_text kind }
{
    match kind {
        WarnKind::LoadFault => "load fault",
        WarnKind::StoreFault => "store fault",
        WarnKind::NotMine => "entry not mine",
        WarnKind::Damaged => "entry damaged",
        WarnKind::Skipped => "store skipped",
    }
}

/// A warning's text: `warning: KIND: MODULE/FUNC/KEY`.
#[tactic(auto, unfolding(crate::specs::Warnings::warning_text))]
pub fn warning_text(alloc: Global, memory: &Memory, warning: &Warning) -> Result<Text, AllocError>
    ensures { IfOk result (λ t. t ≡ warning_text_is memory.now.«module» warning.now) }
{
    let kind = kind_words(warning.kind);
    let module = memory.module.as_str();
    let name = warning.name.as_str();
    let digits = hex::encode(alloc, warning.key.0.as_slice())?;
    let key = digits.as_str();
    let text = format!(in alloc; "warning: {kind}: {module}/{name}/{key}")?;
    Ok(Text::new(text))
}
