// What a library of functions promises, and what comes of calls.
ghost use Rattle.std.specs.Prelude.{◌≡◌, ◌≤◌, ℕ, List, length, Option, Some, None, IsSome, IfOk, MatchOption, OnErr, IsUtf8, IsTrue, ◌+◌, ⊤};
ghost use Rattle.jl_text.specs.Texts.{is_name};
ghost use Rattle.jl_value.specs.Tree.{Tree};
ghost use Rattle.jl_value.specs.Key.{args_tree};
ghost use Rattle.jl_value.specs.Canonical.{text_of};
ghost use Rattle.jl_value.specs.Proper.{IsProper};
ghost use Rattle.jl_value.specs.declared.library.ModuleFault.{ModuleFault};
ghost use Rattle.jl_value.specs.Names.{name_of, fault_name_of};
ghost use Rattle.jl_value.specs.Lines.{is_line, IsLine};
ghost use Rattle.jl_value.specs.Library.{Answer, value as answered, error as failed, outcome_of, IfDone, Counted, TakesModule, IsWithin, next_count};

use crate::key::Args;
use crate::value::Value;
use jl_text::Text;
use std::alloc::{AllocError, Global};
use thiserror::Error;

/// What is wrong with a line of a module.
#[derive(Debug, Drop, Clone, Copy, PartialEq, Eq, Error)]
pub enum ModuleFaultKind {
    #[error("BadLine")]
    BadLine,
    #[error("BadName")]
    BadName,
    #[error("Twice")]
    Twice,
    #[error("TooDeep")]
    TooDeep,
    #[error("TooLarge")]
    TooLarge,
}

impl ModuleFaultKind {
    pub fn name(self) -> &'static str
        ensures { result.now ≡ fault_name_of self }
    {
        match self {
            ModuleFaultKind::BadLine => "BadLine",
            ModuleFaultKind::BadName => "BadName",
            ModuleFaultKind::Twice => "Twice",
            ModuleFaultKind::TooDeep => "TooDeep",
            ModuleFaultKind::TooLarge => "TooLarge",
        }
    }
}

/// The first line that keeps a text from being a module, counted from 1.
#[derive(Debug, Drop, Clone, Copy, PartialEq, Eq)]
pub struct ModuleFault {
    pub line: u64,
    pub kind: ModuleFaultKind,
}

/// What came of reading a module.
#[derive(Debug, Drop, Clone, Copy, PartialEq, Eq)]
pub enum ReadModule {
    Read,
    Fault(ModuleFault),
    NoMemory,
}

/// Why a task has no value.
#[derive(Debug, Drop, Clone, Copy, PartialEq, Eq, Error)]
pub enum TaskError {
    #[error("NoArgument")]
    NoArgument,
    #[error("ExtraArgument")]
    ExtraArgument,
    #[error("BadKind")]
    BadKind,
    #[error("Overflow")]
    Overflow,
    #[error("ZeroDivisor")]
    ZeroDivisor,
    #[error("BadIndex")]
    BadIndex,
    #[error("TooLong")]
    TooLong,
    #[error("TooDeep")]
    TooDeep,
}

impl TaskError {
    pub fn name(self) -> &'static str
        ensures { result.now ≡ name_of self }
    {
        match self {
            TaskError::NoArgument => "NoArgument",
            TaskError::ExtraArgument => "ExtraArgument",
            TaskError::BadKind => "BadKind",
            TaskError::Overflow => "Overflow",
            TaskError::ZeroDivisor => "ZeroDivisor",
            TaskError::BadIndex => "BadIndex",
            TaskError::TooLong => "TooLong",
            TaskError::TooDeep => "TooDeep",
        }
    }
}

/// What a task comes to.
#[derive(Drop, PartialEq)]
pub enum Outcome {
    Value(Value),
    Error(TaskError),
}

impl Outcome {
    pub fn copy(&self, alloc: Global) -> Result<Outcome, AllocError>
        ensures { IfOk result (λ o. o ≡ self.now) }
    {
        match self {
            Outcome::Value(value) => Ok(Outcome::Value(value.copy(alloc)?)),
            Outcome::Error(error) => Ok(Outcome::Error(*error)),
        }
    }
}

/// What a call of a library answers.
#[derive(Drop)]
pub enum Called {
    Done(Outcome),
    NoMemory,
}

/// A function's code, and the number of the line that defines it.
#[derive(Clone, Copy, Drop)]
pub struct CodeRef<'a> {
    pub code: &'a str,
    pub line: u64,
}

/// Whether a text is one line, as each code is: no newline stands in it.
pub fn is_line(text: &str) -> bool
    ensures { result ≡ is_line text.now }
{
    text.as_bytes().iter().all(|b| *b != b'\n')
}

/// What a module's names stand for, and calls of them.
///
/// Codes, lines, answers and faults depend on nothing but the texts named.
pub trait Library: Sized {
    // The code of a name in a module: a module, then a name.
    ghost code: { List ℕ → List ℕ → Option (List ℕ) };

    // The number of the line that defines the name, where a code is given.
    ghost line: { List ℕ → List ℕ → ℕ };

    // What a code answers on arguments.
    ghost answer: { List ℕ → List (List ℕ × Tree) → Answer };

    // Why bytes are no module.
    ghost fault: { List ℕ → Option ModuleFault };

    // The module that was read last.
    ghost loaded: { Self → List ℕ };

    // How many calls were done; the count stands still at its last value.
    ghost calls: { Self → ℕ };

    fn read_module(&mut self, alloc: Global, bytes: &[u8]) -> ReadModule
        ensures read { TakesModule result (fault bytes.now) bytes.now (loaded self.old)
            (loaded self.new) }
        ensures calls { calls self.new ≡ calls self.old };

    fn code_of(&self, name: &str) -> Option<CodeRef<'_>>
        ensures { MatchOption result (code (loaded self.now) name.now ≡ None)
            (λ r. (code (loaded self.now) name.now ≡ Some r.code.now)
            × (line (loaded self.now) name.now ≡ r.line)) };

    fn call(&mut self, alloc: Global, name: &str, args: &Args) -> Called
        requires { IsSome (code (loaded self.old) name.now) }
        ensures answer { (c : List ℕ) → code (loaded self.old) name.now ≡ Some c
            → IfDone result (λ a. a ≡ answer c args.now) }
        ensures loaded { loaded self.new ≡ loaded self.old }
        ensures calls { Counted result (calls self.old) (calls self.new) };

    fn twin(&self, alloc: Global) -> Result<Self, AllocError>
        ensures { IfOk result (λ t. (loaded t ≡ loaded self.now) × (calls t ≡ 0)) };

    // A code is given only for a name.
    ghost named: { (m n c : List ℕ) → code m n ≡ Some c → IsTrue (is_name n) };

    // Lines count from 1, and a module has no more of them than bytes and one.
    ghost lines: { (m n c : List ℕ) → code m n ≡ Some c
        → (1 ≤ line m n) × (line m n ≤ length m + 1) };

    // No code is longer than its module.
    ghost short: { (m n c : List ℕ) → code m n ≡ Some c → length c ≤ length m };

    // A code is one line.
    ghost one_line: { (m n c : List ℕ) → code m n ≡ Some c → IsLine c };

    // Bytes that are no text are no module.
    ghost utf8: { (m : List ℕ) → fault m ≡ None → IsUtf8 m };

    // The answers keep the limits.
    ghost within: { (c : List ℕ) (ps : List (List ℕ × Tree)) → IsProper (args_tree ps)
        → IsWithin (answer c ps) };
}
