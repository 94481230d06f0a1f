// The shipped library: what a module defines, and what its functions answer.
ghost use Rattle.std.specs.Prelude.{◌≡◌, [], Some, MatchResult, IfOk, map, length};
ghost use Rattle.jl_value.specs.Form.{tree_of, entries_of};
ghost use Rattle.jl_value.specs.Canonical.{text_of};
ghost use Rattle.jl_value.specs.Library.{value as answered_value, IfDone};
ghost use Rattle.jl_operands.specs.Steps.{done};
ghost use Rattle.jl_operands.specs.Operands.{tree_of_operand};
ghost use Rattle.jl_lang.specs.Meaning.{has_argument as has_argument_of, has_arguments as has_arguments_of, has_parameters as has_parameters_of, limited as limited_of, called as called_of, answer_of, value_of};
ghost use Rattle.jl_module.specs.Lines.{definition_read};
ghost use Rattle.jl_lang.specs.Outcomes.{IsError};

use crate::evaluator::evaluate;
use crate::scope::Scope;
use jl_lexer::Tree;
use jl_module::{Definition, LineFault, Names, find, module_fault, read_definition};
use jl_operands::{CallFault, Counted, Steps, nests_within};
use jl_text::Text;
use jl_text::limits::{MOST_TEXT_BYTES, MOST_VALUE_DEPTH};
use jl_value::{Args, Called, CodeRef, Library, Outcome, ReadModule, TaskError, Value, canonical};
use std::alloc::{AllocError, Global};

/// The shipped library: a module of one-line functions over whole numbers, texts, lists and arrays.
#[derive(Drop)]
pub struct Lang {
    module: Vec<u8>,
    count: u64,
}

impl Lang {
    /// A library that defines no name.
    pub fn new(alloc: Global) -> Lang
        ensures module { result.module.items ≡ [] }
        ensures count { result.count ≡ 0 }
    {
        Lang {
            module: Vec::new(alloc),
            count: 0,
        }
    }
}

fn has_argument(members: &[(Text, Value)], name: &[u8]) -> bool
    ensures { result ≡ has_argument_of (entries_of members.now) name.now }
{
    for (key, _) in members {
        if name == key.as_str().as_bytes() {
            return true;
        }
    }
    false
}

fn has_arguments(names: &[&[u8]], members: &[(Text, Value)]) -> bool
    ensures { result ≡ has_arguments_of (map (λ x. x.now) names.now) (entries_of members.now) }
{
    for name in names {
        if !has_argument(members, name) {
            return false;
        }
    }
    true
}

fn has_parameters(names: &Names, members: &[(Text, Value)]) -> bool
    ensures { result ≡ has_parameters_of names.now (entries_of members.now) }
{
    for (key, _) in members {
        if !names.contains(key.as_str().as_bytes()) {
            return false;
        }
    }
    true
}

fn text_length(alloc: Global, value: &Value) -> Result<usize, AllocError>
    ensures { IfOk result (λ n. n ≡ length (text_of (tree_of value.now))) }
{
    let text = canonical(alloc, value)?;
    Ok(text.as_str().len())
}

fn keep_limits(alloc: Global, ran: Counted) -> Result<Value, CallFault>
    ensures { MatchResult result
        (λ v. limited_of (done (tree_of_operand ran.value) ran.steps) ≡ answered_value (tree_of v))
        (λ e. IsError e (limited_of (done (tree_of_operand ran.value) ran.steps))) }
{
    let value = ran.value.into_value(alloc)?;
    if !nests_within(&value, MOST_VALUE_DEPTH) {
        return Err(CallFault::Task(TaskError::TooDeep));
    }
    if text_length(alloc, &value)? > MOST_TEXT_BYTES {
        return Err(CallFault::Task(TaskError::TooLong));
    }
    Ok(value)
}

fn evaluate_body(alloc: Global, args: &Args, body: &Tree) -> Result<Value, CallFault>
    ensures { MatchResult result
        (λ v. limited_of (value_of args.now body.now 0) ≡ answered_value (tree_of v))
        (λ e. IsError e (limited_of (value_of args.now body.now 0))) }
{
    let ran = evaluate(alloc, &Scope::Arguments(args), body, Steps::none())?;
    keep_limits(alloc, ran)
}

fn call_definition(alloc: Global, definition: &Definition, args: &Args) -> Result<Value, CallFault>
    ensures { MatchResult result
        (λ v. called_of (definition_read definition.now) args.now ≡ answered_value (tree_of v))
        (λ f. IsError f (called_of (definition_read definition.now) args.now)) }
{
    let members = args.value().members();
    if !has_arguments(definition.parameters.as_slice(), members) {
        return Err(CallFault::Task(TaskError::NoArgument));
    }
    if !has_parameters(&definition.parameters, members) {
        return Err(CallFault::Task(TaskError::ExtraArgument));
    }
    evaluate_body(alloc, args, &definition.body)
}

fn answer(alloc: Global, code: &str, args: &Args) -> Result<Value, CallFault>
    ensures { MatchResult result
        (λ v. answer_of code.now args.now ≡ answered_value (tree_of v))
        (λ e. IsError e (answer_of code.now args.now)) }
{
    match read_definition(alloc, code.as_bytes()) {
        Ok(definition) => call_definition(alloc, &definition, args),
        Err(LineFault::Faulty(_)) => Err(CallFault::Task(TaskError::BadKind)),
        Err(LineFault::Memory) => Err(CallFault::NoMemory),
    }
}

fn outcome_of(alloc: Global, code: &str, args: &Args) -> Called
    ensures { IfDone result (λ a. a ≡ answer_of code.now args.now) }
{
    match answer(alloc, code, args) {
        Ok(value) => Called::Done(Outcome::Value(value)),
        Err(CallFault::Task(error)) => Called::Done(Outcome::Error(error)),
        Err(CallFault::NoMemory) => Called::NoMemory,
    }
}

impl Library for Lang {
    ghost use Rattle.jl_module.specs.Modules.{code_in, line_in, fault_of};
    ghost use Rattle.jl_lang.specs.Meaning.{answer_of};
    ghost use Rattle.jl_module.specs.ModuleLaws.{code_named, lines_from_one, code_short, code_is_one_line, module_utf8};
    ghost use Rattle.jl_lang.specs.AnswerLaws.{answers_within};

    ghost code = { code_in };

    ghost line = { line_in };

    ghost answer = { answer_of };

    ghost fault = { fault_of };

    ghost loaded = { λ s. s.module.items };

    ghost calls = { λ s. s.count };

    fn read_module(&mut self, alloc: Global, bytes: &[u8]) -> ReadModule {
        match module_fault(alloc, bytes) {
            Ok(Some(fault)) => ReadModule::Fault(fault),
            Ok(None) => match Vec::from_slice(alloc, bytes) {
                Ok(module) => {
                    self.module = module;
                    ReadModule::Read
                }
                Err(_) => ReadModule::NoMemory,
            },
            Err(_) => ReadModule::NoMemory,
        }
    }

    fn code_of(&self, name: &str) -> Option<CodeRef<'_>> {
        match find(self.module.as_slice(), name.as_bytes()) {
            Some((code, line)) => Some(CodeRef { code, line }),
            None => None,
        }
    }

    fn call(&mut self, alloc: Global, name: &str, args: &Args) -> Called {
        match find(self.module.as_slice(), name.as_bytes()) {
            Some((code, _)) => {
                let called = outcome_of(alloc, code, args);
                match called {
                    Called::Done(outcome) => {
                        self.count = self.count.saturating_add(1);
                        Called::Done(outcome)
                    }
                    Called::NoMemory => Called::NoMemory,
                }
            }
            None => Called::NoMemory,
        }
    }

    fn twin(&self, alloc: Global) -> Result<Lang, AllocError> {
        Ok(Lang {
            module: Vec::from_slice(alloc, self.module.as_slice())?,
            count: 0,
        })
    }

    ghost named = { code_named };

    ghost lines = { lines_from_one };

    ghost short = { code_short };

    ghost one_line = { code_is_one_line };

    ghost utf8 = { module_utf8 };

    ghost within = { answers_within };
}
