// Reads how many tasks may be in flight.
ghost use Rattle.std.specs.Prelude.{◌≡◌, ◌↔◌, List, ℤ, pos, IsTrue, IfSome, MatchOption, MatchResult};
ghost use Rattle.jl_batch.specs.declared.lexer.Lexeme.{Lexeme};
ghost use Rattle.jl_batch.specs.declared.window.Window.TheVariants.{All};
ghost use Rattle.jl_batch.specs.Lexemes.{HasLexemes};
ghost use Rattle.jl_batch.specs.Parser.{read_lexemes, started};
ghost use Rattle.std.specs.Result.{result_ok};
ghost use Rattle.jl_batch.specs.Reads.{value_in, window_of};
ghost use Rattle.jl_batch.specs.Windows.{IsWorth, IsAskedFor, IsWindowFault, window_at as window_at_of, all_word};

use crate::lexer::{front_lexeme, without_blanks};
use crate::parser::Reader;
use crate::window::Window;
use thiserror::Error;

/// More tasks than these are not in flight at once.
const MOST_WINDOW: u32 = 1_000_000;

/// Why a text is no window.
#[derive(Debug, Drop, Clone, Copy, PartialEq, Eq, Error)]
pub enum PreDispatchFault {
    #[error("no expression in n_jobs")]
    BadExpression,
    #[error("no task may be in flight")]
    BelowOne,
}

// The value that the lexemes of a text lead to.
fn run_text(text: &[u8], jobs: u32) -> Option<i64>
    ensures some { IfSome result (λ v. (ss : List Lexeme) × HasLexemes text.now ss
        × (read_lexemes (pos jobs) started ss ≡ Some v)) }
    ensures only { (ss : List Lexeme) → HasLexemes text.now ss
        → result ≡ read_lexemes (pos jobs) started ss }
    ensures reads { result ≡ value_in text.now jobs }
{
    let mut reader = Reader::new();
    let mut left = text;
    'lexemes: loop {
        let (lexeme, rest) = front_lexeme(left)?;
        reader = reader.step(jobs, lexeme)?;
        if rest.is_empty() {
            return reader.finish();
        }
        left = without_blanks(rest);
    }
}

fn value_of(text: &[u8], jobs: u32) -> Option<i64>
    ensures some { MatchOption result ((v : ℤ) → IsWorth text.now jobs v → ⊥)
        (λ v. IsWorth text.now jobs v) }
    ensures only { (v : ℤ) → IsWorth text.now jobs v → result ≡ Some v }
    ensures reads { result ≡ value_in text.now jobs }
{
    run_text(text, jobs)
}

fn window_at(value: i64) -> Result<Window, PreDispatchFault>
    ensures { result ≡ window_at_of value }
{
    if value < 1 {
        return Err(PreDispatchFault::BelowOne);
    }
    Ok(Window::Tasks(value.min(i64::from(MOST_WINDOW)) as u32))
}

#[tactic(auto, unfolding(crate::specs::Windows::all_word))]
fn is_all(text: &[u8]) -> bool
    ensures { IsTrue result ↔ (text.now ≡ all_word) }
{
    text == b"all".as_slice()
}

/// The window that a text asks for: `all`, or how many tasks. The text is an expression of whole
/// numbers of at most 18 digits and `n_jobs` with Python's `+`, `-`, `*`, `//`, `%` and brackets,
/// in
/// signed 64 bits. Blanks may stand between its lexemes, and brackets and minus signs nest at most
/// 32
/// deep. More than 1,000,000 tasks act as 1,000,000.
pub fn read_pre_dispatch(text: &str, jobs: u32) -> Result<Window, PreDispatchFault>
    ensures window { MatchResult result (λ window. IsAskedFor text.now jobs window)
        (λ fault. IsWindowFault text.now jobs fault) }
    ensures all { text.now ≡ all_word → result ≡ Ok All }
    ensures value { (v : ℤ) → IsWorth text.now jobs v → result ≡ window_at_of v }
    ensures reads { result_ok result ≡ window_of text.now jobs }
{
    let bytes = text.as_bytes();
    if is_all(bytes) {
        return Ok(Window::All);
    }
    match value_of(bytes, jobs) {
        Some(value) => window_at(value),
        None => Err(PreDispatchFault::BadExpression),
    }
}
