// The token of a run, and the words without the one that gives it.
ghost use Rattle.std.specs.Prelude.{◌≡◌, ◌≤◌, ◌<◌, ◌^◌, ℕ, List, [], ◌∷◌, ◌++◌, true, false, length, drop, IfOk, MatchOption, option_map, map, string_bytes, IsTrue, cond, None, Some, Option};
ghost use Rattle.std.specs.Fmt.{digits};
ghost use Rattle.std.specs.Option.{is_some};
ghost use Rattle.jl_text.specs.Texts.{is_token};
ghost use Rattle.joblib.specs.Tokens.{Gives, token_flag, own_of, moment_token, variable_or, token_of};

use jl_text::{Token, TokenFault};
use std::alloc::{AllocError, Global};

// What stands behind the flag, where the word begins so.
fn behind_flag(word: &str) -> Option<&str>
    ensures { MatchOption result ((rest : List ℕ) → word.now ≡ token_flag ++ rest → ⊥)
        (λ rest. word.now ≡ token_flag ++ rest.now) }
{
    word.strip_prefix("--token=")
}

// The text as a token, where it is one.
fn token_in(alloc: Global, text: &str) -> Result<Option<Token>, AllocError>
    ensures { IfOk result (λ token. token ≡ cond (is_token text.now) (Some text.now) None) }
{
    match Token::read(alloc, text) {
        Ok(token) => Ok(Some(token)),
        Err(TokenFault::BadToken) => Ok(None),
        Err(TokenFault::Memory) => Err(AllocError),
    }
}

/// The token that a word gives, as `--token=abc` gives `abc`.
pub fn given_token(alloc: Global, word: &str) -> Result<Option<Token>, AllocError>
    ensures { IfOk result (λ token. Gives word.now token) }
{
    match behind_flag(word) {
        Some(text) => token_in(alloc, text),
        None => Ok(None),
    }
}

/// The words without the first, where that gave the token.
pub fn own_words(words: &[String], given: bool) -> &[String]
    ensures same { result.now ≡ cond given (drop 1 words.now) words.now }
    ensures bytes { (token : Option (List ℕ)) → given ≡ is_some token
        → map string_bytes result.now ≡ own_of token (map string_bytes words.now) }
{
    match words {
        [_, rest @ ..] => { if given { rest } else { words } }
        [] => words,
    }
}

// The token of a moment, which two runs share only if they start in the same microsecond.
fn token_at(alloc: Global, moment: u64) -> Result<Token, AllocError>
    ensures { IfOk result (λ t. t ≡ moment_token moment) }
{
    let text = format!(in alloc; "t{moment:x}")?;
    match Token::read(alloc, text.as_str()) {
        Ok(token) => Ok(token),
        Err(TokenFault::Memory) => Err(AllocError),
        Err(TokenFault::BadToken) => unreachable!(),
    }
}

// The variable's token, or else the moment's.
fn unasked_token(alloc: Global, variable: Option<&str>, moment: u64) -> Result<Token, AllocError>
    ensures { IfOk result
        (λ t. t ≡ variable_or (moment_token moment) (option_map (λ v. v.now) variable.entry)) }
{
    if let Some(text) = variable {
        if text.len() <= 36 {
            if let Some(token) = token_in(alloc, text)? {
                return Ok(token);
            }
        }
    }
    token_at(alloc, moment)
}

/// The token that was given, else the variable's where that is a token of at most 36 characters,
/// else `t` and the moment in hexadecimal.
pub fn choose_token(
    alloc: Global,
    given: Option<Token>,
    variable: Option<&str>,
    moment: u64,
) -> Result<Token, AllocError>
    ensures { IfOk result
        (λ t. t ≡ token_of given (option_map (λ v. v.now) variable.entry) moment) }
{
    match given {
        Some(token) => Ok(token),
        None => unasked_token(alloc, variable, moment),
    }
}
