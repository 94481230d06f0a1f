// The lexer of expressions: the numbers, words, operators and brackets of a text.
ghost use Rattle.std.specs.Prelude.{◌≡◌, ◌≤◌, ◌<◌, Some, None, MatchOption, IfSome, length, true, pos};
ghost use Rattle.std.specs.List.{prefix_len};
ghost use Rattle.std.specs.Char.{is_ascii_digit};
ghost use Rattle.jl_numbers.specs.Digits.{are_digits, decimal};
ghost use Rattle.jl_batch.specs.Lexemes.{whole_at, jobs_at, over_at, mark_of, front_lexeme as front_lexeme_of, without_blanks as without_blanks_of, jobs_word};

use crate::arithmetic::Operator;
use jl_numbers::{count_digits, read_decimal};

/// The most digits of a number.
pub(crate) const MOST_DIGITS: usize = 18;

// The largest number of as many digits.
const MOST_WHOLE: u64 = 999_999_999_999_999_999;

/// A number, the word `n_jobs`, an operator or a bracket.
#[derive(Clone, Copy)]
pub(crate) enum Lexeme {
    Whole(i64),
    Jobs,
    Infix(Operator),
    Opening,
    Closing,
}

// The number that digits write.
fn whole_number(digits: &[u8]) -> i64
    requires few { length digits.now ≤ MOST_DIGITS }
    requires digits { are_digits digits.now ≡ true }
    ensures { result ≡ pos (decimal digits.now) }
{
    read_decimal(digits, MOST_WHOLE).unwrap() as i64
}

fn whole(bytes: &[u8]) -> Option<(Lexeme, &[u8])>
    requires { 0 < prefix_len is_ascii_digit bytes.now }
    ensures lexeme { MatchOption result (whole_at bytes.now ≡ None)
        (λ r. whole_at bytes.now ≡ Some (r.0, r.1.now)) }
    ensures shorter { IfSome result (λ r. length r.1.now < length bytes.now) }
{
    let count = count_digits(bytes);
    if count > MOST_DIGITS {
        return None;
    }
    Some((
        Lexeme::Whole(whole_number(&bytes[..count])),
        &bytes[count..],
    ))
}

#[tactic(auto, unfolding(crate::specs::Lexemes::jobs_word))]
fn jobs(bytes: &[u8]) -> Option<(Lexeme, &[u8])>
    ensures lexeme { MatchOption result (jobs_at bytes.now ≡ None)
        (λ r. jobs_at bytes.now ≡ Some (r.0, r.1.now)) }
    ensures shorter { IfSome result (λ r. length r.1.now < length bytes.now) }
{
    if bytes.starts_with(b"n_jobs".as_slice()) {
        Some((Lexeme::Jobs, &bytes[6..]))
    } else {
        None
    }
}

fn over(rest: &[u8]) -> Option<(Lexeme, &[u8])>
    ensures lexeme { MatchOption result (over_at rest.now ≡ None)
        (λ r. over_at rest.now ≡ Some (r.0, r.1.now)) }
    ensures shorter { IfSome result (λ r. length r.1.now < length rest.now) }
{
    match rest {
        [] => None,
        [second, behind @ ..] => {
            if *second == b'/' {
                Some((Lexeme::Infix(Operator::Over), behind))
            } else {
                None
            }
        }
    }
}

fn mark(b: u8) -> Option<Lexeme>
    ensures { result ≡ mark_of b }
{
    match b {
        b'+' => Some(Lexeme::Infix(Operator::Plus)),
        b'-' => Some(Lexeme::Infix(Operator::Minus)),
        b'*' => Some(Lexeme::Infix(Operator::Times)),
        b'%' => Some(Lexeme::Infix(Operator::Modulo)),
        b'(' => Some(Lexeme::Opening),
        b')' => Some(Lexeme::Closing),
        _ => None,
    }
}

/// The lexeme at the front of a text, and what stands behind it.
pub(crate) fn front_lexeme(bytes: &[u8]) -> Option<(Lexeme, &[u8])>
    ensures lexeme { MatchOption result (front_lexeme_of bytes.now ≡ None)
        (λ r. front_lexeme_of bytes.now ≡ Some (r.0, r.1.now)) }
    ensures shorter { IfSome result (λ r. length r.1.now < length bytes.now) }
{
    match bytes {
        [] => None,
        [first, rest @ ..] => {
            if first.is_ascii_digit() {
                return whole(bytes);
            }
            if *first == b'n' {
                return jobs(bytes);
            }
            if *first == b'/' {
                return over(rest);
            }
            let lexeme = mark(*first)?;
            Some((lexeme, rest))
        }
    }
}

/// A text without the blanks at its front.
pub(crate) fn without_blanks(bytes: &[u8]) -> &[u8]
    ensures rest { result.now ≡ without_blanks_of bytes.now }
    ensures shorter { length result.now ≤ length bytes.now }
{
    for (i, b) in bytes.iter().enumerate() {
        if *b != b' ' {
            return &bytes[i..];
        }
    }
    &bytes[bytes.len()..]
}
