ghost use Rattle.std.specs.Prelude.{◌≡◌, ◌^◌, ◌<◌, IsTrue, IfSome, Some, None, if◌then◌else◌, nat_lt};
ghost use Rattle.std.specs.List.{list_all};
ghost use Rattle.jl_lexer.specs.Signs.{is_digit as is_digit_of, is_word_byte as is_word_byte_of};
ghost use Rattle.jl_lexer.specs.Words.{is_form_word as is_form_word_of, is_truth_word as is_truth_word_of, is_function_word as is_function_word_of, is_reserved as is_reserved_of, is_identifier as is_identifier_of, number_of, number_behind, has_leading_zero as has_leading_zero_of, def_word, true_word, false_word, none_word};
ghost use Rattle.std.specs.Str.{bytes_eq};
ghost use Rattle.jl_text.specs.Texts.{is_name as is_name_of, begins_with_digit as begins_digit_of};

use crate::lexer::{is_digit, is_word_byte};
use jl_text::limits::MOST_NAME_BYTES;

/// Whether a word is `def`.
#[tactic(auto, unfolding(crate::specs::Words::def_word))]
pub fn is_def(word: &[u8]) -> bool
    ensures { result ≡ bytes_eq word.now def_word }
{
    word == b"def".as_slice()
}

#[tactic(auto, unfolding(crate::specs::Words::true_word))]
pub(crate) fn is_true(word: &[u8]) -> bool
    ensures { result ≡ bytes_eq word.now true_word }
{
    word == b"True".as_slice()
}

#[tactic(auto, unfolding(crate::specs::Words::false_word))]
pub(crate) fn is_false(word: &[u8]) -> bool
    ensures { result ≡ bytes_eq word.now false_word }
{
    word == b"False".as_slice()
}

#[tactic(auto, unfolding(crate::specs::Words::none_word))]
pub(crate) fn is_none(word: &[u8]) -> bool
    ensures { result ≡ bytes_eq word.now none_word }
{
    word == b"None".as_slice()
}

#[tactic(auto, unfolding(crate::specs::Words::is_form_word))]
fn is_form_word(word: &[u8]) -> bool
    ensures { result ≡ is_form_word_of word.now }
{
    word == b"def".as_slice()
        || word == b"if".as_slice()
        || word == b"else".as_slice()
        || word == b"for".as_slice()
        || word == b"in".as_slice()
}

#[tactic(auto, unfolding(crate::specs::Words::is_truth_word))]
fn is_truth_word(word: &[u8]) -> bool
    ensures { result ≡ is_truth_word_of word.now }
{
    word == b"or".as_slice()
        || word == b"and".as_slice()
        || word == b"not".as_slice()
        || word == b"True".as_slice()
        || word == b"False".as_slice()
        || word == b"None".as_slice()
}

#[tactic(auto, unfolding(crate::specs::Words::is_function_word))]
fn is_function_word(word: &[u8]) -> bool
    ensures { result ≡ is_function_word_of word.now }
{
    word == b"len".as_slice()
        || word == b"sum".as_slice()
        || word == b"min".as_slice()
        || word == b"max".as_slice()
        || word == b"range".as_slice()
        || word == b"array".as_slice()
}

fn is_reserved(word: &[u8]) -> bool
    ensures { result ≡ is_reserved_of word.now }
{
    is_form_word(word) || is_truth_word(word) || is_function_word(word)
}

fn begins_digit(word: &[u8]) -> bool
    ensures { result ≡ begins_digit_of word.now }
{
    match word {
        [] => false,
        [first, ..] => is_digit(*first),
    }
}

fn all_word_bytes(word: &[u8]) -> bool
    ensures { result ≡ list_all is_word_byte_of word.now }
{
    word.iter().all(|b| is_word_byte(*b))
}

fn all_digits(word: &[u8]) -> bool
    ensures { result ≡ list_all is_digit_of word.now }
{
    word.iter().all(|b| is_digit(*b))
}

pub(crate) fn is_name(word: &[u8]) -> bool
    ensures { result ≡ is_name_of word.now }
{
    if word.is_empty() {
        return false;
    }
    if word.len() > MOST_NAME_BYTES {
        return false;
    }
    if begins_digit(word) {
        return false;
    }
    all_word_bytes(word)
}

/// Whether a word is a name that is not reserved.
pub fn is_identifier(word: &[u8]) -> bool
    ensures { result ≡ is_identifier_of word.now }
{
    if !is_name(word) {
        return false;
    }
    !is_reserved(word)
}

fn has_leading_zero(word: &[u8]) -> bool
    ensures { result ≡ has_leading_zero_of word.now }
{
    match word {
        [] => false,
        [first, rest @ ..] => *first == b'0' && !rest.is_empty(),
    }
}

// The number that digits write, where it is below 2^63.
fn number_value(word: &[u8]) -> Option<u64>
    requires { IsTrue (list_all is_digit_of word.now) }
    ensures low { IfSome result (λ n. n < 2 ^ 63) }
    ensures value { result
        ≡ (if nat_lt (number_behind 0 word.now) (2 ^ 63)
        then Some (number_behind 0 word.now) else None) }
{
    let mut value: u64 = 0;
    for digit in word {
        if value > 922_337_203_685_477_580 {
            return None;
        }
        value = value * 10 + u64::from(*digit - b'0');
        if value > 9_223_372_036_854_775_807 {
            return None;
        }
    }
    Some(value)
}

/// The number that a word writes.
pub(crate) fn number(word: &[u8]) -> Option<u64>
    ensures number { result ≡ number_of word.now }
    ensures low { IfSome result (λ n. n < 2 ^ 63) }
{
    if word.is_empty() {
        return None;
    }
    if !all_digits(word) {
        return None;
    }
    if has_leading_zero(word) {
        return None;
    }
    number_value(word)
}
