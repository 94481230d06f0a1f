ghost use Rattle.std.specs.Prelude.{◌≡◌, ◌∷◌, [], ◌++◌, List, ℕ, IfOk, MatchOption, Some, None, true, false};
ghost use Rattle.jl_value.specs.Form.{tree_of};
ghost use Rattle.jl_lexer.specs.Words.{escape_of, unquoted as unquoted_of, quoted_in, text_in, key_in, is_key, constant_of, named_constant as named_constant_of, is_leaf};
ghost use Rattle.jl_lexer.specs.Constants.{tree_if, items_if, view_if, IsUnquoted};

use crate::words::{is_false, is_identifier, is_none, is_true, number};
use jl_text::Text;
use jl_value::Value;
use std::alloc::{AllocError, Global};
use std::marker::Model;

/// A word that is an expression: a name, or a value as it is written.
#[derive(Drop)]
pub struct Word<'a> {
    bytes: &'a [u8],
    value: Option<Value>,
}

impl<'a> Model for Word<'a> {
    ghost use Rattle.std.specs.Prelude.{◌≡◌, List, ℕ};
    ghost use Rattle.jl_lexer.specs.Words.{constant_of};
    ghost use Rattle.jl_lexer.specs.Constants.{tree_if};

    ghost Value = { List ℕ };

    ghost view = { λ w. w.bytes.now };

    ghost invariant = { λ w. tree_if w.value ≡ constant_of w.bytes.now };
}

/// What a byte of a quoted text is.
#[derive(Clone, Copy)]
pub(crate) enum Quoted {
    Byte(u8),
    Escape,
    End,
    Bad,
}

fn escape(byte: u8) -> Option<u8>
    ensures { result ≡ escape_of byte }
{
    match byte {
        b'"' => Some(b'"'),
        b'\\' => Some(b'\\'),
        b'n' => Some(b'\n'),
        b't' => Some(b'\t'),
        _ => None,
    }
}

fn quoted_byte(escaped: bool, byte: u8) -> Quoted
    ensures { IsUnquoted result escaped byte }
{
    if escaped {
        return match escape(byte) {
            Some(byte) => Quoted::Byte(byte),
            None => Quoted::Bad,
        };
    }
    if byte == b'"' {
        return Quoted::End;
    }
    if byte == b'\\' {
        return Quoted::Escape;
    }
    if byte < 32 {
        return Quoted::Bad;
    }
    Quoted::Byte(byte)
}

// The bytes that a quoted text stands for, behind its first quote.
fn unquoted(alloc: Global, bytes: &[u8]) -> Result<Option<Vec<u8>>, AllocError>
    ensures { IfOk result (λ o. items_if o ≡ unquoted_of false bytes.now) }
{
    let mut text = Vec::new(alloc);
    let mut escaped = false;
    for (i, byte) in bytes.iter().enumerate() {
        match quoted_byte(escaped, *byte) {
            Quoted::Byte(byte) => {
                text.push(byte)?;
                escaped = false;
            }
            Quoted::Escape => escaped = true,
            Quoted::End => {
                return if i + 1 == bytes.len() {
                    Ok(Some(text))
                } else {
                    Ok(None)
                };
            }
            Quoted::Bad => return Ok(None),
        }
    }
    Ok(None)
}

fn in_quotes(alloc: Global, word: &[u8]) -> Result<Option<Vec<u8>>, AllocError>
    ensures { IfOk result (λ o. items_if o ≡ quoted_in word.now) }
{
    match word {
        [first, rest @ ..] => {
            if *first == b'"' {
                unquoted(alloc, rest)
            } else {
                Ok(None)
            }
        }
        [] => Ok(None),
    }
}

fn text(alloc: Global, word: &[u8]) -> Result<Option<Text>, AllocError>
    ensures { IfOk result (λ o. view_if o ≡ text_in word.now) }
{
    let Some(bytes) = in_quotes(alloc, word)? else {
        return Ok(None);
    };
    match String::from_utf8(bytes) {
        Ok(text) => Ok(Some(Text::new(text))),
        Err(_) => Ok(None),
    }
}

fn named_constant(alloc: Global, word: &[u8]) -> Result<Option<Value>, AllocError>
    ensures { IfOk result (λ o. tree_if o ≡ named_constant_of word.now) }
{
    if is_true(word) {
        return Ok(Some(Value::Truth(true)));
    }
    if is_false(word) {
        return Ok(Some(Value::Truth(false)));
    }
    if is_none(word) {
        return Ok(Some(Value::Null));
    }
    match text(alloc, word)? {
        Some(text) => Ok(Some(Value::Text(text))),
        None => Ok(None),
    }
}

fn constant(alloc: Global, word: &[u8]) -> Result<Option<Value>, AllocError>
    ensures { IfOk result (λ o. tree_if o ≡ constant_of word.now) }
{
    match number(word) {
        Some(value) => Ok(Some(Value::Whole(value as i64))),
        None => named_constant(alloc, word),
    }
}

impl<'a> Word<'a> {
    /// The word that these bytes are, if they are a name or write a value.
    pub fn read(alloc: Global, bytes: &'a [u8]) -> Result<Option<Word<'a>>, AllocError>
        ensures { IfOk result
            (λ o. MatchOption o (is_leaf bytes.now ≡ false)
            (λ w. (w ≡ bytes.now) × (is_leaf bytes.now ≡ true))) }
    {
        if is_identifier(bytes) {
            let value = constant(alloc, bytes)?;
            return Ok(Some(Word { bytes, value }));
        }
        match constant(alloc, bytes)? {
            Some(value) => Ok(Some(Word {
                bytes,
                value: Some(value),
            })),
            None => Ok(None),
        }
    }

    pub fn bytes(&self) -> &'a [u8]
        ensures { result.now ≡ self.now }
    {
        self.bytes
    }

    /// The value that the word writes.
    pub fn value(&self) -> Option<&Value>
        ensures { MatchOption result (constant_of self.now ≡ None)
            (λ v. constant_of self.now ≡ Some (tree_of v.now)) }
    {
        self.value.as_ref()
    }
}

/// The name of a list's variable.
#[derive(Drop)]
pub struct Name<'a> {
    bytes: &'a [u8],
}

impl<'a> Model for Name<'a> {
    ghost use Rattle.std.specs.Prelude.{List, ℕ};

    ghost Value = { List ℕ };

    ghost view = { λ n. n.bytes.now };
}

impl<'a> Name<'a> {
    /// The name that these bytes are.
    pub fn new(bytes: &'a [u8]) -> Name<'a>
        ensures { result ≡ bytes.now }
    {
        Name { bytes }
    }

    pub fn bytes(&self) -> &'a [u8]
        ensures { result.now ≡ self.now }
    {
        self.bytes
    }
}

/// A key of a table, as it is written, and the text that it stands for.
#[derive(Drop)]
pub struct Key<'a> {
    bytes: &'a [u8],
    text: Text,
}

impl<'a> Model for Key<'a> {
    ghost use Rattle.std.specs.Prelude.{◌≡◌, List, ℕ, Some};
    ghost use Rattle.jl_lexer.specs.Words.{key_in};

    ghost Value = { List ℕ };

    ghost view = { λ k. k.bytes.now };

    ghost invariant = { λ k. key_in k.bytes.now ≡ Some k.text };
}

impl<'a> Key<'a> {
    /// The key that these bytes write, if they do.
    pub fn read(alloc: Global, bytes: &'a [u8]) -> Result<Option<Key<'a>>, AllocError>
        ensures { IfOk result
            (λ o. MatchOption o (is_key bytes.now ≡ false)
            (λ k. (k ≡ bytes.now) × (is_key bytes.now ≡ true))) }
    {
        let Some(text) = text(alloc, bytes)? else {
            return Ok(None);
        };
        if text.as_str().as_bytes() == b"$i64".as_slice() {
            return Ok(None);
        }
        Ok(Some(Key { bytes, text }))
    }

    /// The text that the key stands for.
    pub fn text(&self) -> &Text
        ensures { key_in self.now ≡ Some result.now }
    {
        &self.text
    }
}
