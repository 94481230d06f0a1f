// Small types that contracts see as lists of bytes.
ghost use Rattle.std.specs.Prelude.{◌≡◌, ◌++◌, IsTrue, IfOk, OnOk, OnErr, MatchResult, string_bytes, true, false};
ghost use Rattle.std.specs.Str.{bytes_eq};
ghost use Rattle.std.specs.List.{list_all};
ghost use Rattle.jl_text.specs.Texts.{is_token, is_token_byte};

use crate::limits::MOST_TOKEN_BYTES;
use std::alloc::{AllocError, AllocFailed, Global};
use std::marker::Model;
use thiserror::Error;

/// A text of UTF-8, which contracts see as its bytes.
#[derive(Debug, Drop)]
pub struct Text {
    text: String,
}

impl Model for Text {
    ghost use Rattle.std.specs.Prelude.{List, ℕ, string_bytes};

    ghost Value = { List ℕ };

    ghost view = { λ t. string_bytes t.text };
}

impl PartialEq for Text {
    ghost eq = { bytes_eq };

    ghost use Rattle.std.specs.Cmp.{partial_equiv_from_equiv};
    ghost use Rattle.std.specs.Cmp.Lexicographic.{nat_list_eq_equiv};

    ghost laws = { partial_equiv_from_equiv nat_list_eq_equiv };

    fn eq(&self, other: &Self) -> bool {
        self.text.as_str() == other.text.as_str()
    }
}

impl Text {
    pub fn new(text: String) -> Text
        ensures { result ≡ string_bytes text }
    {
        Text { text }
    }

    pub fn as_str(&self) -> &str
        ensures { result.now ≡ self.now }
    {
        self.text.as_str()
    }

    pub fn into_string(self) -> String
        ensures { string_bytes result ≡ self }
    {
        self.text
    }

    pub fn copy(&self) -> Result<Text, AllocError>
        ensures { IfOk result (λ t. t ≡ self.now) }
    {
        let text = self.text.clone()?;
        Ok(Text { text })
    }
}

/// Any bytes.
#[derive(Debug, Drop)]
pub struct Bytes {
    bytes: Vec<u8>,
}

impl Model for Bytes {
    ghost use Rattle.std.specs.Prelude.{List, ℕ};

    ghost Value = { List ℕ };

    ghost view = { λ b. b.bytes.items };
}

impl PartialEq for Bytes {
    ghost eq = { bytes_eq };

    ghost use Rattle.std.specs.Cmp.{partial_equiv_from_equiv};
    ghost use Rattle.std.specs.Cmp.Lexicographic.{nat_list_eq_equiv};

    ghost laws = { partial_equiv_from_equiv nat_list_eq_equiv };

    fn eq(&self, other: &Self) -> bool {
        self.bytes == other.bytes
    }
}

impl Bytes {
    pub fn new(bytes: Vec<u8>) -> Bytes
        ensures { result ≡ bytes.items }
    {
        Bytes { bytes }
    }

    pub fn as_slice(&self) -> &[u8]
        ensures { result.now ≡ self.now }
    {
        self.bytes.as_slice()
    }

    pub fn into_vec(self) -> Vec<u8>
        ensures { result.items ≡ self }
    {
        self.bytes
    }

    pub fn extend(&mut self, bytes: &[u8]) -> Result<(), AllocError>
        ensures ok { OnOk result (self.new ≡ self.old ++ bytes.now) }
        ensures err { OnErr result (self.new ≡ self.old) }
    {
        self.bytes.extend_from_slice(bytes)?;
        Ok(())
    }

    pub fn copy(&self) -> Result<Bytes, AllocError>
        ensures { IfOk result (λ b. b ≡ self.now) }
    {
        let bytes = Vec::from_slice(self.bytes.allocator().clone()?, self.bytes.as_slice())?;
        Ok(Bytes { bytes })
    }
}

/// Why a text is not taken as a token.
#[derive(Clone, Copy, Debug, PartialEq, Eq, Error)]
pub enum TokenFault {
    #[error("not a token")]
    BadToken,
    #[error("out of memory")]
    Memory,
}

impl From<AllocError> for TokenFault {
    ghost use Rattle.jl_text.specs.declared.text.TokenFault.TheVariants.{Memory};
    ghost use Rattle.std.specs.Prelude.{◌≡◌};

    ghost from_gives = { λ _ e. e ≡ Memory };

    fn from(_refused: AllocError) -> TokenFault {
        TokenFault::Memory
    }
}

impl<T: Drop> From<AllocFailed<T>> for TokenFault {
    ghost use Rattle.jl_text.specs.declared.text.TokenFault.TheVariants.{Memory};
    ghost use Rattle.std.specs.Prelude.{◌≡◌};

    ghost from_gives = { λ _ e. e ≡ Memory };

    fn from(_refused: AllocFailed<T>) -> TokenFault {
        TokenFault::Memory
    }
}

/// A text of 1 to 48 of the characters `a-z0-9`.
#[derive(Debug, Drop)]
pub struct Token {
    text: String,
}

impl Model for Token {
    ghost use Rattle.std.specs.Prelude.{List, ℕ, string_bytes, IsTrue};
    ghost use Rattle.jl_text.specs.Texts.{is_token};

    ghost Value = { List ℕ };

    ghost view = { λ t. string_bytes t.text };

    ghost invariant = { λ t. IsTrue (is_token (string_bytes t.text)) };
}

impl PartialEq for Token {
    ghost eq = { bytes_eq };

    ghost use Rattle.std.specs.Cmp.{partial_equiv_from_equiv};
    ghost use Rattle.std.specs.Cmp.Lexicographic.{nat_list_eq_equiv};

    ghost laws = { partial_equiv_from_equiv nat_list_eq_equiv };

    fn eq(&self, other: &Self) -> bool {
        self.text.as_str() == other.text.as_str()
    }
}

fn is_token_code(b: u8) -> bool
    ensures { result ≡ is_token_byte b }
{
    b.is_ascii_lowercase() || b.is_ascii_digit()
}

fn all_token_codes(bytes: &[u8]) -> bool
    ensures { result ≡ list_all is_token_byte bytes.now }
{
    bytes.iter().all(|b| is_token_code(*b))
}

/// Whether a token is spelled so: 1 to 48 of the characters `a-z0-9`.
pub fn is_token(bytes: &[u8]) -> bool
    ensures { result ≡ is_token bytes.now }
{
    if bytes.is_empty() {
        return false;
    }
    if bytes.len() > MOST_TOKEN_BYTES {
        return false;
    }
    all_token_codes(bytes)
}

impl Token {
    /// `BadToken` exactly where the text has not the form.
    pub fn read(alloc: Global, text: &str) -> Result<Token, TokenFault>
        ensures read { MatchResult result (λ t. (t ≡ text.now) × IsTrue (is_token text.now))
            (λ e. e ≡ TokenFault.BadToken → is_token text.now ≡ false) }
        ensures bad { is_token text.now ≡ false → result ≡ Err TokenFault.BadToken }
    {
        if !is_token(text.as_bytes()) {
            return Err(TokenFault::BadToken);
        }
        let text = String::from_str(alloc, text)?;
        Ok(Token { text })
    }

    pub fn as_str(&self) -> &str
        ensures same { result.now ≡ self.now }
        ensures form { IsTrue (is_token self.now) }
    {
        self.text.as_str()
    }

    pub fn copy(&self) -> Result<Token, AllocError>
        ensures { IfOk result (λ t. t ≡ self.now) }
    {
        let text = self.text.clone()?;
        Ok(Token { text })
    }
}
