// Which names stand in the folders of a cache.
ghost use Rattle.std.specs.Prelude.{◌≡◌, ◌↔◌, ◌⊎◌, [], IsTrue};
ghost use Rattle.std.specs.List.{list_all};
ghost use Rattle.jl_entry.specs.Names.{is_hex_byte, is_key, IsSuffix, IsNamed, IsEntryName, IsCodeName};

use jl_text::is_token;

// Whether the bytes are `.tmp-` and a token.
fn is_suffix(rest: &[u8]) -> bool
    ensures { IsTrue result ↔ IsSuffix rest.now }
{
    match rest.strip_prefix(b".tmp-") {
        Some(token) => is_token(token),
        None => false,
    }
}

// Whether nothing is left, or the suffix of a temporary name.
fn is_rest(rest: &[u8]) -> bool
    ensures { IsTrue result ↔ ((rest.now ≡ []) ⊎ IsSuffix rest.now) }
{
    if rest.is_empty() {
        return true;
    }
    is_suffix(rest)
}

// Whether the bytes are this name, or that with the suffix of a temporary name.
fn is_named(bytes: &[u8], name: &[u8]) -> bool
    ensures { IsTrue result ↔ IsNamed name.now bytes.now }
{
    match bytes.strip_prefix(name) {
        Some(rest) => is_rest(rest),
        None => false,
    }
}

/// Whether a name is that of a file of an entry, or a temporary one of such a file.
pub fn is_entry_name(part: &str) -> bool
    ensures { IsTrue result ↔ IsEntryName part.now }
{
    let bytes = part.as_bytes();
    if is_named(bytes, b"output.json") {
        return true;
    }
    if is_named(bytes, b"metadata.json") {
        return true;
    }
    is_named(bytes, b"last_access")
}

/// Whether a name is that of the file of a function's code, or a temporary one of it.
pub fn is_code_name(part: &str) -> bool
    ensures { IsTrue result ↔ IsCodeName part.now }
{
    let bytes = part.as_bytes();
    is_named(bytes, b"func_code.py")
}

fn is_hex_code(b: u8) -> bool
    ensures { result ≡ is_hex_byte b }
{
    (b >= b'0' && b <= b'9') || (b >= b'a' && b <= b'f')
}

fn all_hex_codes(bytes: &[u8]) -> bool
    ensures { result ≡ list_all is_hex_byte bytes.now }
{
    bytes.iter().all(|b| is_hex_code(*b))
}

/// Whether a name is that of an entry's folder: 32 hexadecimal digits, in lower case.
pub fn is_key_name(part: &str) -> bool
    ensures { result ≡ is_key part.now }
{
    let bytes = part.as_bytes();
    if bytes.len() != 32 {
        return false;
    }
    all_hex_codes(bytes)
}
