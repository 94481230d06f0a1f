// Names of modules and functions.
ghost use Rattle.std.specs.Prelude.{◌≡◌, true, false};
ghost use Rattle.std.specs.List.{list_all};
ghost use Rattle.jl_text.specs.Paths.{is_part};
ghost use Rattle.jl_text.specs.Texts.{is_name, is_name_byte, begins_with_digit};

use crate::limits::MOST_NAME_BYTES;

fn is_name_code(b: u8) -> bool
    ensures { result ≡ is_name_byte b }
{
    b.is_ascii_alphanumeric() || b == b'_'
}

fn all_name_codes(bytes: &[u8]) -> bool
    ensures { result ≡ list_all is_name_byte bytes.now }
{
    bytes.iter().all(|b| is_name_code(*b))
}

/// Whether a text names a module or a function: 1 to 64 characters of `A-Z`, `a-z`, `0-9` and `_`,
/// of which the first is no digit.
pub fn is_name(text: &str) -> bool
    ensures name { result ≡ is_name text.now }
    ensures part { result ≡ true → is_part text.now ≡ true }
{
    let bytes = text.as_bytes();
    match bytes {
        [] => false,
        [first, ..] => {
            if first.is_ascii_digit() || bytes.len() > MOST_NAME_BYTES {
                return false;
            }
            all_name_codes(bytes)
        }
    }
}
