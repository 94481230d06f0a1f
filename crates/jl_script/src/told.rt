// What is told of a result: values as JSON, bytes that are no text as digits, the length and MD5 of
// what is long.

use crate::given::RowFault;
use jl_text::Text;
use jl_value::{Key, ModuleFault, Value, canonical};
use md5::{Digest, Md5};
use std::alloc::Global;

/// The lines that are told below a row, or why there are none.
pub type Told = Result<String, RowFault>;

/// How many bytes of a result are told as they are.
const LONGEST: usize = 400;

/// A text as it is, or its length and MD5.
fn shorten(alloc: Global, text: &str) -> Told {
    if text.len() > LONGEST {
        let digits = hex::encode(alloc, Md5::digest(text.as_bytes()).as_slice())?;
        return Ok(format!(in alloc; "{} bytes, MD5 {digits}", text.len())?);
    }
    word(alloc, text)
}

pub fn value(alloc: Global, value: &Value) -> Told {
    shorten(alloc, canonical(alloc, value)?.as_str())
}

pub fn text(alloc: Global, text: &str) -> Told {
    if text.len() > LONGEST {
        return shorten(alloc, text);
    }
    let copy = Text::new(String::from_str(alloc, text)?);
    value(alloc, &Value::Text(copy))
}

pub fn bytes(alloc: Global, bytes: &[u8]) -> Told {
    match str::from_utf8(bytes) {
        Ok(found) => text(alloc, found),
        Err(_) => {
            let digits = hex::encode(alloc, bytes)?;
            Ok(format!(in alloc; "{{\"hex\":\"{digits}\"}}")?)
        }
    }
}

pub fn truth(alloc: Global, holds: bool) -> Told {
    Ok(format!(in alloc; "{holds}")?)
}

/// A variant's name, or the like.
pub fn word(alloc: Global, word: &str) -> Told {
    Ok(String::from_str(alloc, word)?)
}

/// The digits of a key.
pub fn key(alloc: Global, key: &Key) -> Told {
    let mut digits = [0; 32];
    key.hex(&mut digits);
    word(alloc, str::from_utf8(digits.as_slice()).unwrap_or(""))
}

/// The line and the kind of a module's fault.
pub fn module_fault(alloc: Global, fault: ModuleFault) -> Told {
    Ok(format!(in alloc; "{} {}", fault.line, fault.kind.name())?)
}

/// A code, and the number of its line.
pub fn code(alloc: Global, code: &str, line: u64) -> Told {
    let shown = text(alloc, code)?;
    Ok(format!(in alloc; "{} line: {line}", shown.as_str())?)
}
