// The command `hash`.
ghost use Rattle.std.specs.Prelude.{◌≡◌, ◌++◌, ◌∷◌, [], IfOk, string_bytes, ⊤};
ghost use Rattle.hex.specs.Hex.{encode_lower};
ghost use Rattle.jl_value.specs.Key.{key_of};
ghost use Rattle.jl_cmd.specs.Output.{hash_output};
ghost use Rattle.jl_cmd.specs.Computing.{Computes};

use crate::arguments::{ArgumentsFault, read_arguments};
use crate::computed::{Computed, refused_arguments};
use jl_text::Text;
use jl_value::{Args, Key, digest};
use std::alloc::{AllocError, Global};

fn digits(alloc: Global, args: &Args) -> Result<Text, AllocError>
    ensures { IfOk result (λ t. t ≡ encode_lower (key_of args.now) ++ 10 ∷ []) }
{
    let key = digest(alloc, args)?;
    let mut digits = hex_of(alloc, &key)?;
    digits.push_str("\n")?;
    Ok(Text::new(digits))
}

fn hex_of(alloc: Global, key: &Key) -> Result<String, AllocError>
    ensures { IfOk result (λ t. string_bytes t ≡ encode_lower key.now.0) }
{
    match hex::encode(alloc, key.0.as_slice()) {
        Ok(digits) => Ok(digits),
        Err(_) => Err(AllocError),
    }
}

/// What a hash of the arguments that a text gives comes to.
pub fn compute_hash(alloc: Global, args: &str) -> Computed
    ensures { Computes (hash_output args.now) ⊤ result }
{
    match read_arguments(alloc, args) {
        Ok(args) => match digits(alloc, &args) {
            Ok(text) => Computed::Printed(text),
            Err(_) => Computed::NoMemory,
        },
        Err(ArgumentsFault::Memory) => Computed::NoMemory,
        Err(fault) => refused_arguments(alloc, fault),
    }
}
