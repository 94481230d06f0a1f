// Command line: what the options and plain words of each command set.
ghost use Rattle.std.specs.Prelude.{◌≡◌, [], ◌∷◌, map, Some, None, Ok, Err, IfOk, codes};
ghost use Rattle.jl_quota.specs.Limits.{size_of, count_of, age_of};
ghost use Rattle.jl_words.specs.Parts.{said_in};
ghost use Rattle.jl_words.specs.ModuleNames.{name_of};
ghost use Rattle.jl_words.specs.Values.{required, optional, count_up_to};
ghost use Rattle.jl_words.specs.Commands.{call_with, call_of, hash_of, session_of, clear_with, clear_settings, limits_of, reduce_of, gen_of};

use crate::parts::Parts;
use crate::types::{Settings, SettingsFault};
use crate::values::{count_up_to, key, location, module, some_location};
use jl_quota::{Limits, read_age, read_count, read_size};
use jl_text::{Path, Text, is_name};
use std::alloc::{AllocError, Global};

/// The largest number that `gen` begins from.
const MOST_FROM: u64 = 2_147_483_647;

/// The most values that `gen` computes.
const MOST_COUNT: u64 = 1_000_000;

fn text(alloc: Global, word: &str) -> Result<Text, AllocError>
    ensures { IfOk result (λ t. t ≡ word.now) }
{
    Ok(Text::new(String::from_str(alloc, word)?))
}

fn call_with(
    alloc: Global,
    module: Path,
    location: Path,
    plain: &[&str],
) -> Result<Settings, SettingsFault>
    ensures given { IfOk result
        (λ s. call_with «module» location (map (λ w. w.now) plain.now) ≡ Some s) }
    ensures usage { result ≡ Err SettingsFault.Usage
        → call_with «module» location (map (λ w. w.now) plain.now) ≡ None }
{
    match plain {
        [func, args] => Ok(Settings::Call {
            module,
            location,
            func: text(alloc, func)?,
            args: text(alloc, args)?,
        }),
        _ => Err(SettingsFault::Usage),
    }
}

pub(crate) fn call(alloc: Global, parts: &Parts<'_>) -> Result<Settings, SettingsFault>
    ensures given { IfOk result (λ s. call_of (said_in parts.now) ≡ Some s) }
    ensures usage { result ≡ Err SettingsFault.Usage → call_of (said_in parts.now) ≡ None }
{
    let module = module(alloc, parts)?;
    let location = location(alloc, parts)?;
    call_with(alloc, module, location, parts.plain.as_slice())
}

pub(crate) fn hash(alloc: Global, plain: &[&str]) -> Result<Settings, SettingsFault>
    ensures given { IfOk result (λ s. hash_of (map (λ w. w.now) plain.now) ≡ Some s) }
    ensures usage { result ≡ Err SettingsFault.Usage → hash_of (map (λ w. w.now) plain.now) ≡ None }
{
    match plain {
        [args] => Ok(Settings::Hash {
            args: text(alloc, args)?,
        }),
        _ => Err(SettingsFault::Usage),
    }
}

pub(crate) fn session(alloc: Global, parts: &Parts<'_>) -> Result<Settings, SettingsFault>
    ensures given { IfOk result (λ s. session_of (said_in parts.now) ≡ Some s) }
    ensures usage { result ≡ Err SettingsFault.Usage → session_of (said_in parts.now) ≡ None }
{
    let module = module(alloc, parts)?;
    let location = some_location(alloc, parts)?;
    Ok(Settings::Session { module, location })
}

fn name(alloc: Global, word: &str) -> Result<Text, SettingsFault>
    ensures given { IfOk result (λ t. name_of word.now ≡ Some t) }
    ensures usage { result ≡ Err SettingsFault.Usage → name_of word.now ≡ None }
{
    if !is_name(word) {
        return Err(SettingsFault::Usage);
    }
    Ok(text(alloc, word)?)
}

fn clear_entry(
    alloc: Global,
    location: Path,
    module: &str,
    func: &str,
    digits: &str,
) -> Result<Settings, SettingsFault>
    ensures given { IfOk result
        (λ s. clear_with location («module».now ∷ func.now ∷ digits.now ∷ []) ≡ Some s) }
    ensures usage { result ≡ Err SettingsFault.Usage
        → clear_with location («module».now ∷ func.now ∷ digits.now ∷ []) ≡ None }
{
    let Some(key) = key(digits) else {
        return Err(SettingsFault::Usage);
    };
    let module = name(alloc, module)?;
    let func = name(alloc, func)?;
    Ok(Settings::Clear {
        location,
        module: Some(module),
        func: Some(func),
        key: Some(key),
    })
}

fn clear_function(
    alloc: Global,
    location: Path,
    module: &str,
    func: &str,
) -> Result<Settings, SettingsFault>
    ensures given { IfOk result (λ s. clear_with location («module».now ∷ func.now ∷ []) ≡ Some s) }
    ensures usage { result ≡ Err SettingsFault.Usage
        → clear_with location («module».now ∷ func.now ∷ []) ≡ None }
{
    let module = name(alloc, module)?;
    let func = name(alloc, func)?;
    Ok(Settings::Clear {
        location,
        module: Some(module),
        func: Some(func),
        key: None,
    })
}

fn clear_module(alloc: Global, location: Path, module: &str) -> Result<Settings, SettingsFault>
    ensures given { IfOk result (λ s. clear_with location («module».now ∷ []) ≡ Some s) }
    ensures usage { result ≡ Err SettingsFault.Usage
        → clear_with location («module».now ∷ []) ≡ None }
{
    let module = name(alloc, module)?;
    Ok(Settings::Clear {
        location,
        module: Some(module),
        func: None,
        key: None,
    })
}

fn clear_with(alloc: Global, location: Path, plain: &[&str]) -> Result<Settings, SettingsFault>
    ensures given { IfOk result (λ s. clear_with location (map (λ w. w.now) plain.now) ≡ Some s) }
    ensures usage { result ≡ Err SettingsFault.Usage
        → clear_with location (map (λ w. w.now) plain.now) ≡ None }
{
    match plain {
        [] => Ok(Settings::Clear {
            location,
            module: None,
            func: None,
            key: None,
        }),
        [module] => clear_module(alloc, location, module),
        [module, func] => clear_function(alloc, location, module, func),
        [module, func, digits] => clear_entry(alloc, location, module, func, digits),
        _ => Err(SettingsFault::Usage),
    }
}

pub(crate) fn clear(alloc: Global, parts: &Parts<'_>) -> Result<Settings, SettingsFault>
    ensures given { IfOk result (λ s. clear_settings (said_in parts.now) ≡ Some s) }
    ensures usage { result ≡ Err SettingsFault.Usage → clear_settings (said_in parts.now) ≡ None }
{
    let location = location(alloc, parts)?;
    clear_with(alloc, location, parts.plain.as_slice())
}

fn bytes_limit(parts: &Parts<'_>) -> Option<Option<u64>>
    ensures { result ≡ optional size_of ((said_in parts.now).value (codes "bytes-limit")) }
{
    match parts.value("bytes-limit") {
        Some(text) => Some(Some(read_size(text).ok()?)),
        None => Some(None),
    }
}

fn items_limit(parts: &Parts<'_>) -> Option<Option<u64>>
    ensures { result ≡ optional count_of ((said_in parts.now).value (codes "items-limit")) }
{
    match parts.value("items-limit") {
        Some(text) => Some(Some(read_count(text).ok()?)),
        None => Some(None),
    }
}

fn age_limit(parts: &Parts<'_>) -> Option<Option<u64>>
    ensures { result ≡ optional age_of ((said_in parts.now).value (codes "age-limit")) }
{
    match parts.value("age-limit") {
        Some(text) => Some(Some(read_age(text).ok()?)),
        None => Some(None),
    }
}

fn limits(parts: &Parts<'_>) -> Option<Limits>
    ensures { result ≡ limits_of (said_in parts.now) }
{
    let bytes = bytes_limit(parts)?;
    let items = items_limit(parts)?;
    let age = age_limit(parts)?;
    Some(Limits { bytes, items, age })
}

pub(crate) fn reduce_size(alloc: Global, parts: &Parts<'_>) -> Result<Settings, SettingsFault>
    ensures given { IfOk result (λ s. reduce_of (said_in parts.now) ≡ Some s) }
    ensures usage { result ≡ Err SettingsFault.Usage → reduce_of (said_in parts.now) ≡ None }
{
    let Some(limits) = limits(parts) else {
        return Err(SettingsFault::Usage);
    };
    let location = location(alloc, parts)?;
    Ok(Settings::ReduceSize { location, limits })
}

fn counted(parts: &Parts<'_>, name: &str, most: u64) -> Option<u64>
    ensures { result ≡ required (count_up_to most) ((said_in parts.now).value name.now) }
{
    count_up_to(most, parts.value(name)?)
}

pub(crate) fn generate(alloc: Global, parts: &Parts<'_>) -> Result<Settings, SettingsFault>
    ensures given { IfOk result (λ s. gen_of (said_in parts.now) ≡ Some s) }
    ensures usage { result ≡ Err SettingsFault.Usage → gen_of (said_in parts.now) ≡ None }
{
    let Some(from) = counted(parts, "from", MOST_FROM) else {
        return Err(SettingsFault::Usage);
    };
    let Some(count) = counted(parts, "count", MOST_COUNT) else {
        return Err(SettingsFault::Usage);
    };
    let location = location(alloc, parts)?;
    Ok(Settings::Gen {
        location,
        from,
        count,
    })
}
