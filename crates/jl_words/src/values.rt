// Command line: the values of options and plain words.
ghost use Rattle.std.specs.Prelude.{◌≡◌, ◌<◌, ◌^◌, Some, None, Ok, Err, IfOk, IfSome, option_map, option_and_then, codes};
ghost use Rattle.std.specs.List.{list_all};
ghost use Rattle.jl_words.specs.Parts.{said_in};
ghost use Rattle.jl_words.specs.Values.{required, optional, path_in, with_module_name, module_in, few_in, minus_body, number_in, jobs_for, jobs_in, backend_in, batch_in, fixed, mode_in, most_bytes_in, count_up_to, entry_key_in, is_key_digit};

use crate::module::module_name;
use crate::parts::Parts;
use crate::types::{Backend, Mode, SettingsFault};
use hex::FromHex;
use jl_batch::{BatchSize, effective_jobs};
use jl_quota::{read_count, read_size};
use jl_text::{Path, PathFault};
use jl_value::Key;
use std::alloc::Global;

/// A path, as a PATH or a DIR is.
pub(crate) fn path(alloc: Global, text: &str) -> Result<Path, SettingsFault>
    ensures read { IfOk result (λ p. path_in text.now ≡ Some p) }
    ensures usage { result ≡ Err SettingsFault.Usage → path_in text.now ≡ None }
{
    match Path::read(alloc, text) {
        Ok(path) => Ok(path),
        Err(PathFault::BadPath) => Err(SettingsFault::Usage),
        Err(PathFault::Memory) => Err(SettingsFault::Memory),
    }
}

fn module_path(alloc: Global, text: &str) -> Result<Path, SettingsFault>
    ensures read { IfOk result (λ p. module_in text.now ≡ Some p) }
    ensures usage { result ≡ Err SettingsFault.Usage → module_in text.now ≡ None }
{
    let path = path(alloc, text)?;
    if module_name(&path).is_none() {
        return Err(SettingsFault::Usage);
    }
    Ok(path)
}

/// The module's path that `--module` gives.
pub(crate) fn module(alloc: Global, parts: &Parts<'_>) -> Result<Path, SettingsFault>
    ensures read { IfOk result
        (λ p. required module_in ((said_in parts.now).value (codes "module")) ≡ Some p) }
    ensures usage { result ≡ Err SettingsFault.Usage
        → required module_in ((said_in parts.now).value (codes "module")) ≡ None }
{
    match parts.value("module") {
        Some(text) => module_path(alloc, text),
        None => Err(SettingsFault::Usage),
    }
}

/// The path that `--location` must give.
pub(crate) fn location(alloc: Global, parts: &Parts<'_>) -> Result<Path, SettingsFault>
    ensures read { IfOk result
        (λ p. required path_in ((said_in parts.now).value (codes "location")) ≡ Some p) }
    ensures usage { result ≡ Err SettingsFault.Usage
        → required path_in ((said_in parts.now).value (codes "location")) ≡ None }
{
    match parts.value("location") {
        Some(text) => path(alloc, text),
        None => Err(SettingsFault::Usage),
    }
}

/// The path that `--location` may give.
pub(crate) fn some_location(alloc: Global, parts: &Parts<'_>) -> Result<Option<Path>, SettingsFault>
    ensures read { IfOk result
        (λ p. optional path_in ((said_in parts.now).value (codes "location")) ≡ Some p) }
    ensures usage { result ≡ Err SettingsFault.Usage
        → optional path_in ((said_in parts.now).value (codes "location")) ≡ None }
{
    match parts.value("location") {
        Some(text) => Ok(Some(path(alloc, text)?)),
        None => Ok(None),
    }
}

fn few(text: &str) -> Option<u32>
    ensures value { result ≡ few_in text.now }
    ensures small { IfSome result (λ n. n < 10 ^ 9) }
{
    if text.len() > 9 {
        return None;
    }
    let count = read_count(text).ok()?;
    Some(count as u32)
}

fn without_minus(text: &str) -> Option<&str>
    ensures { option_map (λ rest. rest.now) result ≡ minus_body text.now }
{
    text.strip_prefix("-")
}

fn number(text: &str) -> Option<i64>
    ensures { result ≡ number_in text.now }
{
    match without_minus(text) {
        Some(rest) => Some(0 - i64::from(few(rest)?)),
        None => Some(i64::from(few(text)?)),
    }
}

fn jobs_for(n: i64, cpus: u32) -> Option<u32>
    ensures { result ≡ jobs_for cpus n }
{
    effective_jobs(n, cpus).ok()
}

/// The number of jobs that a text asks for.
pub(crate) fn jobs(text: &str, cpus: u32) -> Option<u32>
    ensures { result ≡ jobs_in cpus text.now }
{
    jobs_for(number(text)?, cpus)
}

pub(crate) fn backend(text: &str) -> Option<Backend>
    ensures { result ≡ backend_in text.now }
{
    if text == "loky" {
        return Some(Backend::Loky);
    }
    if text == "threading" {
        return Some(Backend::Threading);
    }
    if text == "sequential" {
        return Some(Backend::Sequential);
    }
    None
}

fn fixed(count: u32) -> Option<BatchSize>
    ensures { result ≡ fixed count }
{
    if count == 0 {
        return None;
    }
    Some(BatchSize::Fixed(count))
}

pub(crate) fn batch(text: &str) -> Option<BatchSize>
    ensures { result ≡ batch_in text.now }
{
    if text == "auto" {
        return Some(BatchSize::Auto);
    }
    fixed(few(text)?)
}

pub(crate) fn mode(text: &str) -> Option<Mode>
    ensures { result ≡ mode_in text.now }
{
    if text == "list" {
        return Some(Mode::List);
    }
    if text == "generator" {
        return Some(Mode::Generator);
    }
    None
}

/// From how many bytes on an array goes by file, or that none does.
pub(crate) fn most_bytes(text: &str) -> Option<Option<u64>>
    ensures { result ≡ most_bytes_in text.now }
{
    if text == "none" {
        return Some(None);
    }
    read_size(text).ok().map(Some)
}

/// A count up to `most`.
pub(crate) fn count_up_to(most: u64, text: &str) -> Option<u64>
    ensures { result ≡ count_up_to most text.now }
{
    let count = read_count(text).ok()?;
    if count > most {
        return None;
    }
    Some(count)
}

fn are_key_digits(bytes: &[u8]) -> bool
    ensures { result ≡ list_all is_key_digit bytes.now }
{
    bytes.iter().all(|b| (*b >= b'0' && *b <= b'9') || (*b >= b'a' && *b <= b'f'))
}

/// The key that 32 lower-case digits spell.
pub(crate) fn key(text: &str) -> Option<Key>
    ensures { result ≡ entry_key_in text.now }
{
    if !are_key_digits(text.as_bytes()) {
        return None;
    }
    let bytes = <[u8; 16] as FromHex>::from_hex(text).ok()?;
    Some(Key(bytes))
}
