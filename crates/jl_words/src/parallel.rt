// Command line: what the options of `parallel` set.
ghost use Rattle.std.specs.Prelude.{◌≡◌, Some, None, Ok, Err, IfOk, codes, unwrap_or};
ghost use Rattle.jl_batch.specs.Reads.{window_of};
ghost use Rattle.jl_words.specs.Parts.{said_in};
ghost use Rattle.jl_words.specs.Values.{path_in, jobs_in, backend_in, batch_in, mode_in, most_bytes_in};
ghost use Rattle.jl_words.specs.Commands.{places_of, jobs_given, forms_of, parallel_of};

use crate::parts::Parts;
use crate::types::{Backend, Mode, Settings, SettingsFault};
use crate::values::{backend, batch, jobs, mode, module, most_bytes, path, some_location};
use jl_batch::{BatchSize, Window, read_pre_dispatch};
use jl_text::Path;
use std::alloc::Global;

fn temp(alloc: Global, parts: &Parts<'_>) -> Result<Path, SettingsFault>
    ensures read { IfOk result
        (λ p. path_in (unwrap_or ((said_in parts.now).value (codes "temp-folder")) (codes "."))
        ≡ Some p) }
    ensures usage { result ≡ Err SettingsFault.Usage
        → path_in (unwrap_or ((said_in parts.now).value (codes "temp-folder")) (codes ".")) ≡ None }
{
    match parts.value("temp-folder") {
        Some(text) => path(alloc, text),
        None => path(alloc, "."),
    }
}

fn places(alloc: Global, parts: &Parts<'_>) -> Result<(Path, Option<Path>, Path), SettingsFault>
    ensures given { IfOk result (λ p. places_of (said_in parts.now) ≡ Some p) }
    ensures usage { result ≡ Err SettingsFault.Usage → places_of (said_in parts.now) ≡ None }
{
    let module = module(alloc, parts)?;
    let location = some_location(alloc, parts)?;
    let temp = temp(alloc, parts)?;
    Ok((module, location, temp))
}

fn some_jobs(parts: &Parts<'_>, cpus: u32) -> Option<u32>
    ensures { result
        ≡ jobs_in cpus (unwrap_or ((said_in parts.now).value (codes "n-jobs")) (codes "1")) }
{
    match parts.value("n-jobs") {
        Some(text) => jobs(text, cpus),
        None => jobs("1", cpus),
    }
}

fn some_backend(parts: &Parts<'_>) -> Option<Backend>
    ensures { result
        ≡ backend_in (unwrap_or ((said_in parts.now).value (codes "backend")) (codes "loky")) }
{
    match parts.value("backend") {
        Some(text) => backend(text),
        None => backend("loky"),
    }
}

fn window(text: &str, jobs: u32) -> Option<Window>
    ensures { result ≡ window_of text.now jobs }
{
    read_pre_dispatch(text, jobs).ok()
}

fn some_window(parts: &Parts<'_>, jobs: u32) -> Option<Window>
    ensures { result
        ≡ window_of (unwrap_or ((said_in parts.now).value (codes "pre-dispatch"))
        (codes "2*n_jobs")) jobs }
{
    match parts.value("pre-dispatch") {
        Some(text) => window(text, jobs),
        None => window("2*n_jobs", jobs),
    }
}

fn jobs_given(parts: &Parts<'_>, cpus: u32) -> Option<(u32, Backend, Window)>
    ensures { result ≡ jobs_given cpus (said_in parts.now) }
{
    let jobs = some_jobs(parts, cpus)?;
    let backend = some_backend(parts)?;
    let window = some_window(parts, jobs)?;
    Some((jobs, backend, window))
}

fn some_batch(parts: &Parts<'_>) -> Option<BatchSize>
    ensures { result
        ≡ batch_in (unwrap_or ((said_in parts.now).value (codes "batch-size")) (codes "auto")) }
{
    match parts.value("batch-size") {
        Some(text) => batch(text),
        None => batch("auto"),
    }
}

fn some_mode(parts: &Parts<'_>) -> Option<Mode>
    ensures { result
        ≡ mode_in (unwrap_or ((said_in parts.now).value (codes "return-as")) (codes "list")) }
{
    match parts.value("return-as") {
        Some(text) => mode(text),
        None => mode("list"),
    }
}

fn some_most_bytes(parts: &Parts<'_>) -> Option<Option<u64>>
    ensures { result
        ≡ most_bytes_in (unwrap_or ((said_in parts.now).value (codes "max-nbytes")) (codes "1M")) }
{
    match parts.value("max-nbytes") {
        Some(text) => most_bytes(text),
        None => most_bytes("1M"),
    }
}

fn forms(parts: &Parts<'_>) -> Option<(BatchSize, Mode, Option<u64>)>
    ensures { result ≡ forms_of (said_in parts.now) }
{
    let batch = some_batch(parts)?;
    let mode = some_mode(parts)?;
    let most = some_most_bytes(parts)?;
    Some((batch, mode, most))
}

pub(crate) fn parallel(
    alloc: Global,
    parts: &Parts<'_>,
    cpus: u32,
) -> Result<Settings, SettingsFault>
    ensures given { IfOk result (λ s. parallel_of cpus (said_in parts.now) ≡ Some s) }
    ensures usage { result ≡ Err SettingsFault.Usage → parallel_of cpus (said_in parts.now) ≡ None }
{
    let Some((jobs, backend, window)) = jobs_given(parts, cpus) else {
        return Err(SettingsFault::Usage);
    };
    let Some((batch, mode, max_nbytes)) = forms(parts) else {
        return Err(SettingsFault::Usage);
    };
    let (module, location, temp) = places(alloc, parts)?;
    Ok(Settings::Parallel {
        module,
        location,
        jobs,
        backend,
        window,
        batch,
        mode,
        max_nbytes,
        temp,
    })
}
