// Command line: what it sets.
use jl_batch::{BatchSize, Window};
use jl_quota::Limits;
use jl_text::{Path, Text};
use jl_value::Key;
use std::alloc::{AllocError, AllocFailed};
use thiserror::Error;

/// Why words set nothing.
#[derive(Clone, Copy, Debug, PartialEq, Eq, Error)]
pub enum SettingsFault {
    #[error("wrong usage")]
    Usage,
    #[error("out of memory")]
    Memory,
}

impl From<AllocError> for SettingsFault {
    ghost use Rattle.jl_words.specs.declared.types.SettingsFault.TheVariants.{Memory};
    ghost use Rattle.std.specs.Prelude.{◌≡◌};

    ghost from_gives = { λ _ e. e ≡ Memory };

    fn from(_refused: AllocError) -> SettingsFault {
        SettingsFault::Memory
    }
}

impl<T: Drop> From<AllocFailed<T>> for SettingsFault {
    ghost use Rattle.jl_words.specs.declared.types.SettingsFault.TheVariants.{Memory};
    ghost use Rattle.std.specs.Prelude.{◌≡◌};

    ghost from_gives = { λ _ e. e ≡ Memory };

    fn from(_refused: AllocFailed<T>) -> SettingsFault {
        SettingsFault::Memory
    }
}

/// What runs the tasks of a parallel call: processes that stay, threads, or the caller alone.
#[derive(Clone, Copy, Debug, Drop, PartialEq, Eq)]
pub enum Backend {
    Loky,
    Threading,
    Sequential,
}

/// How results come: all at the end, or each as soon as those before it have come.
#[derive(Clone, Copy, Debug, Drop, PartialEq, Eq)]
pub enum Mode {
    List,
    Generator,
}

/// A command with all that its words set.
#[derive(Debug, Drop)]
pub enum Settings {
    /// Call a function of the module in the file `module`, with its cache under `location`.
    Call {
        module: Path,
        location: Path,
        func: Text,
        args: Text,
    },
    /// Print the key of arguments.
    Hash {
        args: Text,
    },
    /// Run the tasks of the input. Arrays of more than `max_nbytes` bytes go by file, below `temp`.
    Parallel {
        module: Path,
        location: Option<Path>,
        jobs: u32,
        backend: Backend,
        window: Window,
        batch: BatchSize,
        mode: Mode,
        max_nbytes: Option<u64>,
        temp: Path,
    },
    /// Answer calls, each of many tasks, with workers that stay.
    Session {
        module: Path,
        location: Option<Path>,
    },
    /// Remove all, a module, a function or an entry of the cache under `location`.
    Clear {
        location: Path,
        module: Option<Text>,
        func: Option<Text>,
        key: Option<Key>,
    },
    /// Remove the entries least recently used until the limits are met.
    ReduceSize {
        location: Path,
        limits: Limits,
    },
    /// Work on the tasks that the input brings.
    Worker,
    /// Count the users of files and folders, and remove those that nobody uses.
    Tracker,
    /// Compute `count` values of a fixed function from `from` on.
    Gen {
        location: Path,
        from: u64,
        count: u64,
    },
}
