// The limits of the program, each in one place.

/// The longest name of a module or a function.
pub const MOST_NAME_BYTES: usize = 64;

/// The longest token of a run.
pub const MOST_TOKEN_BYTES: usize = 48;

/// The longest text of a path.
pub const MOST_PATH_BYTES: usize = 4_096;

/// The longest of the texts that are kept whole: a module, a call's arguments and the canonical
/// text of a value.
pub const MOST_TEXT_BYTES: usize = 1_048_576;

/// How deep the lists and tables of a value nest at most.
pub const MOST_VALUE_DEPTH: u32 = 64;

/// The most brackets that stand open in a line of a module, and the height of its expression.
pub const MOST_BRACKETS: u32 = 128;

/// The most steps of an evaluation. A value that it makes counts as many as its members.
pub const MOST_STEPS: u64 = 16_777_216;

/// The largest file of an entry that is read.
pub const MOST_ENTRY_BYTES: usize = 16_777_216;

/// The longest line that the tracker takes, with its newline.
pub const MOST_LINE_BYTES: u64 = 512;

/// The most bytes that are taken of an input.
pub const MOST_INPUT_BYTES: u64 = 1_099_511_627_776;

/// How many bytes are read or written at once.
pub const PIECE_BYTES: usize = 65_536;

/// The last moment that a clock tells, in microseconds since 1970.
pub const LAST_MOMENT: u64 = 4_611_686_018_427_387_904;

/// The most processors that a host is taken to have.
pub const MOST_PROCESSORS: usize = 1_024;

/// The most jobs of a run.
pub const MOST_JOBS: u32 = 1_024;
