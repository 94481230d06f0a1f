// How many tasks may be in flight.
ghost use Rattle.std.specs.Prelude.{◌≡◌, ◌≤◌};
ghost use Rattle.jl_batch.specs.Rooms.{room_of};

/// How many tasks may have been read and not settled.
#[derive(Debug, Drop, Clone, Copy, PartialEq, Eq)]
pub enum Window {
    All,
    Tasks(u32),
}

impl Window {
    /// How many tasks more may be read.
    pub fn room(&self, tasks_read: u64, settled: u64) -> u64
        requires { settled ≤ tasks_read }
        ensures { result ≡ room_of self.now tasks_read settled }
    {
        match self {
            Window::All => u64::MAX,
            Window::Tasks(window) => u64::from(*window).saturating_sub(tasks_read - settled),
        }
    }
}
