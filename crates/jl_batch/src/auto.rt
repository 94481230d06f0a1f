// How many tasks make a batch.
ghost use Rattle.std.specs.Prelude.{◌≡◌, ◌≤◌, fold, take};
ghost use Rattle.jl_batch.specs.Sizes.{started, size_after, sized, completed_of, sizing_after};

use std::marker::Model;

/// Batches that take less, in microseconds, are to grow.
const SHORT: u64 = 200_000;

/// Batches that take more are to shrink.
const LONG: u64 = 2_000_000;

/// A duration above this one counts as this one.
const LONGEST: u64 = 1_000_000_000_000;

/// The most tasks of a batch.
const MOST_TASKS: u32 = 32;

/// How many tasks make a batch: a number that follows what batches take, or always the same.
#[derive(Debug, Drop, Clone, Copy, PartialEq, Eq)]
pub enum BatchSize {
    Auto,
    Fixed(u32),
}

/// A size of batches that follows how long they take: from 200,000 to 2,000,000 microseconds each.
#[derive(Debug, Drop)]
pub struct Auto {
    size: u32,
    pub(crate) smoothed: u64,
}

impl Model for Auto {
    ghost use Rattle.std.specs.Prelude.{◌≤◌};
    ghost use Rattle.jl_batch.specs.Sizes.{Sizing};
    ghost use Rattle.jl_batch.specs.declared.auto.TheConstants.{LONGEST, MOST_TASKS};

    ghost Value = { Sizing };

    ghost view = { λ a. record { size = a.size; smoothed = a.smoothed } };

    ghost invariant = { λ a. (1 ≤ a.size) × (a.size ≤ MOST_TASKS) × (a.smoothed ≤ LONGEST) };
}

/// What happens to a size of batches: it is asked for, or a batch of so many tasks took so many
/// microseconds.
#[derive(Debug, Drop, Clone, Copy, PartialEq, Eq)]
pub enum Step {
    Size,
    Completed(u32, u64),
}

fn next_size(size: u32, smoothed: u64) -> u32
    requires least { 1 ≤ size }
    requires most { size ≤ MOST_TASKS }
    ensures size { result ≡ size_after (record { size = size; smoothed = smoothed }) }
    ensures least { 1 ≤ result }
    ensures most { result ≤ MOST_TASKS }
{
    if smoothed > 0 && smoothed < SHORT {
        let scaled = 2 * (u64::from(size) * SHORT / smoothed);
        return u64::from(2 * size)
            .min(scaled)
            .clamp(1, u64::from(MOST_TASKS)) as u32;
    }
    if smoothed > LONG && size >= 2 {
        let scaled = 2 * (u64::from(size) * SHORT / smoothed);
        return scaled.clamp(1, u64::from(MOST_TASKS)) as u32;
    }
    size
}

impl Auto {
    /// Batches of one task, of which nothing is known yet.
    pub fn new() -> Auto
        ensures { result ≡ started }
    {
        Auto {
            size: 1,
            smoothed: 0,
        }
    }

    /// How many tasks the next batch is to have.
    pub fn size(&mut self) -> u32
        ensures size { result ≡ size_after self.old }
        ensures after { self.new ≡ sized self.old }
        ensures least { 1 ≤ result }
        ensures most { result ≤ MOST_TASKS }
    {
        let size = next_size(self.size, self.smoothed);
        if size != self.size {
            self.size = size;
            self.smoothed = 0;
        }
        size
    }

    /// Learns that a batch of `size` tasks took `duration` microseconds.
    pub fn completed(&mut self, size: u32, duration: u64)
        ensures { self.new ≡ completed_of size duration self.old }
    {
        if self.size != size {
            return;
        }
        let duration = duration.min(LONGEST);
        if self.smoothed == 0 {
            self.smoothed = duration;
        } else {
            self.smoothed = (8 * self.smoothed + 2 * duration) / 10;
        }
    }
}

/// What is left after steps from the start: the steps folded over it, each by its formula.
pub fn replay(steps: &[Step]) -> Auto
    ensures { result ≡ fold sizing_after started steps.now }
{
    let mut sizing = Auto::new();
    for step in steps {
        match step {
            Step::Size => {
                let _size = sizing.size();
            }
            Step::Completed(size, duration) => sizing.completed(*size, *duration),
        }
    }
    sizing
}
