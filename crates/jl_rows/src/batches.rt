// Rows over the number of jobs, windows, sizes of batches and expressions in the number of jobs.

use jl_batch::{Auto, Step, Window, effective_jobs, read_pre_dispatch, replay};
use jl_script::given::{self, RowFault};
use jl_script::told::{self, Told};
use jl_value::Value;
use std::alloc::Global;

pub fn row(alloc: Global, case: &str, given: &[Value]) -> Told {
    match case {
        "jobs" => jobs(alloc, given),
        "room" => room(alloc, given),
        "sizes" => sizes(alloc, given),
        "window" => window(alloc, given),
        _ => Err(RowFault::Bad),
    }
}

fn jobs(alloc: Global, given: &[Value]) -> Told {
    match effective_jobs(given::whole(given, 0)?, given::small_number(given, 1)?) {
        Ok(jobs) => Ok(format!(in alloc; "{jobs}")?),
        Err(fault) => Ok(format!(in alloc; "{fault:?}")?),
    }
}

// How many tasks more a window of so many tasks, or of all, lets in.
fn room(alloc: Global, given: &[Value]) -> Told {
    let window = match given.first() {
        Some(Value::Null) => Window::All,
        _ => Window::Tasks(given::small_number(given, 0)?),
    };
    let tasks_read = given::number(given, 1)?;
    let settled = given::number(given, 2)?;
    if settled > tasks_read {
        return Err(RowFault::Bad);
    }
    let room = window.room(tasks_read, settled);
    Ok(format!(in alloc; "{room}")?)
}

// A size that is asked for, as `"size"`, or a batch of so many tasks that took so long.
fn step(given: &[Value], place: usize) -> Result<Step, RowFault> {
    match given.get(place) {
        Some(Value::Text(_)) => Ok(Step::Size),
        Some(Value::List(step)) => Ok(Step::Completed(
            given::small_number(step.as_slice(), 0)?,
            given::number(step.as_slice(), 1)?,
        )),
        _ => Err(RowFault::Bad),
    }
}

// The sizes that are asked for on the way, and what is left in the end: by a call a step, and by a
// replay.
fn sizes(alloc: Global, given: &[Value]) -> Told {
    let mut sizing = Auto::new();
    let mut steps = Vec::new(alloc);
    let mut told = String::new(alloc);
    for place in 0..given.len() {
        let step = step(given, place)?;
        match step {
            Step::Size => {
                let size = sizing.size();
                write!(told, "{size} ")?;
            }
            Step::Completed(size, duration) => sizing.completed(size, duration),
        }
        steps.push(step)?;
    }
    let again = replay(steps.as_slice());
    write!(told, "{sizing:?}\n{again:?}")?;
    Ok(told)
}

// The window that a text asks for with so many jobs.
fn window(alloc: Global, given: &[Value]) -> Told {
    let text = given::text(alloc, given, 0)?;
    match read_pre_dispatch(text.as_str(), given::small_number(given, 1)?) {
        Ok(Window::All) => told::word(alloc, "all"),
        Ok(Window::Tasks(tasks)) => Ok(format!(in alloc; "{tasks}")?),
        Err(fault) => Ok(format!(in alloc; "{fault:?}")?),
    }
}
