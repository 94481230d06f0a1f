// Runs one after another in a new folder, again and again, with the numbers of their scripts raised by one each time.

use crate::runs::run_row;
use jl_fixture::made_folder;
use jl_fixture::members::members_of;
use jl_script::given::{self, RowFault};
use jl_script::told::Told;
use jl_value::Value;
use std::alloc::Global;

// What the last of the runs tells, in a folder in which the files were made, with the numbers of the scripts raised by so much.
fn play(alloc: Global, files: &[Value], runs: &[Value], by: u64) -> Told {
    let mut folder = made_folder(alloc, files)?;
    let mut last = String::new(alloc);
    for row in runs {
        let (left, told) = run_row(alloc, folder, members_of(row), by, false)?;
        folder = left;
        last = told?;
    }
    Ok(last)
}

// `[COUNT, FILES, RUN, RUN ..]`: what the last run tells, for each number below the count. What is told at the number before isn't told again.
fn sweep(alloc: Global, given: &[Value]) -> Told {
    let [_, files, runs @ ..] = given else {
        return Err(RowFault::Bad);
    };
    let count = given::number(given, 0)?;
    let mut told = String::new(alloc);
    let mut last = String::new(alloc);
    for by in 0..count {
        let next = play(alloc, members_of(files), runs, by)?;
        if next.as_str() != last.as_str() {
            let line = format!(in alloc; "from {by}: {}\n", next.as_str())?;
            told.push_str(line.as_str())?;
        }
        last = next;
    }
    let times = format!(in alloc; "{count} times")?;
    told.push_str(times.as_str())?;
    Ok(told)
}

pub fn row(alloc: Global, case: &str, given: &[Value]) -> Told {
    match case {
        "runs" => sweep(alloc, given),
        _ => Err(RowFault::Bad),
    }
}
