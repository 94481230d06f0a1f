// Rows over the items of the cache in the folder `c`, and over reducing it. Each is a run of its own.

use jl_evict::{Item, ItemsRead, Limits, choose, items, reduce_size};
use jl_fixture::members::number;
use jl_fixture::{Stage, Watched, start, with_counts};
use jl_folder::{Folder, Path};
use jl_script::given::{self, RowFault};
use jl_script::told::{self, Told};
use jl_text::Text;
use jl_value::Value;
use std::alloc::{AllocError, Global};
use std::cell::Cell;

// The limits of a row, of bytes, items and age.
fn limits_of(row: &Value) -> Result<Limits, RowFault> {
    Ok(Limits {
        bytes: number(row, "bytes")?,
        items: number(row, "items")?,
        age: number(row, "age")?,
    })
}

// So many items, each as large as can be and at other moments.
fn many(alloc: Global, count: u64) -> Result<Vec<Item>, AllocError> {
    let mut items = Vec::new(alloc);
    for i in 0..count {
        let path = Text::new(format!(in alloc; "m/f/{i}")?);
        items.push(Item {
            path,
            bytes: u64::MAX,
            access: i.wrapping_mul(7919) % 99_991,
        })?;
    }
    Ok(items)
}

// How many of so many items are chosen: `[COUNT, LIMITS]`.
fn choose_many(alloc: Global, given: &[Value]) -> Told {
    let mut items = many(alloc, given::number(given, 0)?)?;
    let limits = limits_of(given::argument(given, 1)?)?;
    let chosen = choose(&mut items, &limits, 0);
    Ok(format!(in alloc; "{chosen} chosen")?)
}

fn spell_item(alloc: Global, item: &Item) -> Told {
    let path = item.path.as_str();
    Ok(format!(in alloc; " [{path}, {} bytes, at {}]", item.bytes, item.access)?)
}

// How many of the items are chosen, and all of them in order.
fn tell_items(alloc: Global, found: Vec<Item>, limits: &Limits, now: u64) -> Told {
    let mut found = found;
    let chosen = choose(&mut found, limits, now);
    let mut told = format!(in alloc; "{chosen} chosen of")?;
    for item in found.iter() {
        let item = spell_item(alloc, item)?;
        told.push_str(item.as_str())?;
    }
    Ok(told)
}

fn choose_items<F: Folder>(
    alloc: Global,
    folder: &mut F,
    location: &Path,
    limits: &Limits,
    now: u64,
) -> Told {
    match items(alloc, folder, location) {
        ItemsRead::Items(found) => tell_items(alloc, found, limits, now),
        ItemsRead::FolderFault => told::word(alloc, "FolderFault"),
        ItemsRead::NoMemory => Err(RowFault::Memory),
    }
}

// Chooses items, or takes those away that are chosen: `[LIMITS, MOMENT]`.
fn tell<F: Folder>(alloc: Global, folder: &mut F, case: &str, given: &[Value]) -> Told {
    let location = Path::read(alloc, "c").ok().ok_or(RowFault::Bad)?;
    let limits = limits_of(given::argument(given, 0)?)?;
    let now = given::number(given, 1)?;
    match case {
        "items" => choose_items(alloc, folder, &location, &limits, now),
        "reduce" => {
            let reduced = reduce_size(alloc, folder, &location, &limits, now);
            Ok(format!(in alloc; "{reduced:?}")?)
        }
        _ => Err(RowFault::Bad),
    }
}

pub fn row(alloc: Global, stage: &mut Stage, case: &str, given: &[Value]) -> Told {
    if case == "choose" {
        return choose_many(alloc, given);
    }
    let script = stage.next_script(alloc)?;
    let folder = start(stage.take()?, script)?;
    let calls = Cell::new(0);
    let mut watched = Watched::new(alloc, folder, &calls, stage.is_noting());
    let told = match tell(alloc, &mut watched, case, given) {
        Ok(answer) => with_counts(alloc, answer.as_str(), &watched),
        Err(fault) => Err(fault),
    };
    stage.put(watched.inner);
    told
}
