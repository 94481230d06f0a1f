// Rows over the limits of a cache.

use jl_quota::{BadLimit, Limits, read_age, read_count, read_size};
use jl_script::given::{self, RowFault};
use jl_script::told::Told;
use jl_value::Value;
use std::alloc::Global;

pub fn row(alloc: Global, case: &str, given: &[Value]) -> Told {
    let text = given::text(alloc, given, 0)?;
    match case {
        "size" => told_limit(alloc, read_size(text.as_str())),
        "count" => told_limit(alloc, read_count(text.as_str())),
        "age" => told_limit(alloc, read_age(text.as_str())),
        "limits" => limits(alloc, given),
        _ => Err(RowFault::Bad),
    }
}

fn told_limit(alloc: Global, read: Result<u64, BadLimit>) -> Told {
    match read {
        Ok(limit) => Ok(format!(in alloc; "{limit}")?),
        Err(fault) => Ok(format!(in alloc; "{fault:?}")?),
    }
}

// Limits of bytes and items, and none of age.
fn limits(alloc: Global, given: &[Value]) -> Told {
    let bytes = given::text(alloc, given, 0)?;
    let items = given::text(alloc, given, 1)?;
    let limits = Limits {
        bytes: read_size(bytes.as_str()).ok(),
        items: read_count(items.as_str()).ok(),
        age: None,
    };
    Ok(format!(in alloc; "{limits:?}")?)
}
