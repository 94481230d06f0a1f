// Which items go.
ghost use Rattle.std.specs.Prelude.{◌≡◌, ◌↔◌, ◌≤◌, ◌+◌, ◌-◌, ◌*◌, ◌^◌, ℕ, length, take, drop, sum_by, IsTrue, Some};
ghost use Rattle.std.specs.List.Sorted.{IsPermutation, IsSorted};
ghost use Rattle.jl_evict.specs.Choosing.{item_cmp, bytes_of, excess, IsSpared, IsShortest};

use crate::item::Item;
use jl_quota::Limits;
use std::cmp::Ordering;

// The item that goes first is the one that was used less lately;
// of two, the one whose path comes first.
fn in_order(a: &Item, b: &Item) -> Ordering
    ensures { result ≡ item_cmp a.now b.now }
{
    match a.access.cmp(&b.access) {
        Ordering::Equal => a.path.as_str().cmp(b.path.as_str()),
        unequal => unequal,
    }
}

fn sort_items(items: &mut Vec<Item>)
    ensures permutation { IsPermutation items.old.items items.new.items }
    ensures sorted { IsSorted item_cmp items.new.items }
{
    items.sort_unstable_by(|a, b| in_order(a, b));
}

fn total_bytes(items: &[Item]) -> u128
    ensures total { result ≡ bytes_of items.now }
    ensures room { result ≤ (2 ^ 64 - 1) * length items.now }
{
    let mut total: u128 = 0;
    for item in items {
        total += u128::from(item.bytes);
    }
    total
}

// By how much a number is beyond a limit.
fn beyond(number: u128, limit: Option<u64>) -> u128
    ensures { result ≡ excess number limit }
{
    match limit {
        Some(limit) => number.saturating_sub(u128::from(limit)),
        None => 0,
    }
}

// Whether an item is younger than the age limit, if there is one.
fn is_spared(item: &Item, age: Option<u64>, now: u64) -> bool
    ensures { IsTrue result ↔ IsSpared age now item.now }
{
    let Some(age) = age else {
        return true;
    };
    if now < item.access {
        return true;
    }
    now - item.access < age
}

// What has to go, by bytes and by number, whatever the age.
#[derive(Clone, Copy)]
struct Excess {
    bytes: u128,
    items: u128,
}

// Whether nothing more has to go, where so many items went, with so many bytes,
// and this one is next.
fn may_stop(
    excess: Excess,
    bytes: u128,
    count: usize,
    next: &Item,
    age: Option<u64>,
    now: u64,
) -> bool
    ensures { IsTrue result
        ↔ ((excess.bytes ≤ bytes) × (excess.items ≤ count) × IsSpared age now next.now) }
{
    if bytes < excess.bytes {
        return false;
    }
    if (count as u128) < excess.items {
        return false;
    }
    is_spared(next, age, now)
}

// How many of the first items go.
fn count_chosen(items: &[Item], limits: &Limits, now: u64) -> usize
    ensures { IsShortest limits.now now items.now result }
{
    let excess = Excess {
        bytes: beyond(total_bytes(items), limits.bytes),
        items: beyond(items.len() as u128, limits.items),
    };
    let mut bytes: u128 = 0;
    for i in 0..items.len() {
        if may_stop(excess, bytes, i, &items[i], limits.age, now) {
            return i;
        }
        bytes += u128::from(items[i].bytes);
    }
    items.len()
}

/// Puts the items in the order in which they go, and answers how many of the first go:
/// as few as leave no more than the limits. Takes no memory.
pub fn choose(items: &mut Vec<Item>, limits: &Limits, now: u64) -> usize
    ensures permutation { IsPermutation items.old.items items.new.items }
    ensures order { IsSorted item_cmp items.new.items }
    ensures count { IsShortest limits.now now items.new.items result }
{
    sort_items(items);
    count_chosen(items.as_slice(), limits, now)
}
