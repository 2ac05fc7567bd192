ghost use Rattle.std.specs.Prelude.{◌≡◌, ◌++◌, ◌+◌, ◌≤◌, [], nat_eq, OnOk, OnErr};
ghost use Rattle.std.specs.Ordering.{nat_cmp};
ghost use Rattle.std.specs.Vec.{vec_len, vec_capacity};
ghost use Rattle.std.specs.List.{list_any};
ghost use Rattle.std.specs.List.Sorted.{IsStrictlyIncreasing, IsSorted};
ghost use Rattle.cq_board.specs.Turnover.{from_option, AreTurned, LosesOne, LosesEach, TurnsOver};

use cq_base::Memory;
use std::alloc::Global;

// Up to so many numbers are taken out one by one.
const FEW: usize = 16;

/// The numbers of changes that put files, rising, and those whose files were replaced or dropped.
#[derive(Drop)]
pub struct Turnover {
    pub put: Vec<u64>,
    pub gone: Vec<u64>,
}

impl Turnover {
    /// No numbers. It takes no memory.
    pub fn new(alloc: Global) -> Turnover
        ensures put { result.put.items ≡ [] }
        ensures gone { result.gone.items ≡ [] }
    {
        Turnover {
            put: Vec::new(alloc),
            gone: Vec::new(alloc),
        }
    }
}

/// One more, if there is one.
pub fn note(gone: &mut Vec<u64>, number: Option<u64>) -> Result<(), Memory>
    ensures { OnOk result (gone.new.items ≡ gone.old.items ++ from_option number) }
{
    if let Some(number) = number {
        gone.push(number)?;
    }
    Ok(())
}

// Takes a number out of rising ones, if it is there.
fn take_out(live: &mut Vec<u64>, number: u64)
    requires { IsStrictlyIncreasing live.old.items }
    ensures rising { IsStrictlyIncreasing live.new.items }
    ensures others { LosesOne number live.old.items live.new.items }
{
    if let Ok(i) = live.binary_search(&number) {
        live.remove(i);
    }
}

// Takes out each of some numbers.
fn take_out_each(live: &mut Vec<u64>, gone: &[u64])
    requires { IsStrictlyIncreasing live.old.items }
    ensures rising { IsStrictlyIncreasing live.new.items }
    ensures others { LosesEach gone.now live.old.items live.new.items }
{
    for number in gone {
        take_out(live, *number);
    }
}

// Whether a number is among sorted ones.
fn is_among(gone: &[u64], number: u64) -> bool
    requires { IsSorted nat_cmp gone.now }
    ensures { result ≡ list_any (nat_eq number) gone.now }
{
    gone.binary_search(&number).is_ok()
}

// Takes them all out, in one walk.
fn take_out_all(live: &mut Vec<u64>, mut gone: Vec<u64>)
    requires { IsStrictlyIncreasing live.old.items }
    ensures rising { IsStrictlyIncreasing live.new.items }
    ensures others { LosesEach gone.items live.old.items live.new.items }
{
    gone.sort_unstable();
    let gone = gone.as_slice();
    live.retain(|number| !is_among(gone, *number));
}

/// Puts the new numbers after the live ones, and takes out those that are gone: a few by a search and a move each, many
/// in one walk. If memory is refused, nothing has changed.
pub fn turn(live: &mut Vec<u64>, turnover: Turnover) -> Result<(), Memory>
    requires { IsStrictlyIncreasing (live.old.items ++ turnover.put.items) }
    ensures rising { OnOk result (IsStrictlyIncreasing live.new.items) }
    ensures each { OnOk result (TurnsOver turnover live.old.items live.new.items) }
    ensures same { OnErr result (live.new.items ≡ live.old.items) }
{
    live.extend_from_slice(&turnover.put)?;
    if turnover.gone.len() <= FEW {
        take_out_each(live, &turnover.gone);
    } else {
        take_out_all(live, turnover.gone);
    }
    Ok(())
}

/// The same of at most one number that is put and one that is gone. It takes no memory.
pub fn turn_one(live: &mut Vec<u64>, put: Option<u64>, gone: Option<u64>)
    requires rising { IsStrictlyIncreasing (live.old.items ++ from_option put) }
    requires room { vec_len live.old + 1 ≤ vec_capacity live.old }
    ensures rising { IsStrictlyIncreasing live.new.items }
    ensures each { AreTurned (from_option put) (from_option gone) live.old.items live.new.items }
{
    append(live, put);
    if let Some(number) = gone {
        take_out(live, number);
    }
}

// One more, if there is one.
fn append(live: &mut Vec<u64>, number: Option<u64>)
    requires { vec_len live.old + 1 ≤ vec_capacity live.old }
    ensures { live.new.items ≡ live.old.items ++ from_option number }
{
    if let Some(number) = number {
        if live.push(number).is_err() {
            unreachable!();
        }
    }
}
