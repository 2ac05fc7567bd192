ghost use Rattle.std.specs.Prelude.{◌≡◌, ◌+◌, ◌%◌, ◌^◌, ◌<◌, [], ◌∷◌, ◌++◌, length, Some};
ghost use Rattle.cq_cells.specs.Callers.{own};
ghost use Rattle.cq_cells.specs.Passes.{IsPassOf, IsFree, IsSameCaller, HasBoard, by_of};
ghost use Rattle.cq_part_cases.specs.declared.telling.Told.{Told as Event};

use cq_cells::{Cells, Law, Pass};
use std::sync::Wait;
use std::test::*;
use std::thread;
use std::thread::{Threads, join};
use std::time::{Clock, Duration};

// A caller tells something, once each shard has applied this many changes.
#[derive(Clone, Copy, Drop)]
struct Told {
    by: u32,
    after: u64,
}

// How often something was told.
#[derive(Drop)]
struct Tally {
    events: u64,
}

impl Tally {
    fn count(&mut self)
        ensures { self.new.events ≡ (self.old.events + 1) % 2 ^ 64 }
    {
        self.events = self.events.wrapping_add(1);
    }

    fn half(&self) -> u64
        ensures { result ≡ self.now.events % 2 ^ 63 }
    {
        self.events % (1 << 63)
    }
}

#[derive(Drop)]
struct Follower {
    applied: u64,
}

struct Counting;

impl Law<Tally, Follower, Told, u32> for Counting {
    ghost use Rattle.std.specs.Prelude.{◌≡◌, ◌%◌, ◌^◌, length, Some};

    ghost callers = { λ most. most };

    ghost lawful = { λ most log. Unit {0} };

    ghost board = { λ most log tally. tally.events ≡ length log % 2 ^ 64 };

    ghost shard = { λ most log s a follower. follower.applied ≡ a };

    ghost caller = { λ e. Some e.by };

    ghost asks = { λ e. e.after };

    ghost lasts = { λ most log e s a follower law ask is. is };
}

type Bench<R> = Cells<Tally, Follower, Told, u32, Counting, R>;

type Token = Pass<Tally, Follower, Told, u32>;

// The pass's caller tells something, with the board in hand.
fn add<R>(cells: &Bench<R>, mut tally: Tally, pass: &mut Token)
    requires of { IsPassOf cells.now pass.old }
    requires hand { HasBoard pass.old tally }
    requires board { tally.events ≡ length pass.old.seen % 2 ^ 64 }
    ensures of { IsPassOf cells.now pass.new × IsFree pass.new × IsSameCaller pass.old pass.new }
    ensures seen { pass.new.seen ≡ pass.old.seen ++ record { by = by_of pass.old; after = 0 } ∷ [] }
{
    tally.count();
    let events = tally.half();
    cells.leave_board(tally, events, pass);
}

// The pass's caller holds the board for so many milliseconds, and tells something.
fn tell<C: Clock, R: Wait>(clock: &C, cells: &Bench<R>, pass: &mut Token, rest: u64)
    requires of { IsPassOf cells.now pass.old × IsFree pass.old }
    ensures of { IsPassOf cells.now pass.new × IsFree pass.new × IsSameCaller pass.old pass.new }
    ensures told { own (λ (e : Event). Some e.by) (by_of pass.old) pass.new.seen
        ≡ own (λ (e : Event). Some e.by) (by_of pass.old) pass.old.seen ++ record { by = by_of pass.old; after = 0 } ∷ [] }
{
    let tally = cells.enter_board(pass);
    thread::sleep(clock, Duration::from_millis(rest));
    add(cells, tally, pass);
}

// How often something was told.
fn how_often<R: Wait>(cells: &Bench<R>, pass: &mut Token) -> u64
    requires of { IsPassOf cells.now pass.old × IsFree pass.old }
    ensures of { IsPassOf cells.now pass.new × IsFree pass.new × IsSameCaller pass.old pass.new }
{
    let tally = cells.enter_board(pass);
    let often = tally.events;
    let events = tally.half();
    cells.leave_board(tally, events, pass);
    often
}

// It tells it so many times, and holds the board for long at the first.
fn tell_often<C: Clock, R: Wait>(clock: &C, cells: &Bench<R>, mut pass: Token, times: u32) -> Token
    requires of { IsPassOf cells.now pass × IsFree pass }
    ensures of { IsPassOf cells.now result × IsFree result }
{
    for step in 0..times {
        let rest = if step == 0 { 50 } else { 0 };
        tell(clock, cells, &mut pass, rest);
    }
    pass
}

fn tell_by_two<Q: Threads + Clock + Sync, R: Wait + Sync>(
    rt: &Q,
    cells: &Bench<R>,
    one: Token,
    two: Token,
    times: u32,
) -> Token
    requires one { IsPassOf cells.now one × IsFree one }
    requires two { IsPassOf cells.now two × IsFree two }
    ensures of { IsPassOf cells.now result × IsFree result }
{
    let (mut one, two) = join(
        rt,
        move || -> Token
            requires { IsPassOf cells.now one × IsFree one }
            ensures { IsPassOf cells.entry.now result × IsFree result }
        { tell_often(rt, cells, one, times) },
        move || -> Token
            requires { IsPassOf cells.now two × IsFree two }
            ensures { IsPassOf cells.entry.now result × IsFree result }
        { tell_often(rt, cells, two, times) },
    );
    cells.join_pass(&mut one, two);
    one
}

fn tell_by_four<Q: Threads + Clock + Sync, R: Wait + Sync>(
    rt: &Q,
    cells: &Bench<R>,
    one: Token,
    two: Token,
    three: Token,
    four: Token,
    times: u32,
) -> Token
    requires first { IsPassOf cells.now one × IsFree one × IsPassOf cells.now two × IsFree two }
    requires second { IsPassOf cells.now three × IsFree three
        × IsPassOf cells.now four × IsFree four }
    ensures of { IsPassOf cells.now result × IsFree result }
{
    let (mut first, second) = join(
        rt,
        move || -> Token
            requires { IsPassOf cells.now one × IsFree one × IsPassOf cells.now two × IsFree two }
            ensures { IsPassOf cells.entry.now result × IsFree result }
        { tell_by_two(rt, cells, one, two, times) },
        move || -> Token
            requires { IsPassOf cells.now three × IsFree three
                × IsPassOf cells.now four × IsFree four }
            ensures { IsPassOf cells.entry.now result × IsFree result }
        { tell_by_two(rt, cells, three, four, times) },
    );
    cells.join_pass(&mut first, second);
    first
}

// How often something was told, if eight threads tell it this often each. While one of them holds the board, the others wait
// for it, and then go on.
fn told_by_eight<Q: Threads + Clock + Sync, R: Wait + Sync>(
    rt: &Q,
    cells: &Bench<R>,
    mut pass: Token,
    times: u32,
) -> u64
    requires of { IsPassOf cells.now pass × IsFree pass }
    requires room { 7 < pass.room }
{
    let a = cells.split_pass(&mut pass);
    let b = cells.split_pass(&mut pass);
    let c = cells.split_pass(&mut pass);
    let d = cells.split_pass(&mut pass);
    let e = cells.split_pass(&mut pass);
    let f = cells.split_pass(&mut pass);
    let g = cells.split_pass(&mut pass);
    let h = cells.split_pass(&mut pass);
    let (first, second) = join(
        rt,
        move || -> Token
            requires { IsPassOf cells.now a × IsFree a × IsPassOf cells.now b × IsFree b
                × IsPassOf cells.now c × IsFree c × IsPassOf cells.now d × IsFree d }
            ensures { IsPassOf cells.entry.now result × IsFree result }
        { tell_by_four(rt, cells, a, b, c, d, times) },
        move || -> Token
            requires { IsPassOf cells.now e × IsFree e × IsPassOf cells.now f × IsFree f
                × IsPassOf cells.now g × IsFree g × IsPassOf cells.now h × IsFree h }
            ensures { IsPassOf cells.entry.now result × IsFree result }
        { tell_by_four(rt, cells, e, f, g, h, times) },
    );
    cells.join_pass(&mut pass, first);
    cells.join_pass(&mut pass, second);
    how_often(cells, &mut pass)
}

#[test]
fn eight_threads_tell(rt: HostRuntime) -> Result<(), Fail> {
    let shards = Vec::new(rt.alloc());
    let (cells, pass): (Bench<_>, Token) = Cells::new(
        &rt,
        rt.alloc(),
        &9,
        Tally { events: 0 },
        shards,
    )?;
    assert_eq!(rt; told_by_eight(&rt, &cells, pass, 250), 2_000);
    Ok(())
}
