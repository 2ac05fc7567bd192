ghost use Rattle.std.specs.Prelude.{◌≡◌, ◌+◌, ◌<◌, ◌≤◌, ◌++◌, [], length, take, map, filter, IfOk, OnOk, OnErr};
ghost use Rattle.std.specs.List.Sorted.{IsStrictlyIncreasing};
ghost use Rattle.cq_shard.specs.Blocks.{IsTable, IsTableOf, IsFirstAfter, Fills, GrowsBy, puts_in, with_puts, has_puts};
ghost use Rattle.cq_shard.specs.Stores.{those_of};
ghost use Rattle.cq_shard.specs.Tables.{IsUpTo, is_among, last_in, no_later, staying, AreAmong, AreAmongOrAbove};

use crate::puts::{Puts, up_to};
use cq_base::{Entry, Memory};
use std::alloc::Global;
use std::marker::Model;

// At most so many puts are in a block.
const MOST: usize = 1_024;

/// Some of the puts. None is before the start, and all puts of earlier blocks are.
#[derive(Drop)]
pub(crate) struct Block {
    pub start: u64,
    pub puts: Puts,
}

/// The puts that a shard knows, ascending, in blocks: what goes moves no more than the rest of its block.
#[derive(Drop)]
pub(crate) struct Table {
    blocks: Vec<Block>,
}

impl Model for Table {
    ghost use Rattle.std.specs.Prelude.{List, ℕ};
    ghost use Rattle.cq_shard.specs.Blocks.{IsTable, puts_in};

    ghost Value = { List ℕ };

    ghost view = { λ t. puts_in t.blocks.items };

    ghost invariant = { λ t. IsTable t.blocks.items };
}

impl Table {
    /// No puts. It takes no memory.
    pub fn new(alloc: Global) -> Table
        ensures { result ≡ [] }
    {
        Table {
            blocks: Vec::new(alloc),
        }
    }

    /// Whether the change is one of them. It is a binary search among the blocks, and one in a block.
    pub fn has(&self, change: u64) -> bool
        ensures { result ≡ is_among self.now change }
    {
        let place = first_after(&self.blocks, change);
        if place == 0 {
            return false;
        }
        self.blocks[place - 1].puts.has(change)
    }

    /// Leaves those entries that are of the puts. It takes no memory.
    pub fn keep(&self, entries: &mut Vec<Entry>)
        ensures { entries.new.items ≡ those_of self.now entries.old.items }
    {
        entries.retain(|entry| self.has(entry.change));
    }

    /// These puts more, which are later than all before. Of the entries, which come by change, it counts those of each. If
    /// memory is refused, some of the puts may be there.
    pub fn note(&mut self, alloc: Global, puts: &[u64], entries: &[Entry]) -> Result<(), Memory>
        requires { IsStrictlyIncreasing (self.old ++ puts.now) }
        ensures noted { OnOk result (self.new ≡ self.old ++ puts.now) }
        ensures grown { GrowsBy puts.now self.old self.new }
    {
        let sizes = counted(alloc, puts, entries)?;
        self.make_room(alloc, puts.len())?;
        append(alloc, &mut self.blocks, puts, &sizes)?;
        Ok(())
    }

    // The same puts. If so many more take a new block, and there are already more than twice as many blocks as the puts
    // need, it packs them.
    fn make_room(&mut self, alloc: Global, more: usize) -> Result<(), Memory>
        ensures { self.new ≡ self.old }
    {
        if more <= room_in(&self.blocks) || !is_sparse(&self.blocks) {
            return Ok(());
        }
        self.blocks = packed(alloc, &self.blocks)?;
        Ok(())
    }

    /// Only the puts up to this number. It looks at each block.
    pub fn cut(&mut self, last: u64)
        ensures { self.new ≡ no_later last self.old }
    {
        cut_each(&mut self.blocks, last);
        drop_empty(&mut self.blocks);
    }

    /// Takes the puts up to the floor out except for those to keep, and returns how many went, and how many entries they
    /// had. It compares the last put of each block. In a block in which some go, it is three searches, and one more for
    /// each that goes; what is between two that go, or after the last, moves up at once.
    pub fn take_out(&mut self, floor: u64, keep: &[u64]) -> (usize, u64)
        requires keep { IsStrictlyIncreasing keep.now }
        requires known { AreAmong keep.now self.old }
        ensures left { self.new ≡ staying floor keep.now self.old }
        ensures none { result.0 ≡ 0 → self.new ≡ self.old }
    {
        let out = take_out_each(&mut self.blocks, floor, keep);
        drop_empty(&mut self.blocks);
        out
    }
}

// How many blocks there are before the first that starts after the change. It is a binary search.
fn first_after(blocks: &[Block], change: u64) -> usize
    requires { IsTable blocks.now }
    ensures { IsFirstAfter blocks.now change result }
{
    blocks.partition_point(|block| block.start <= change)
}

// For each of the puts how many of the entries it has. The entries come by change.
fn counted(alloc: Global, puts: &[u64], entries: &[Entry]) -> Result<Vec<u64>, Memory>
    ensures { IfOk result (λ sizes. length sizes.items ≡ length puts.now) }
{
    let mut sizes = Vec::with_capacity(alloc, puts.len())?;
    let mut from = 0;
    for put in puts {
        let many = entries[from..].partition_point(|entry| entry.change <= *put);
        sizes.push(many as u64)?;
        from += many;
    }
    Ok(sizes)
}

// How many more puts the last block has room for.
fn room_in(blocks: &[Block]) -> usize
    ensures { 0 < result → 0 < length blocks.now }
{
    if blocks.is_empty() {
        return 0;
    }
    let last = &blocks[blocks.len() - 1];
    MOST.saturating_sub(last.puts.len())
}

// Whether there are more than twice as many blocks as the puts need.
fn is_sparse(blocks: &[Block]) -> bool {
    let mut puts = 0usize;
    for block in blocks {
        puts = puts.saturating_add(block.puts.len());
    }
    blocks.len() / 2 > puts / MOST + 4
}

// The same puts, in blocks that are full except for the last.
fn packed(alloc: Global, blocks: &[Block]) -> Result<Vec<Block>, Memory>
    requires { IsTable blocks.now }
    ensures { IfOk result (λ packed. IsTableOf (puts_in blocks.now) packed.items) }
{
    let mut packed = Vec::new(alloc);
    for block in blocks {
        append(alloc, &mut packed, block.puts.changes(), block.puts.sizes())?;
    }
    Ok(packed)
}

// These puts more, with how many entries each has. If memory is refused, some of the puts may be there.
fn append(
    alloc: Global,
    blocks: &mut Vec<Block>,
    changes: &[u64],
    sizes: &[u64],
) -> Result<(), Memory>
    requires table { IsTable blocks.old.items }
    requires rising { IsStrictlyIncreasing (puts_in blocks.old.items ++ changes.now) }
    requires sized { length changes.now ≤ length sizes.now }
    ensures appended { OnOk result
        (puts_in blocks.new.items ≡ puts_in blocks.old.items ++ changes.now) }
    ensures grown { GrowsBy changes.now (puts_in blocks.old.items) (puts_in blocks.new.items) }
    ensures table { IsTable blocks.new.items }
{
    let mut from = 0;
    'filling: while from < changes.len() {
        let many = fill(alloc, blocks, &changes[from..], &sizes[from..])?;
        from += many;
    }
    Ok(())
}

// As many of these puts more as the last block has room for, or as a new one has if that is full, and how many.
fn fill(
    alloc: Global,
    blocks: &mut Vec<Block>,
    changes: &[u64],
    sizes: &[u64],
) -> Result<usize, Memory>
    requires some { 0 < length changes.now }
    requires table { IsTable blocks.old.items }
    requires rising { IsStrictlyIncreasing (puts_in blocks.old.items ++ changes.now) }
    requires sized { length changes.now ≤ length sizes.now }
    ensures filled { IfOk result
        (λ many. Fills many changes.now blocks.old.items blocks.new.items) }
    ensures same { OnErr result (blocks.new.items ≡ blocks.old.items) }
{
    let room = room_in(blocks);
    if room == 0 {
        let few = at_most(changes.len(), MOST);
        push_block(alloc, blocks, &changes[..few], &sizes[..few])?;
        return Ok(few);
    }
    let many = at_most(changes.len(), room);
    append_last(blocks, &changes[..many], &sizes[..many])?;
    Ok(many)
}

// The number, or the most if it is greater.
fn at_most(number: usize, most: usize) -> usize
    requires some { 0 < number }
    requires room { 0 < most }
    ensures some { 0 < result }
    ensures within { result ≤ number }
{
    if number < most { number } else { most }
}

// One block more, of these puts.
fn push_block(
    alloc: Global,
    blocks: &mut Vec<Block>,
    changes: &[u64],
    sizes: &[u64],
) -> Result<(), Memory>
    requires some { 0 < length changes.now }
    requires table { IsTable blocks.old.items }
    requires rising { IsStrictlyIncreasing (puts_in blocks.old.items ++ changes.now) }
    requires sized { length changes.now ≤ length sizes.now }
    ensures pushed { OnOk result
        (IsTableOf (puts_in blocks.old.items ++ changes.now) blocks.new.items) }
    ensures same { OnErr result (blocks.new.items ≡ blocks.old.items) }
{
    let start = changes[0];
    let mut puts = Puts::new(alloc);
    puts.append(changes, sizes)?;
    blocks.push(Block { start, puts })?;
    Ok(())
}

// These puts more in the last block.
fn append_last(blocks: &mut Vec<Block>, changes: &[u64], sizes: &[u64]) -> Result<(), Memory>
    requires some { 0 < length blocks.old.items }
    requires table { IsTable blocks.old.items }
    requires rising { IsStrictlyIncreasing (puts_in blocks.old.items ++ changes.now) }
    requires sized { length changes.now ≤ length sizes.now }
    ensures appended { OnOk result
        (IsTableOf (puts_in blocks.old.items ++ changes.now) blocks.new.items) }
    ensures same { OnErr result (blocks.new.items ≡ blocks.old.items) }
{
    let last = blocks.len() - 1;
    append_to(&mut blocks[last], changes, sizes)?;
    Ok(())
}

// These puts more in the block.
fn append_to(block: &mut Block, changes: &[u64], sizes: &[u64]) -> Result<(), Memory>
    requires rising { IsStrictlyIncreasing (block.old.puts ++ changes.now) }
    requires sized { length changes.now ≤ length sizes.now }
    ensures appended { OnOk result (block.new ≡ with_puts (λ ns. ns ++ changes.now) block.old) }
    ensures same { OnErr result (block.new ≡ block.old) }
{
    block.puts.append(changes, sizes)?;
    Ok(())
}

// Only those blocks that have puts.
fn drop_empty(blocks: &mut Vec<Block>)
    ensures { blocks.new.items ≡ filter has_puts blocks.old.items }
{
    blocks.retain(|block| block.puts.len() > 0);
}

// Only the puts up to a number, in each block.
fn cut_each(blocks: &mut Vec<Block>, last: u64)
    ensures { blocks.new.items ≡ map (with_puts (no_later last)) blocks.old.items }
{
    for i in 0..blocks.len() {
        cut_block(&mut blocks[i], last);
    }
}

// Only the puts up to a number.
fn cut_block(block: &mut Block, last: u64)
    ensures { block.new ≡ with_puts (no_later last) block.old }
{
    block.puts.cut(last);
}

// In each block only the puts that are above the floor or to be kept, and how many went, and how many entries these had.
fn take_out_each(blocks: &mut Vec<Block>, floor: u64, keep: &[u64]) -> (usize, u64)
    requires table { IsTable blocks.old.items }
    requires keep { IsStrictlyIncreasing keep.now }
    requires known { AreAmong keep.now (puts_in blocks.old.items) }
    ensures left { blocks.new.items ≡ map (with_puts (staying floor keep.now)) blocks.old.items }
    ensures none { result.0 ≡ 0 → blocks.new.items ≡ blocks.old.items }
{
    let mut kept = 0;
    let mut went = 0usize;
    let mut taken = 0u64;
    'taking: for i in 0..blocks.len() {
        let out = take_out_of(&mut blocks[i], floor, &keep[kept..]);
        kept += out.kept;
        went = went.saturating_add(out.went);
        taken = taken.saturating_add(out.taken);
    }
    (went, taken)
}

// What a sweep took out of a block: how many of the puts to keep are the block's, how many puts went, and how many
// entries these had.
#[derive(Drop)]
struct TakenOut {
    kept: usize,
    went: usize,
    taken: u64,
}

// Only the puts of a block that are above the floor or to be kept. Those to keep come by number, and the first of them
// are the block's.
fn take_out_of(block: &mut Block, floor: u64, keep: &[u64]) -> TakenOut
    requires some { 0 < length block.old.puts }
    requires keep { IsStrictlyIncreasing keep.now }
    requires known { AreAmongOrAbove keep.now block.old.puts }
    ensures within { result.kept ≤ length keep.now }
    ensures kept { IsUpTo keep.now (last_in block.old.puts) result.kept }
    ensures left { block.new ≡ with_puts (staying floor (take result.kept keep.now)) block.old }
    ensures none { result.went ≡ 0 → block.new ≡ block.old }
{
    let kept = up_to_last(&block.puts, keep);
    let (went, taken) = block.puts.take_out(floor, &keep[..kept]);
    TakenOut { kept, went, taken }
}

// How many of these numbers are at most the last put. If that is as far among them as among the puts, it is found at
// once; otherwise it is a binary search.
fn up_to_last(puts: &Puts, numbers: &[u64]) -> usize
    requires some { 0 < length puts.now }
    requires rising { IsStrictlyIncreasing numbers.now }
    ensures within { result ≤ length numbers.now }
    ensures up_to { IsUpTo numbers.now (last_in puts.now) result }
{
    up_to_near(numbers, puts.len(), puts.last())
}

// How many of the numbers are at most this one, which is probably the one before a place.
fn up_to_near(numbers: &[u64], place: usize, last: u64) -> usize
    requires some { 0 < place }
    requires rising { IsStrictlyIncreasing numbers.now }
    ensures within { result ≤ length numbers.now }
    ensures up_to { IsUpTo numbers.now last result }
{
    if place <= numbers.len() && numbers[place - 1] == last {
        return place;
    }
    up_to(numbers, last)
}
