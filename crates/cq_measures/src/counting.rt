ghost use Rattle.std.specs.Prelude.{◌≡◌, ℕ, ◌≤◌, ◌*◌, ◌^◌, IfOk, IfSome, map, filter};
ghost use Rattle.cq_measures.specs.Extents as spec;
ghost use Rattle.cq_measures.specs.Sorted as sorted;

use crate::extent::Extent;
use cq_base::{Memory, Token};
use std::alloc::Global;

/// Puts the extents in order, by file and then lines, and keeps each once.
pub(crate) fn sort_once(extents: &mut Vec<Extent>)
    ensures { sorted.IsOneOfEach extents.old.items extents.new.items }
{
    extents.sort_unstable();
    extents.dedup();
}

fn greater(a: u64, b: u64) -> u64
    ensures { result ≡ sorted.greater a b }
{
    if a < b { b } else { a }
}

fn taken(file: u32, free: u64, extent: &Extent) -> u64
    ensures { result ≡ sorted.taken file free extent.now }
{
    if extent.file == file { free } else { 0 }
}

/// How many different lines extents in order cover. Of each extent only its first and its last line are looked at.
pub(crate) fn covered_lines(extents: &[Extent]) -> u64
    requires order { sorted.AreInOrder extents.now }
    requires few { sorted.AreBelow 262144 extents.now }
    ensures count { result ≡ spec.covered_lines extents.now }
    ensures within { (n : ℕ) → sorted.AreBelow n extents.now → result ≤ n * 2 ^ 32 }
    ensures alone { (file : ℕ) → sorted.AreIn file extents.now → result ≤ 2 ^ 32 }
{
    let mut lines = 0;
    let mut file = 0;
    let mut free = 0;
    for extent in extents {
        let taken = taken(file, free, extent);
        let behind = u64::from(extent.last) + 1;
        lines += behind.saturating_sub(greater(u64::from(extent.first), taken));
        free = greater(behind, taken);
        file = extent.file;
    }
    lines
}

/// In how many files extents in order are.
pub(crate) fn files_touched(extents: &[Extent]) -> u64
    requires { sorted.AreInOrder extents.now }
    ensures { result ≡ spec.files_touched extents.now }
{
    let mut files = 0;
    let mut next = 0;
    for extent in extents {
        let file = u64::from(extent.file);
        if next <= file {
            files += 1;
            next = file + 1;
        }
    }
    files
}

/// What some extents come to.
#[derive(Clone, Copy, Debug, PartialEq, Eq)]
pub(crate) struct Tally {
    /// Different lines that they cover.
    pub lines: u64,
    /// Different extents.
    pub extents: u64,
    /// Files that they are in.
    pub files: u64,
}

/// Counts lines, extents and files, each once. It sorts the extents.
pub(crate) fn count_up(extents: Vec<Extent>) -> Tally
    requires { sorted.AreBelow 262144 extents.items }
    ensures lines { result.lines ≡ spec.covered_lines extents.items }
    ensures extents { result.extents ≡ spec.different_extents extents.items }
    ensures files { result.files ≡ spec.files_touched extents.items }
    ensures within { (n : ℕ) → sorted.AreBelow n extents.items → result.lines ≤ n * 2 ^ 32 }
    ensures alone { (file : ℕ) → sorted.AreIn file extents.items → result.lines ≤ 2 ^ 32 }
{
    let mut extents = extents;
    sort_once(&mut extents);
    Tally {
        lines: covered_lines(&extents),
        extents: extents.len() as u64,
        files: files_touched(&extents),
    }
}

fn code_extents(alloc: Global, tokens: &[Token]) -> Result<Vec<Extent>, Memory>
    ensures { IfOk result
        (λ v. v.items ≡ map spec.extent_of_token (filter spec.has_bytes tokens.now)) }
{
    let mut extents = Vec::new(alloc);
    for token in tokens {
        if token.len > 0 {
            extents.push(Extent {
                file: 0,
                first: token.first_line,
                last: token.last_line,
            })?;
        }
    }
    Ok(extents)
}

// Lines of code, if no token that has bytes begins on a line before that of the one before it; else None.
fn lines_in_order(tokens: &[Token]) -> Option<u64>
    ensures count { IfSome result (λ n. n ≡ spec.code_lines tokens.now) }
    ensures within { IfSome result (λ n. n ≤ 2 ^ 32) }
{
    let mut lines = 0;
    let mut first = 0;
    let mut free = 0;
    for token in tokens {
        if token.len == 0 {
            continue;
        }
        if token.first_line < first {
            return None;
        }
        first = token.first_line;
        let behind = u64::from(token.last_line) + 1;
        lines += behind.saturating_sub(greater(u64::from(first), free));
        free = greater(behind, free);
    }
    Some(lines)
}

/// Lines of code: how many lines lie from the first to the last line of a token that has bytes. It is one walk without
/// memory if the tokens are in the order of the text; else their lines are sorted.
pub fn ncloc(alloc: Global, tokens: &[Token]) -> Result<u64, Memory>
    ensures count { IfOk result (λ n. n ≡ spec.code_lines tokens.now) }
    ensures within { IfOk result (λ n. n ≤ 2 ^ 32) }
{
    match lines_in_order(tokens) {
        Some(lines) => Ok(lines),
        None => Ok(count_up(code_extents(alloc, tokens)?).lines),
    }
}
