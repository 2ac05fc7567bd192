ghost use Rattle.std.specs.Prelude.{◌≡◌, ◌<◌, ◌&&◌, length, false, codes};
ghost use Rattle.std.specs.Str.{bytes_eq};
ghost use Rattle.cq_scope.specs.Fits as spec;
ghost use Rattle.cq_names.specs.Names.{parts};
ghost use Rattle.cq_scope.specs.Rows as rows;

use crate::part::part_fits;
use crate::row::{begin, spread};

fn part_count(path: &str) -> usize
    ensures { result ≡ length (parts path.now) }
{
    let mut count = 0;
    for _part in path.split('/') {
        count += 1;
    }
    count
}

// Whether a place is set and the part of the path after it fits, which is asked only then.
fn goes_on(is_set: bool, part: &str, name: &str, places: &mut [bool]) -> bool
    requires { length name.now < length places.old }
    ensures passed { result ≡ (is_set && spec.name_fits part.now name.now) }
    ensures same_room { length places.new ≡ length places.old }
{
    if !is_set {
        return false;
    }
    part_fits(part, name, places)
}

// Moves each place that is set on by one part of the path, if that fits the part of the pattern.
fn pass(row: &mut [bool], part: &str, path: &str, places: &mut [bool])
    requires room { length (parts path.now) < length row.old }
    requires places { length path.now < length places.old }
    ensures passed { row.new
        ≡ rows.passed (spec.name_fits part.now) false row.old (parts path.now) }
    ensures same_room { length places.new ≡ length places.old }
{
    let mut was_set = false;
    let mut at = 0;
    for name in path.split('/') {
        let is_set = goes_on(row[at], part, name, places);
        row[at] = was_set;
        was_set = is_set;
        at += 1;
    }
    row[at] = was_set;
}

fn advance(row: &mut [bool], part: &str, path: &str, places: &mut [bool])
    requires room { length (parts path.now) < length row.old }
    requires places { length path.now < length places.old }
    ensures advanced { row.new ≡ rows.advanced
        (bytes_eq part.now (codes "**")) (spec.name_fits part.now) row.old (parts path.now) }
    ensures same_room { length places.new ≡ length places.old }
{
    if part == "**" {
        spread(row);
    } else {
        pass(row, part, path, places);
    }
}

/// Whether a path fits a pattern. A place of the row stands for the parts of the path before it: it is set if these fit
/// what was read of the pattern. The other places are lent to each part.
pub(crate) fn parts_fit(pattern: &str, path: &str, row: &mut [bool], places: &mut [bool]) -> bool
    requires room { length (parts path.now) < length row.old }
    requires places { length path.now < length places.old }
    ensures { result ≡ spec.fits pattern.now path.now }
{
    let count = part_count(path);
    let row = &mut row[..count + 1];
    begin(row);
    for part in pattern.split('/') {
        advance(row, part, path, places);
    }
    row[count]
}
