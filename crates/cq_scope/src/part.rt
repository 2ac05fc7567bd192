ghost use Rattle.std.specs.Prelude.{◌≡◌, ◌<◌, ◌==◌, length, false};
ghost use Rattle.std.specs.Str.{chars};
ghost use Rattle.cq_scope.specs.Fits as spec;
ghost use Rattle.cq_scope.specs.Rows as rows;

use crate::row::{begin, spread};

fn char_count(name: &str) -> usize
    ensures { result ≡ length (chars name.now) }
{
    let mut count = 0;
    for _c in name.chars() {
        count += 1;
    }
    count
}

fn one_fits(symbol: char, c: char) -> bool
    ensures { result ≡ spec.one_fits symbol c }
{
    symbol == '?' || symbol == c
}

// Moves each place that is set on by one character, if that fits the symbol.
fn pass(row: &mut [bool], symbol: char, name: &str)
    requires { length (chars name.now) < length row.old }
    ensures { row.new ≡ rows.passed (spec.one_fits symbol) false row.old (chars name.now) }
{
    let mut was_set = false;
    let mut at = 0;
    for c in name.chars() {
        let is_set = row[at] & one_fits(symbol, c);
        row[at] = was_set;
        was_set = is_set;
        at += 1;
    }
    row[at] = was_set;
}

fn advance(row: &mut [bool], symbol: char, name: &str)
    requires { length (chars name.now) < length row.old }
    ensures { row.new
        ≡ rows.advanced (symbol == 42) (spec.one_fits symbol) row.old (chars name.now) }
{
    if symbol == '*' {
        spread(row);
    } else {
        pass(row, symbol, name);
    }
}

/// Whether a part of a path fits a part of a pattern. A place of the row stands for the characters of the name before it:
/// it is set if these fit what was read of the part.
pub(crate) fn part_fits(part: &str, name: &str, places: &mut [bool]) -> bool
    requires { length name.now < length places.old }
    ensures fits { result ≡ spec.part_fits (chars part.now) (chars name.now) }
    ensures same_room { length places.new ≡ length places.old }
{
    let count = char_count(name);
    let row = &mut places[..count + 1];
    begin(row);
    for symbol in part.chars() {
        advance(row, symbol, name);
    }
    row[count]
}
