ghost use Rattle.std.specs.Prelude.{◌≡◌, IfOk, IsUtf8};
ghost use Rattle.cq_munch.specs.Lexed.{units_of};
ghost use Rattle.cq_lex_c.specs.Splices.{splice_len, spliced};
ghost use Rattle.cq_lex_c.specs.Staying.{OnlySplicesAreLeftOut};

use cq_base::{Memory, Text};
use cq_munch::{Unit, follows_backslash};
use std::alloc::Global;

// How many units of a splice are at the front.
fn splice_len(units: &[Unit]) -> usize
    ensures { result ≡ splice_len units.now }
{
    if units.len() < 2 || units[0].ch != '\\' {
        return 0;
    }
    if units[1].ch == '\n' {
        return 2;
    }
    if units[1].ch == '\r' && units.len() > 2 && units[2].ch == '\n' {
        return 3;
    }
    0
}

// The units without the splices. Each is looked at once, and once more after a backslash.
fn splice(alloc: Global, units: &[Unit]) -> Result<Vec<Unit>, Memory>
    ensures { IfOk result (λ v. v.items ≡ spliced 0 units.now) }
{
    let mut out = Vec::with_capacity(alloc, units.len())?;
    let mut skip = 0;
    for (i, unit) in units.iter().enumerate() {
        if skip > 0 {
            skip -= 1;
        } else {
            let len = splice_len(&units[i..]);
            if len == 0 {
                out.push_reserved(*unit);
            } else {
                skip = len - 1;
            }
        }
    }
    Ok(out)
}

/// The same of a text's own units. If no line ends directly after a backslash, they are taken as they are.
pub(crate) fn unspliced(alloc: Global, text: &Text, units: Vec<Unit>) -> Result<Vec<Unit>, Memory>
    requires utf8 { IsUtf8 text.now }
    requires own { units.items ≡ units_of text.now }
    ensures { IfOk result (λ v. v.items ≡ spliced 0 units.items) }
{
    let feeds = follows_backslash(text, b'\n');
    let returns = follows_backslash(text, b'\r');
    if feeds || returns {
        return splice(alloc, &units);
    }
    Ok(units)
}

/// Exactly the backslashes of a text with a line end directly after them, and these line ends, are removed.
pub fn only_splices_are_left_out()
    ensures { OnlySplicesAreLeftOut }
{}
