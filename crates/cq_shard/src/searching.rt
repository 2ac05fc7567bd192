ghost use Rattle.std.specs.Prelude.{◌<◌, ◌≤◌, length, take, drop, All};
ghost use Rattle.cq_shard.specs.Runs.{IsRun, IsNear};

use cq_base::Entry;

// How many entries are looked at, at most, before the rest is left to a binary search.
const STEPS: u32 = 8;

/// The number of entries before the first with this key or a greater one; all of them have lesser keys. If keys are spread
/// evenly it looks at a few adjacent entries, however many there are; otherwise it is a binary search at most, and a few
/// steps more.
pub(crate) fn first_at(rows: &[Entry], key: u64) -> usize
    requires { IsRun rows.now }
    ensures bound { result ≤ length rows.now }
    ensures lesser { All (λ e. e.key < key) (take result rows.now) }
    ensures others { All (λ e. key ≤ e.key) (drop result rows.now) }
{
    let (from, to) = near(rows, key);
    from + rows[from..to].partition_point(|row| row.key < key)
}

// The range in which the first entry with the key, or with a greater one, can be. The key gives a first guess, and the
// key found there says how far off it is; from then on steps double until one goes past. If keys are not spread evenly,
// the steps are useless and the search after them does everything.
fn near(rows: &[Entry], key: u64) -> (usize, usize)
    requires { IsRun rows.now }
    ensures { IsNear rows.now key result.0 result.1 }
{
    let mut from = 0;
    let mut to = rows.len();
    let mut guess = share(key, rows.len());
    'steps: for step in 0..STEPS {
        let doubled = 1usize << step;
        if to - from <= doubled {
            break;
        }
        let at = guess.max(from).min(to - 1);
        let found = rows[at].key;
        let far = if step == 0 {
            share(found.abs_diff(key), rows.len())
        } else {
            doubled
        };
        if found < key {
            from = at + 1;
            guess = at.saturating_add(far);
        } else {
            to = at;
            guess = at.saturating_sub(far);
        }
    }
    (from, to)
}

// About how many of this many entries have keys within a distance, if 2^64 keys are spread evenly among them.
fn share(distance: u64, entries: usize) -> usize {
    ((distance >> 32).saturating_mul(entries as u64) >> 32) as usize
}
