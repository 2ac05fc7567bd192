ghost use Rattle.std.specs.Prelude.{ℕ, List, [], ◌∷◌, ◌↔◌, IsTrue, IfSome, IfNone, map};
ghost use Rattle.cq_munch.specs.Longest.{LongestAt};
ghost use Rattle.cq_munch.specs.Scans.{Scanned};

use crate::unit::Unit;

/// A scanner of one set of spellings, which reads one character after the other.
pub trait Machine: Copy {
    /// The spellings that continue from this state.
    ghost rest: { Self → List ℕ → Type 0 };

    /// The state after a character, or None if no spelling continues with it.
    fn step(self, ch: char) -> Option<Self>
        ensures none { IfNone result ((s : List ℕ) → rest self (ch ∷ s) → ⊥) }
        ensures next { IfSome result (λ next. (s : List ℕ) → rest self (ch ∷ s) ↔ rest next s) };

    /// Whether a spelling ends here.
    fn accepts(self) -> bool
        ensures { IsTrue result ↔ rest self [] };
}

/// How many units the longest spelling at the front has; None exactly if there is none of at least one unit. It reads
/// up to the first unit with which no spelling continues, each once.
pub fn longest_spelling<M: Machine>(start: M, units: &[Unit]) -> Option<usize>
    ensures { LongestAt (M.rest start) (map (λ u. u.ch) units.now) result }
{
    longest_spelling_from(start, start, 0, None, units)
}

/// The same, if the first `at` units were read elsewhere: they lead from `start` to `state`, and `found` is the
/// longest spelling among them. They are not read again.
pub fn longest_spelling_from<M: Machine>(
    start: M,
    state: M,
    at: usize,
    found: Option<usize>,
    units: &[Unit],
) -> Option<usize>
    requires { Scanned (M.rest start) (M.rest state) (map (λ u. u.ch) units.now) at found }
    ensures { LongestAt (M.rest start) (map (λ u. u.ch) units.now) result }
{
    let mut state = state;
    let mut found = found;
    for i in at..units.len() {
        match state.step(units[i].ch) {
            None => return found,
            Some(next) => {
                state = next;
                if state.accepts() {
                    found = Some(i + 1);
                }
            }
        }
    }
    found
}
