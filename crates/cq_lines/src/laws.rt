ghost use Rattle.std.specs.Prelude.{◌≡◌, ◌++◌, ℕ, List, flat_map};
ghost use Rattle.cq_lines.specs.Pieces.{split, ended};
ghost use Rattle.cq_lines.specs.Runs.{RunsBegin, RunsGoOn, RunsEnd, RunsAgree, SpentComesAgain};

/// A run of the cutter, call by call: a fresh one has given nothing, a call that gives a line adds it, and the call
/// that gives none ends the run. At the end its lines are all lines of the bytes taken; if the limit or a fault of
/// the source ends it, they are those that a line feed closes.
pub fn runs_give_the_lines_of_the_bytes()
    ensures begin { RunsBegin }
    ensures go_on { RunsGoOn }
    ensures end { RunsEnd }
{}

/// Two runs to the end over the same bytes give the same lines, however their sources cut them.
pub fn runs_agree()
    ensures { RunsAgree }
{}

/// Once a call has found the limit on the bytes reached, each further call finds it again and takes none, until a
/// restart.
pub fn spent_comes_again()
    ensures { SpentComesAgain }
{}

/// The lines of some bytes, each with its line feed, and what follows the last of them, are the bytes.
pub fn lines_are_the_bytes()
    ensures { (bytes : List ℕ) → flat_map ended (split bytes).0 ++ (split bytes).1 ≡ bytes }
{}
