ghost use Rattle.cq_answer.specs.Bounds.{VersionsAreBounded, PathsAreNamed};

use std::sync::ledger::Ledger;

/// The files of a project at a version of sound changes are in the order of their paths, each was put by a change of its
/// own, and their works are within their bounds.
pub fn versions_are_bounded<L: Ledger>()
    ensures { VersionsAreBounded L }
{}

/// If each change is named as a request names it, each of these files has the path of a file.
pub fn paths_are_named<L: Ledger>()
    ensures { PathsAreNamed L }
{}
