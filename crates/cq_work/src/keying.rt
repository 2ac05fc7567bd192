ghost use Rattle.cq_work.specs.Laws as law;

/// Files whose keys are those of their windows are keyed as the lists by an index want it: each window has a key, and
/// equal windows have equal ones.
pub fn files_are_keyed_by_their_windows()
    ensures { law.FilesAreKeyedByTheirWindows }
{}
