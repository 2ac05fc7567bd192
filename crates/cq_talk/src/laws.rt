ghost use Rattle.cq_talk.specs.Gathered as gathered;
ghost use Rattle.cq_talk.specs.Laws as law;

/// A talk with a hub that nobody else calls, from the empty history on, is that of a server without workers, up to the first
/// reply that reports out of memory.
pub fn talks_alone()
    ensures { law.TalksAlone }
{}

/// A talk with a hub whose other callers accept no changes and open no views, from the empty history on, is that of a
/// server with workers beside it, throughout; so is one with a hub that nobody else calls.
pub fn talks_beside()
    ensures beside { law.TalksBeside }
    ensures alone { law.TalksAloneBeside }
{}

/// The replies of a server without workers are among those of one with workers beside it.
pub fn alone_is_beside()
    ensures { law.AloneIsBeside }
{}

/// What a user of a server with workers beside it may conclude from its replies.
pub fn beside_gives()
    ensures { law.AllGivenBeside }
{}

/// What the only user of a server without workers may conclude from its replies.
pub fn alone_gives()
    ensures { law.AllGivenAlone }
{}

/// A talk is one with workers beside it if all passes are joined at the end, and those of the others accepted no change and
/// opened no view.
pub fn talks_beside_workers()
    ensures first { gathered.GatheredAlone }
    ensures more { gathered.GatheredMore }
    ensures all { gathered.TalksBesideWorkers }
{}
