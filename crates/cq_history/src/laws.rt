//! What every lawful history keeps, for those who read the definitions.
ghost use Rattle.cq_history.specs.Laws as law;
ghost use Rattle.cq_history.specs.Script.{IsAsWorkedOut};
ghost use Rattle.cq_history.specs.Keeping.{IsKeptAsWorkedOut};
ghost use Rattle.cq_history.specs.KeptFiles.{KeptLeaveTheConditions, KeptLeaveTheFiles};
ghost use Rattle.cq_history.specs.KeptLaws as kept;
ghost use Rattle.cq_history.specs.Room.{IsRoomAsWorkedOut};

/// Any beginning of a lawful history is lawful.
pub fn beginnings_are_lawful()
    ensures { law.BeginningsAreLawful }
{}

/// No version that a caller has open is below the floor, or above the last one that was published.
pub fn open_versions_are_kept()
    ensures { law.OpenVersionsAreKept }
{}

/// The floor is at most the published version, and that at most what is ready.
pub fn they_stand_in_order()
    ensures { law.StandInOrder }
{}

/// Along a lawful history neither what is ready nor the published version nor the floor ever falls.
pub fn nothing_falls()
    ensures { law.NothingFalls }
{}

/// The changes that a state has are those of the acceptances, in order.
pub fn changes_are_accepted()
    ensures { law.ChangesAreAccepted }
{}

/// The files and the conditions of a version depend on no event after the acceptance of its last change.
pub fn versions_stay()
    ensures { law.VersionsStay }
{}

/// Every event but the publication of a version that a shard has not applied leaves it between what is published and
/// what is ready.
pub fn shards_stay_reached()
    ensures { law.ShardsStayReached }
{}

/// The events of one caller are a part of the history, in its order.
pub fn own_events_are_a_part()
    ensures { law.OwnEventsAreAPart }
{}

/// A core is sound at first, and each step that it may take keeps it so.
pub fn cores_stay_sound()
    ensures { law.CoresStaySound }
{}

/// Who has a change is who took it last, unless it was given back since.
pub fn holders_took_last()
    ensures { law.HoldersTookLast }
{}

/// The files of a project are exactly those of the last put at each path, unless a later change drops it, in path order.
pub fn files_are_the_last_puts()
    ensures { law.FilesAreTheLastPuts }
{}

/// Whether a file exists after a change depends on the change, and on whether it existed before.
pub fn presence_goes_by_changes()
    ensures { law.PresenceGoesByChanges }
{}

/// An event of a lawful history is nobody's, or that of one of its callers.
pub fn callers_are_there()
    ensures { law.CallersAreThere }
{}

/// The version that a caller has open is that of its last opening, unless it shut its view since. Only the caller's own
/// events matter.
pub fn open_versions_go_by_own_events()
    ensures { law.OpenVersionsGoByOwnEvents }
{}

/// An accepted change is done if it is not a put, or if some event did it.
pub fn done_is_what_was_done()
    ensures { law.DoneIsWhatWasDone }
{}

/// The published version and the floor are those of the last such event, or 0.
pub fn the_last_is_published()
    ensures { law.TheLastIsPublished }
{}

/// What is ready is the greatest number up to which all changes are done.
pub fn ready_is_the_greatest()
    ensures { law.ReadyIsTheGreatest }
{}

/// The conditions of a project are those of its last gate, or none.
pub fn conditions_are_the_last_gates()
    ensures { law.ConditionsAreTheLastGates }
{}

/// A state has the accepted changes, and no more than the limit allows.
pub fn few_are_accepted()
    ensures { law.FewAreAccepted }
{}

/// The floor keeps no more changes, and no more bytes of their texts, than the limits allow.
pub fn few_are_kept()
    ensures { law.FewAreKept }
{}

/// An accepted change stays so, and stays what it is.
pub fn accepted_changes_stay()
    ensures { law.AcceptedChangesStay }
{}

/// A change that is done stays done.
pub fn done_changes_stay()
    ensures { law.DoneChangesStay }
{}

/// What a caller has taken goes by its own events: it had it before, or took it since.
pub fn taken_goes_by_own_events()
    ensures { law.TakenGoesByOwnEvents }
{}

/// Nobody has a change that was just given back, or is done.
pub fn nobody_has_what_is_over()
    ensures { law.NobodyHasWhatIsOver }
{}

/// A history that was worked out by hand is lawful and leaves what it should.
pub fn the_script_is_as_worked_out()
    ensures { IsAsWorkedOut }
{}

/// Whether a change is gone at a floor is computed as it is said.
pub fn gone_is_as_said()
    ensures { kept.GoneIsAsSaid }
{}

/// The kept numbers are exactly those of the changes that are kept, ascending.
pub fn kept_numbers_are_those()
    ensures { kept.KeptNumbersAreThose }
{}

/// A higher floor keeps no more changes, and no more bytes of their texts.
pub fn kept_falls_with_the_floor()
    ensures { kept.KeptFallsWithTheFloor }
{}

/// One change more is kept, beside those that were.
pub fn one_more_is_kept()
    ensures { kept.OneMoreIsKept }
{}

/// All changes above the floor are kept.
pub fn all_above_are_kept()
    ensures { kept.AllAboveAreKept }
{}

/// A change that is gone stays so, whatever is accepted later and however the floor rises.
pub fn gone_stays_gone()
    ensures { kept.GoneStaysGone }
{}

/// The files of each version from the floor on were put by changes that are kept.
pub fn files_are_kept()
    ensures { kept.FilesAreKept }
{}

/// A version from the floor on has no more files of a project than changes are kept.
pub fn files_are_few()
    ensures { kept.FilesAreFew }
{}

/// The kept changes are enough for the files of each version from the floor on.
pub fn kept_leave_the_files()
    ensures { KeptLeaveTheFiles }
{}

/// And the conditions of each.
pub fn kept_leave_the_conditions()
    ensures { KeptLeaveTheConditions }
{}

/// The puts that a floor keeps stay those when more is accepted.
pub fn kept_puts_stay()
    ensures { kept.KeptPutsStay }
{}

/// At the lowest floor all changes are kept.
pub fn all_are_kept_at_first()
    ensures { kept.AllAreKeptAtFirst }
{}

/// What is kept of changes that were worked out by hand is what it should be.
pub fn they_are_kept_as_worked_out()
    ensures { IsKeptAsWorkedOut }
{}

/// The room that a floor makes in histories that were worked out by hand is what it should be.
pub fn room_is_as_worked_out()
    ensures { IsRoomAsWorkedOut }
{}
