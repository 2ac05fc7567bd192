//! The history of a server: what its events are and what they leave, which are lawful, the files and the conditions of
//! each version, what a shard holds of the changes, and when a whole core is sound. Definitions, and laws about them.
//! Nothing here runs.
#![tactic(auto)]

mod event;
mod laws;

pub use event::Event;
pub use laws::{
    accepted_changes_stay, all_above_are_kept, all_are_kept_at_first, beginnings_are_lawful,
    callers_are_there, changes_are_accepted, conditions_are_the_last_gates, cores_stay_sound,
    done_changes_stay, done_is_what_was_done, few_are_accepted, few_are_kept, files_are_few,
    files_are_kept, files_are_the_last_puts, gone_is_as_said, gone_stays_gone, holders_took_last,
    kept_falls_with_the_floor, kept_leave_the_conditions, kept_leave_the_files,
    kept_numbers_are_those, kept_puts_stay, nobody_has_what_is_over, nothing_falls,
    one_more_is_kept, open_versions_are_kept, open_versions_go_by_own_events,
    own_events_are_a_part, presence_goes_by_changes, ready_is_the_greatest, room_is_as_worked_out,
    shards_stay_reached, taken_goes_by_own_events, the_last_is_published,
    the_script_is_as_worked_out, they_are_kept_as_worked_out, they_stand_in_order, versions_stay,
};
