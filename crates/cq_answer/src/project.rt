use cq_base::{Condition, Settings};
use cq_projects::ProjectFiles;
use cq_work::Work;
use std::sync::ledger::Ledger;

/// What a query is answered on: the files of one project with their works, and its conditions, at a version. Windows are by
/// these settings.
#[derive(Drop)]
pub struct ProjectAt<'a, L: Ledger> {
    pub settings: &'a Settings,
    pub files: &'a ProjectFiles<Work<L>>,
    pub conditions: &'a [Condition],
    pub version: u64,
}
