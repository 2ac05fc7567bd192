use cq_base::{Condition, Text};
use cq_projects::ProjectFiles;
use cq_work::Work;
use std::sync::ledger::Ledger;

/// A version of a project: the conditions of its last gate, and its files with their works.
#[derive(Drop)]
pub struct Snapshot<L: Ledger> {
    pub version: u64,
    pub project: Text,
    pub conditions: Vec<Condition>,
    pub files: ProjectFiles<Work<L>>,
}
