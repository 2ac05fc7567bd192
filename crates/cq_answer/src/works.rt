ghost use Rattle.cq_answer.specs.Works.{norms_in, keys_in, numbers_in};
ghost use Rattle.cq_answer.specs.Lent.{as_many};

use cq_projects::ProjectFiles;
use cq_tokens::{Files, Tokens};
use cq_work::Work;
use std::sync::ledger::Ledger;

/// The files of a project, lent to a listing where they are.
#[derive(Drop)]
pub(crate) struct WorkFiles<'a, L: Ledger> {
    pub files: &'a ProjectFiles<Work<L>>,
}

impl<'a, L: Ledger> Files for WorkFiles<'a, L> {
    type Reads = L;

    ghost tokens = { λ works. norms_in works.files.now };

    ghost keys = { λ works. keys_in works.files.now };

    ghost changes = { λ works. numbers_in works.files.now };

    fn len(&self) -> u32 {
        self.files.len()
    }

    fn tokens(&self, file: u32) -> &Tokens<L> {
        &self.files.at(file).work.tokens
    }

    fn keys(&self, file: u32) -> &[u64] {
        self.files.at(file).work.keys.as_slice()
    }

    fn change(&self, file: u32) -> u64 {
        self.files.at(file).change
    }

    ghost sizes = { λ works. as_many works.files.now };
}
