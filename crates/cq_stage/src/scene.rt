use crate::stage::{Stage, Until, Who};
use cq_io::Gate;
use std::sync::Wait;
use std::time::Clock;

/// What a gate does.
#[derive(Clone, Copy, Debug, PartialEq, Eq)]
pub enum Hold {
    /// It holds nobody.
    Nobody,
    /// It holds nobody, and writes each call into the log of the first client.
    Shown,
    /// It holds whoever is about to make the work of one of the first changes, so many.
    Works(u64, Until),
    /// It holds whoever is the first to be about to make the work of a change.
    First(Until),
    /// It holds whoever is about to make the work of a change, until another one is about to make the same.
    Pairs,
    /// It holds a commit, after its first shard: the first one that comes there when so many views were opened. Whoever opens
    /// the last of these views is held until the commit is there.
    Commit(u64, Until),
}

/// A gate that holds those until then.
#[derive(Drop)]
pub struct Scene<'a, R> {
    pub stage: &'a Stage<'a, R>,
    pub hold: Hold,
}

impl<'a, R: Wait + Clock> Scene<'a, R> {
    fn show(&self, call: &str, number: u64) {
        if let Hold::Shown = self.hold {
            self.stage.show(call, number);
        }
    }
}

impl<'a, R: Wait + Clock> Gate for Scene<'a, R> {
    fn after_accept(&self, change: u64) {
        self.show("accept", change);
    }

    fn before_work(&self, change: u64) {
        self.show("work", change);
        let begun = self.stage.begin(change);
        let who = Who::Worker(change);
        match self.hold {
            Hold::Works(changes, until) if change <= changes => self.stage.wait(who, until),
            Hold::First(until) if begun == 1 => self.stage.wait(who, until),
            Hold::Pairs => self.stage.wait(who, Until::Twice(change)),
            _ => {}
        }
    }

    fn after_shard(&self, shard: u32) {
        self.show("shard", u64::from(shard));
        if let Hold::Commit(views, until) = self.hold {
            if shard == 0 && self.stage.opened() >= views && self.stage.commit() {
                self.stage.wait(Who::Committer, until);
            }
        }
    }

    fn after_open(&self, version: u64) {
        self.show("open", version);
        if let Hold::Commit(views, _until) = self.hold {
            if self.stage.open() == views {
                self.stage.wait(Who::Viewer, Until::Committing);
            }
        }
    }
}
