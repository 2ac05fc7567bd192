ghost use Rattle.std.specs.Prelude.{◌≡◌, ◌+◌, ◌<◌, ◌≤◌, length, slice_index_or, IfOk, OnOk};
ghost use Rattle.cq_clones.specs.Groups.{file_at, IsPlace, AreGroups};
ghost use Rattle.cq_tokens.specs.Parts.{tokens_in};
ghost use Rattle.cq_scan.specs.Found.{AreAllPlaces, AreFound, IsMaximalWord};
ghost use Rattle.cq_scan.specs.Pairs.{AddsPair, AddsLater};

use crate::corpus::{are_same_before, match_len};
use crate::known::{add_once, is_known};
use crate::occurrences::{all_places, occurrences};
use cq_base::{Group, Memory, Place, Places, Steps};
use cq_order::{kept, order};
use cq_tokens::{FileList, Files};
use std::alloc::Global;

// What a listing goes over: all places of some files. The groups that are found are lent, and what a call adds is those
// whose words are maximal at the places that it compares.
#[derive(Drop)]
struct PairScan<'a, F: Files> {
    alloc: Global,
    files: &'a FileList<'a, F>,
    places: &'a [Place],
    min: u32,
}

impl<'a, F: Files> PairScan<'a, F> {
    // Adds the group of the word of `tokens` tokens that is maximal at the two places, if two places of it are kept.
    fn add_word(
        &self,
        p: Place,
        q: Place,
        tokens: u32,
        groups: &mut Vec<Group>,
        steps: &mut Steps<F::Reads>,
    ) -> Result<(), Memory>
        requires some { 1 ≤ self.now.min }
        requires places { AreAllPlaces (tokens_in self.now.files.now) self.now.places.now }
        requires p_in { IsPlace (tokens_in self.now.files.now) p }
        requires within { p.at + tokens ≤ length (file_at (tokens_in self.now.files.now) p.file) }
        requires long { self.now.min ≤ tokens }
        requires maximal { IsMaximalWord (tokens_in self.now.files.now) tokens p q }
        requires found { AreFound (tokens_in self.now.files.now) self.now.min groups.old.items }
        ensures { OnOk result (AddsPair self.now p q groups.old.items groups.new.items) }
    {
        if is_known(self.files, p, tokens, groups, steps) {
            return Ok(());
        }
        let all = occurrences(self.alloc, self.files, p, tokens, self.places, steps)?;
        let places = kept(self.alloc, tokens, &all)?;
        if places.len() < 2 {
            return Ok(());
        }
        let places = Places::from_vec(places);
        add_once(groups, Group { tokens, places })
    }

    // Adds the group whose word is maximal at the two places, if there is one.
    fn compare(
        &self,
        p: Place,
        q: Place,
        groups: &mut Vec<Group>,
        steps: &mut Steps<F::Reads>,
    ) -> Result<(), Memory>
        requires some { 1 ≤ self.now.min }
        requires places { AreAllPlaces (tokens_in self.now.files.now) self.now.places.now }
        requires p_in { IsPlace (tokens_in self.now.files.now) p }
        requires q_in { IsPlace (tokens_in self.now.files.now) q }
        requires found { AreFound (tokens_in self.now.files.now) self.now.min groups.old.items }
        ensures { OnOk result (AddsPair self.now p q groups.old.items groups.new.items) }
    {
        if p == q || are_same_before(self.files, p, q, steps) {
            return Ok(());
        }
        let tokens = match_len(self.files, p, q, steps);
        if tokens < self.min {
            return Ok(());
        }
        self.add_word(p, q, tokens, groups, steps)
    }

    // Compares the place at `i` with each later one.
    fn compare_later(
        &self,
        i: usize,
        p: Place,
        groups: &mut Vec<Group>,
        steps: &mut Steps<F::Reads>,
    ) -> Result<(), Memory>
        requires some { 1 ≤ self.now.min }
        requires places { AreAllPlaces (tokens_in self.now.files.now) self.now.places.now }
        requires within { i < length self.now.places.now }
        requires place { p ≡ slice_index_or self.now.places.now i p }
        requires found { AreFound (tokens_in self.now.files.now) self.now.min groups.old.items }
        ensures { OnOk result (AddsLater self.now p groups.old.items groups.new.items) }
    {
        for j in i + 1..self.places.len() {
            let q = self.places[j];
            self.compare(p, q, groups, steps)?;
        }
        Ok(())
    }

    // All groups, in order.
    fn groups(&self, steps: &mut Steps<F::Reads>) -> Result<Vec<Group>, Memory>
        requires some { 1 ≤ self.now.min }
        requires places { AreAllPlaces (tokens_in self.now.files.now) self.now.places.now }
        ensures { IfOk result
            (λ groups. AreGroups (tokens_in self.now.files.now) self.now.min groups.items) }
    {
        let mut groups = Vec::new(self.alloc);
        for i in 0..self.places.len() {
            let p = self.places[i];
            self.compare_later(i, p, &mut groups, steps)?;
        }
        order(groups)
    }
}

/// All groups of the files, in order: the repeated words of at least `min` tokens with their kept places. `Place::file`
/// is a position in `files`. Each read of a token is a step.
pub fn scan<F: Files>(
    alloc: Global,
    files: &F,
    min: u32,
    steps: &mut Steps<F::Reads>,
) -> Result<Vec<Group>, Memory>
    requires some { 1 ≤ min }
    ensures { IfOk result (λ groups. AreGroups (F.tokens files.now) min groups.items) }
{
    let list = FileList::new(files);
    let places = all_places(alloc, &list)?;
    let pairs = PairScan {
        alloc,
        files: &list,
        places: &places,
        min,
    };
    pairs.groups(steps)
}
