ghost use Rattle.std.specs.Prelude.{◌≡◌, ◌<◌, ◌≤◌, length, IfOk, OnOk, IsTrue, ◌↔◌, AllPairs, Any, filter};
ghost use Rattle.cq_clones.specs.Groups.{AreGroups, AreGroupsIn};
ghost use Rattle.cq_tokens.specs.Parts.{tokens_in, changes_in, keys_in};
ghost use Rattle.cq_groups.specs.Listing.{AreGroupsOfKeys, AsksEachKey, AsksKeysAtMost, AsksEachKeyIn, AsksKeysAtMostIn, ReadsWindows, ReadsReached, ReadsWindowsOf, Rises, RisesAtMost, has_file};

use crate::buckets::Buckets;
use crate::keys::{file_keys, parted_keys};
use crate::{Index, refine};
use cq_base::{Group, Memory, Steps};
use cq_order::order;
use cq_tokens::Files;
use std::alloc::Global;

/// The groups of different keys, each once. It asks once for each key.
fn list_keys<B: Buckets, F: Files>(
    alloc: Global,
    index: &Index<'_, F>,
    keys: &[u64],
    min: u32,
    buckets: &mut B,
    steps: &mut Steps<F::Reads>,
) -> Result<Vec<Group>, Memory>
    requires long { index.now.corpus.chunk ≤ min }
    requires for_changes { B.file_changes buckets.old ≡ changes_in index.now.corpus }
    requires for_keys { B.file_keys buckets.old ≡ keys_in index.now.corpus }
    requires ready { B.ready buckets.old }
    requires rising { AllPairs (λ a b. a < b) keys.now }
    ensures groups { IfOk result
        (λ groups. AreGroupsOfKeys index.now.corpus min keys.now groups.items) }
    ensures asked { OnOk result
        (Rises (B.asked buckets.old) (B.asked buckets.new) (length keys.now)) }
    ensures asked_most { RisesAtMost (B.asked buckets.old) (B.asked buckets.new) (length keys.now) }
    ensures same_changes { B.file_changes buckets.new ≡ B.file_changes buckets.old }
    ensures same_keys { B.file_keys buckets.new ≡ B.file_keys buckets.old }
    ensures ready { B.ready buckets.new }
    ensures moved { B.moved buckets.old buckets.new }
    ensures bound { ReadsWindowsOf index.now.corpus keys.now steps.old steps.new }
{
    let mut groups = Vec::new(alloc);
    for key in keys {
        let bucket = buckets.bucket(alloc, *key)?;
        let mut found = refine(alloc, index, &bucket, min, steps)?;
        groups.append(&mut found)?;
    }
    Ok(groups)
}

/// All groups of the files, in order. It counts one question for each different key of a window. Keys that only one window
/// has give no group: they are counted without asking.
pub fn list_all<B: Buckets, F: Files>(
    alloc: Global,
    index: &Index<'_, F>,
    min: u32,
    buckets: &mut B,
    steps: &mut Steps<F::Reads>,
) -> Result<Vec<Group>, Memory>
    requires long { index.now.corpus.chunk ≤ min }
    requires for_changes { B.file_changes buckets.old ≡ changes_in index.now.corpus }
    requires for_keys { B.file_keys buckets.old ≡ keys_in index.now.corpus }
    requires ready { B.ready buckets.old }
    ensures groups { IfOk result
        (λ groups. AreGroups (tokens_in index.now.corpus.files) min groups.items) }
    ensures asked { OnOk result
        (AsksEachKey index.now.corpus (B.asked buckets.old) (B.asked buckets.new)) }
    ensures asked_most { AsksKeysAtMost index.now.corpus
        (B.asked buckets.old) (B.asked buckets.new) }
    ensures same_changes { B.file_changes buckets.new ≡ B.file_changes buckets.old }
    ensures same_keys { B.file_keys buckets.new ≡ B.file_keys buckets.old }
    ensures ready { B.ready buckets.new }
    ensures moved { B.moved buckets.old buckets.new }
    ensures bound { ReadsWindows index.now.corpus steps.old steps.new }
{
    let (repeated, lone) = parted_keys(alloc, &index.corpus)?;
    let groups = list_keys(alloc, index, &repeated, min, buckets, steps)?;
    buckets.pass_over(lone);
    order(groups)
}

/// Whether the group has a place in the file.
fn has_place_in(group: &Group, file: u32) -> bool
    ensures { IsTrue result ↔ Any (λ p. p.file ≡ file) group.now.places }
{
    group.places.as_slice().iter().any(|p| p.file == file)
}

/// Whether it has, as a test of the logic.
fn is_in_file(group: &Group, file: u32) -> bool
    ensures { result ≡ has_file file group.now.places }
{
    has_place_in(group, file)
}

/// The groups with a place in the file.
fn in_file(alloc: Global, groups: Vec<Group>, file: u32) -> Result<Vec<Group>, Memory>
    ensures { IfOk result (λ kept. kept.items ≡ filter (λ g. has_file file g.places) groups.items) }
{
    let kept = groups
        .into_iter()
        .filter(|g| is_in_file(g, file))
        .collect(alloc)?;
    Ok(kept)
}

/// The groups with a place in the file, in order. It asks once for each different key of the file's windows.
pub fn list_file<B: Buckets, F: Files>(
    alloc: Global,
    index: &Index<'_, F>,
    file: u32,
    min: u32,
    buckets: &mut B,
    steps: &mut Steps<F::Reads>,
) -> Result<Vec<Group>, Memory>
    requires within { file < length (tokens_in index.now.corpus.files) }
    requires long { index.now.corpus.chunk ≤ min }
    requires for_changes { B.file_changes buckets.old ≡ changes_in index.now.corpus }
    requires for_keys { B.file_keys buckets.old ≡ keys_in index.now.corpus }
    requires ready { B.ready buckets.old }
    ensures groups { IfOk result
        (λ groups. AreGroupsIn (tokens_in index.now.corpus.files) min file groups.items) }
    ensures asked { OnOk result
        (AsksEachKeyIn index.now.corpus file (B.asked buckets.old) (B.asked buckets.new)) }
    ensures asked_most { AsksKeysAtMostIn index.now.corpus file
        (B.asked buckets.old) (B.asked buckets.new) }
    ensures same_changes { B.file_changes buckets.new ≡ B.file_changes buckets.old }
    ensures same_keys { B.file_keys buckets.new ≡ B.file_keys buckets.old }
    ensures ready { B.ready buckets.new }
    ensures moved { B.moved buckets.old buckets.new }
    ensures bound { ReadsReached index.now.corpus file steps.old steps.new }
{
    let keys = file_keys(alloc, &index.corpus, file)?;
    let groups = list_keys(alloc, index, &keys, min, buckets, steps)?;
    let groups = in_file(alloc, groups, file)?;
    order(groups)
}
