ghost use Rattle.std.specs.Prelude.{ℕ, ◌≤◌, length, IfOk};
ghost use Rattle.cq_clones.specs.Groups.{IsBefore};
ghost use Rattle.cq_order.specs.Order.{IsOrderOf};
ghost use Rattle.cq_tokens.specs.Parts.{tokens_in};
ghost use Rattle.cq_groups.specs.Sets.{ReadsAtMost};
ghost use Rattle.cq_groups.specs.Places.{IsBucketIn, ArePlacesOfBucket, AreGroupsOfBucket, ReadsAtMostOfBucket};

use crate::index::Index;
use crate::refining::refine_places;
use cq_base::{Entry, Group, Memory, Place, Steps};
use cq_order::{sort_places, spot_of};
use cq_tokens::Files;
use std::alloc::Global;

/// The places in order.
fn in_order(places: Vec<Place>) -> Vec<Place>
    ensures { IsOrderOf IsBefore places.items result.items }
{
    let mut places = places;
    sort_places(&mut places);
    places
}

/// The places of a bucket's entries, in order.
fn places_of_bucket<F: Files>(
    alloc: Global,
    index: &Index<'_, F>,
    bucket: &[Entry],
) -> Result<Vec<Place>, Memory>
    requires { (key : ℕ) × IsBucketIn index.now.corpus key bucket.now }
    ensures places { IfOk result (λ places. ArePlacesOfBucket index.now.corpus bucket.now places.items) }
    ensures size { IfOk result (λ places. length places.items ≤ length bucket.now) }
{
    let mut places = Vec::with_capacity(alloc, bucket.len())?;
    for entry in bucket {
        if let Some(file) = spot_of(index.spots, entry.change) {
            places.push(Place { file, at: entry.at })?;
        }
    }
    Ok(in_order(places))
}

/// The groups whose word begins with a window of the bucket's key, each once. A bucket of one entry costs nothing.
pub fn refine<F: Files>(
    alloc: Global,
    index: &Index<'_, F>,
    bucket: &[Entry],
    min: u32,
    steps: &mut Steps<F::Reads>,
) -> Result<Vec<Group>, Memory>
    requires bucket { (key : ℕ) × IsBucketIn index.now.corpus key bucket.now }
    requires long { index.now.corpus.chunk ≤ min }
    ensures groups { IfOk result (λ groups. AreGroupsOfBucket index.now.corpus min bucket.now groups.items) }
    ensures bound { ReadsAtMost (tokens_in index.now.corpus.files) (length bucket.now) steps.old steps.new }
    ensures places_bound { ReadsAtMostOfBucket index.now.corpus bucket.now steps.old steps.new }
{
    if bucket.len() < 2 {
        return Ok(Vec::new(alloc));
    }
    let places = places_of_bucket(alloc, index, bucket)?;
    refine_places(alloc, &index.corpus.files, &places, min, steps)
}
