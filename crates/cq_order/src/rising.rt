ghost use Rattle.std.specs.Prelude.{ℕ, ◌+◌, ◌-◌, ◌<◌, ◌≤◌};
ghost use Rattle.cq_order.specs.Reach.{CanStandAt};

/// The places, from one up to before another, that a number can have among this many whole numbers that rise strictly,
/// of which these are the first and the last. Such numbers differ by at least the number of places between them, so
/// the number is at most as far from either end as it differs from what is there. If the numbers have few gaps, that
/// leaves a place or two.
pub fn reach(first: u64, last: u64, len: usize, number: u64) -> (usize, usize)
    requires some { 0 < len }
    requires spread { first + (len - 1) ≤ last }
    ensures bound { (result.0 ≤ result.1) × (result.1 ≤ len) }
    ensures all { (k : ℕ) → CanStandAt first last len number k → (result.0 ≤ k) × (k < result.1) }
{
    if number < first || last < number {
        return (0, 0);
    }
    let low = (len - 1).saturating_sub((last - number) as usize);
    let high = (len - 1).min((number - first) as usize);
    (low, high + 1)
}
