ghost use Rattle.std.specs.Prelude.{IfSome, IfNone};

use crate::connection::Connection;
use cq_io::{Doors, Failed};

/// Connections as they come. What was and what is between two of them stays known where a closure has it: a value of a type
/// parameter keeps that, and a `&mut` doesn't.
pub(crate) trait Arrivals<C> {
    // from one moment to another, after which there may be more
    ghost Since: { Self → Self → Type 0 };

    // from one moment to the end
    ghost Ended: { Self → Self → Type 0 };

    /// The next one; none if no more will come, and then it is not asked again.
    fn next(&mut self) -> Option<C>
        requires since { (first : Self) × Since first self.old }
        ensures more { (first : Self) → Since first self.old
            → IfSome result (λ _. Since first self.new) }
        ensures over { (first : Self) → Since first self.old
            → IfNone result (Ended first self.new) };
}

/// Connections that come by doors, until a call of the doors fails.
#[derive(Drop)]
pub(crate) struct Doorway<'a, D> {
    pub doors: &'a mut D,
    pub failed: bool,
}

impl<'a, D: Doors> Arrivals<Connection<D::In, D::Out>> for Doorway<'a, D> {
    ghost use Rattle.std.specs.Prelude.{◌≡◌, false, IsSome, is_some};
    ghost use Rattle.cq_listen.specs.Endings.{HasEnded};

    ghost Since = { λ a b.
        IsSome (D.bound a.doors.now) × (b.failed ≡ false)
        × (D.bound b.doors.now ≡ D.bound a.doors.now)
        × (D.faults b.doors.now ≡ D.faults a.doors.now)
        × (is_some (D.left b.doors.now) ≡ is_some (D.left a.doors.now))
        × (b.doors.ghost_name ≡ a.doors.ghost_name) };

    ghost Ended = { λ a b.
        HasEnded (D.faults a.doors.now) (D.faults b.doors.now)
        (D.left a.doors.now) (D.left b.doors.now) b.failed
        × (D.bound b.doors.now ≡ D.bound a.doors.now)
        × (b.doors.ghost_name ≡ a.doors.ghost_name) };

    fn next(&mut self) -> Option<Connection<D::In, D::Out>> {
        match self.doors.next_door() {
            Ok(Some((source, sink))) => Some(Connection { source, sink }),
            Ok(None) => None,
            Err(Failed) => {
                self.failed = true;
                None
            }
        }
    }
}
