ghost use Rattle.std.specs.Prelude.{◌≡◌};
ghost use Rattle.cq_session.specs.Clients.{is_nobody, met_at_line, stop_after};

use crate::{Keeper, Stop};
use cq_hub::Hub;
use cq_shard::Indexed;

/// Whom a session has met, by its first line.
#[derive(Clone, Copy, Debug, PartialEq, Eq)]
pub enum Met {
    /// Nobody: no line was answered yet.
    Nobody,
    /// Somebody whose first line is not known to be a JSON object.
    Stranger,
    /// A client: its first line is a JSON object, or no line has to be one.
    Client,
}

/// A line is to be answered: whether it is the first one. Until more is known, it is a stranger's.
pub(crate) fn meet(met: &mut Met) -> bool
    ensures first { result ≡ is_nobody met.old }
    ensures now { met.new ≡ met_at_line met.old }
{
    match *met {
        Met::Nobody => {
            *met = Met::Stranger;
            true
        }
        Met::Stranger => false,
        Met::Client => false,
    }
}

/// Whether a session stops after a line.
pub(crate) fn stop_of<W: Indexed, H: Hub<W>, P: Keeper<W, H>>(
    keeper: &P,
    first: bool,
    known: bool,
) -> Option<Stop>
    ensures { result ≡ stop_after (P.strict keeper.now) first known }
{
    if keeper.is_strict() && first && !known {
        return Some(Stop::Stranger);
    }
    None
}
