ghost use Rattle.std.specs.Prelude.{◌≡◌, ℕ, List, IfOk, OnOk, Ok};
ghost use Rattle.cq_base.specs.Changes.{IsSoundChange};
ghost use Rattle.cq_base.specs.declared.change.Change.{Change as Said};
ghost use Rattle.cq_base.specs.declared.settings.Settings.{Settings};
ghost use Rattle.cq_log.specs.Takers.{TakesOne};
ghost use Rattle.cq_request.specs.Reading.{line_says};
ghost use Rattle.cq_request.specs.declared.request.Request.TheVariants as request;

use cq_base::{Change, Memory, Settings};
use std::alloc::Global;

/// Who takes the changes of a log, one after the other.
pub trait Taker {
    /// Under these settings it has taken just these changes, each by the line beside it.
    ghost Has: { Self → Settings → List (List ℕ) → List Said → Type 0 };

    // it may be asked
    ghost ready: { Self → Type 0 };

    // what the changes go into
    ghost Target: { Type 0 };

    // this is what they go into: the same one at each call
    ghost target_of: { Self → Target };

    /// Takes one change more, which a line says, and answers true; or answers that the change is not accepted. After
    /// `Memory` nothing is known of it.
    fn take(
        &mut self,
        alloc: Global,
        settings: &Settings,
        change: Change,
        line: &[u8],
    ) -> Result<bool, Memory>
        requires ready { ready self.old }
        requires sound { IsSoundChange change }
        requires says { line_says settings.now.chunk line.now ≡ Ok (request.Change change) }
        ensures takes { IfOk result (TakesOne Has settings.now self.old self.new line.now change) }
        ensures ready { OnOk result (ready self.new) }
        ensures target { OnOk result (target_of self.new ≡ target_of self.old) };
}
