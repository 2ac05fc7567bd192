ghost use Rattle.std.specs.Prelude.{◌≡◌, true};
ghost use Rattle.cq_lines.specs.LineLogs.{log_at};
ghost use Rattle.cq_keeper.specs.Kept.{IsLogOf};

use cq_base::Change;
use cq_board::Asked;
use cq_chain::Pass;
use cq_io::Sink;
use cq_keeper::{Locked, LogOf};
use cq_lines::LineLog;
use cq_session::Keeper;
use cq_shard::Indexed;
use cq_shared::Shared;
use cq_talk::Unkept;
use std::alloc::Global;
use std::sync::{Mutex, Wait};

/// A log that the sessions of a server share.
#[derive(Drop)]
pub struct Log<'a, 's, Q, W: Indexed, K: Sink, N: LogOf> {
    rt: &'a Q,
    locked: Mutex<Locked<'s, W, K, N>>,
}

impl<'a, 's, Q: Wait, W: Indexed, K: Sink, N: LogOf> Log<'a, 's, Q, W, K, N> {
    /// This log, with the pass of the first caller.
    pub fn new(rt: &'a Q, log: LineLog<'s, K>, pass: Pass<W>) -> Self
        requires name { log.sink.ghost_name ≡ N.name }
        requires log { IsLogOf K.Sink N.LogOf (log_at log.sink.now log.whole) pass }
    {
        Log {
            rt,
            locked: Mutex::new(Locked::new(log, pass)),
        }
    }

    /// Whether each line was written whole so far.
    pub fn is_whole(&self) -> bool {
        self.locked.lock(self.rt).is_whole()
    }

    /// The log, once nobody uses it any more, with the pass by which its changes were accepted.
    pub fn into_log(self) -> (LineLog<'s, K>, Pass<W>)
        ensures name { result.0.sink.ghost_name ≡ N.name }
        ensures log { IsLogOf K.Sink N.LogOf (log_at result.0.sink.now result.0.whole) result.1 }
    {
        let Log { rt: _, locked } = self;
        locked.into_inner().into_log()
    }
}

impl<'a, 's, Q: Wait, W: Indexed, K: Sink, N: LogOf, R: Wait> Keeper<W, Shared<W, R>>
    for Log<'a, 's, Q, W, K, N> {
    ghost use Rattle.std.specs.Prelude.{◌≡◌, true};
    ghost use Rattle.cq_keeper.specs.Kept.{first_caller};
    ghost use Rattle.cq_shared.specs.SharedPasses.{cells_of};

    ghost acceptor = { λ keeper. first_caller };

    ghost Keeps = { λ keeper hub. cells_of hub ≡ N.cells };

    ghost Breaks = { λ keeper. Unit {0} };

    ghost strict = { λ keeper. true };

    fn is_strict(&self) -> bool {
        true
    }

    fn accept(
        &self,
        hub: &Shared<W, R>,
        alloc: Global,
        change: Change,
        line: &[u8],
        pass: &mut Pass<W>,
    ) -> Result<u64, Unkept> {
        self.locked
            .lock(self.rt)
            .accept(hub, alloc, change, line, pass)
    }

    fn ask(&self, hub: &Shared<W, R>, pass: &mut Pass<W>) -> Option<Asked> {
        self.locked.lock(self.rt).ask(hub, pass)
    }
}
