use crate::work::Work;
use cq_shard::Indexed;
use std::sync::ledger::Ledger;

impl<L: Ledger> Indexed for Work<L> {
    ghost use Rattle.std.specs.Arc.{arc_value};
    ghost use Rattle.cq_work.specs.Work as spec;
    ghost use Rattle.cq_work.specs.Shown.{keys_determined, few_keys};

    ghost keys_in = { λ work. arc_value work.keys };

    ghost IsWorkOf = { λ settings lang text work. spec.IsWorkOf settings lang text work };

    fn keys(&self) -> &[u64] {
        self.keys.as_slice()
    }

    ghost determined = { keys_determined };

    ghost few = { few_keys };
}
