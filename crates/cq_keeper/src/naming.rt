ghost use Rattle.std.specs.Prelude.{ℕ, List, [], Option, None};
ghost use Rattle.cq_base.specs.declared.change.Change.{Change as Accepted};
ghost use Rattle.cq_chain.specs.Passes.{BoardCells};
ghost use Rattle.cq_keeper.specs.Unpicked.{no_cells};

use std::marker::Brand;

/// What a log is of. Whoever makes a log picks it once.
pub trait LogOf {
    // the cells of the hub whose changes it keeps
    ghost cells: { BoardCells };

    // which sink was lent to it
    ghost name: { ℕ };

    // what its sink had written when it began, if the sink reports that
    ghost begun: { Option (List ℕ) };

    // the changes that the hub had accepted by then
    ghost before: { List Accepted };

    // the sink's count of faults by then
    ghost faults: { ℕ };
}

impl LogOf for Brand {
    ghost cells = { no_cells };

    ghost name = { 0 };

    ghost begun = { None };

    ghost before = { [] };

    ghost faults = { 0 };
}
