ghost use Rattle.std.specs.Prelude.{◌≡◌, ◌≤◌, ◌+◌, ◌*◌, IfOk, []};
ghost use Rattle.cq_history.specs.State.{accepted};
ghost use Rattle.cq_talk.specs.Steps.{MayLead};
ghost use Rattle.cq_make.specs.Made.{HasPut};

use crate::generator::put_of;
use cq_base::Memory;
use cq_board::Refused;
use cq_hub::{Hub, Solo, SoloPass};
use cq_shard::Indexed;
use std::alloc::Global;

// Puts a file after those before it.
fn put_one<W: Indexed>(
    alloc: Global,
    hub: &Solo<W>,
    number: u64,
    file: u32,
    pass: &mut SoloPass<W>,
) -> Result<(), Memory>
    requires few { file + 1 ≤ (⟦<Solo<W> as Hub<W>>⟧.settings hub.now).change_limit }
    requires room { 280 * (file + 1) ≤ (⟦<Solo<W> as Hub<W>>⟧.settings hub.now).text_limit }
    requires put { HasPut ⟦<Solo<W> as Hub<W>>⟧.Stands hub.now pass.old number file }
    ensures put { IfOk result
        (λ _. HasPut ⟦<Solo<W> as Hub<W>>⟧.Stands hub.now pass.new number (file + 1)) }
{
    let change = put_of(alloc, number, file)?;
    match hub.accept(alloc, change, pass) {
        Ok(_number) => Ok(()),
        Err(Refused::Memory) => Err(Memory),
        Err(Refused::Absent) => unreachable!(),
        Err(Refused::FullChanges) => unreachable!(),
        Err(Refused::FullText) => unreachable!(),
    }
}

/// Puts the first files of the project into a hub in which nothing is accepted.
pub(crate) fn put_all<W: Indexed>(
    alloc: Global,
    hub: &Solo<W>,
    number: u64,
    files: u32,
    pass: &mut SoloPass<W>,
) -> Result<(), Memory>
    requires few { files ≤ (⟦<Solo<W> as Hub<W>>⟧.settings hub.now).change_limit }
    requires room { 280 * files ≤ (⟦<Solo<W> as Hub<W>>⟧.settings hub.now).text_limit }
    requires empty { MayLead ⟦<Solo<W> as Hub<W>>⟧.Stands 1 hub.now pass.old
        (λ h. accepted h ≡ []) }
    ensures put { IfOk result
        (λ _. HasPut ⟦<Solo<W> as Hub<W>>⟧.Stands hub.now pass.new number files) }
{
    for file in 0..files {
        put_one(alloc, hub, number, file, pass)?;
    }
    Ok(())
}
