ghost use Rattle.std.specs.Prelude.{◌≡◌, ◌≤◌, length, IfOk};
ghost use Rattle.cq_base.specs.Settings.{IsInRange};
ghost use Rattle.cq_base.specs.Changes.{IsSoundChange};
ghost use Rattle.cq_hub.specs.Hubs.{IsPassOf};

use cq_base::{Change, Lang, Memory, Settings, Text};
use cq_board::Refused;
use cq_hub::{Hub, Solo, SoloPass};
use cq_io::{Gate, OpenGate};
use cq_serve::{Turn, turn};
use cq_session::{NoLog, Server};
use cq_work::{Keyer, Work};
use std::alloc::Global;
use std::marker::Brand;
use std::sync::ledger::Ledger;

const SETTINGS: Settings = Settings {
    chunk: 2,
    shards: 2,
    key_bits: 64,
    ignore_ids: false,
    ignore_lits: false,
    change_limit: 262_144,
    text_limit: 33_554_432,
    byte_limit: 65_536,
};

// A put of the file `a` of the project `p`.
fn put(alloc: Global, text: &str) -> Result<Change, Memory>
    requires short { length text.now ≤ 1048576 }
    ensures sound { IfOk result IsSoundChange }
{
    Ok(Change::Put {
        project: Text::from_bytes(alloc, "p".as_bytes())?,
        path: Text::from_bytes(alloc, "a".as_bytes())?,
        lang: Lang::Any,
        text: Text::from_bytes(alloc, text.as_bytes())?,
    })
}

// What two turns come to after a change is accepted, and what is done and published then.
fn two_turns<R, L: Ledger, H: Hub<Work<L>>, G: Gate>(
    server: &Server<'_, R, H, NoLog, G>,
    change: Change,
    pass: &mut H::Pass,
) -> Result<(Turn, Turn, u64, u64), Refused>
    requires in_range { IsInRange server.now.keyer.now.settings }
    requires hub_settings { H.settings server.now.hub.now ≡ server.now.keyer.now.settings }
    requires sound { IsSoundChange change }
    requires stands { IsPassOf H.Stands server.now.hub.now pass.old }
{
    server.hub.accept(server.alloc, change, pass)?;
    let first = turn(server, pass);
    let second = turn(server, pass);
    let asked = server.hub.ask(pass);
    Ok((first, second, asked.done, asked.published))
}

// The same of a new hub, and of an upload of this text.
fn turns<R>(
    rt: &R,
    alloc: Global,
    settings: &Settings,
    text: &str,
) -> Result<(Turn, Turn, u64, u64), Refused>
    requires in_range { IsInRange settings.now }
    requires short { length text.now ≤ 1048576 }
{
    let keyer = Keyer::plain(settings);
    let made: (Solo<Work<Brand>>, SoloPass<Work<Brand>>) = Solo::new(alloc, settings)?;
    let (hub, mut pass) = made;
    let change = put(alloc, text)?;
    let server = Server {
        rt,
        alloc,
        keyer: &keyer,
        hub: &hub,
        keeper: &NoLog,
        gate: &OpenGate,
    };
    two_turns(&server, change, &mut pass)
}

fn turns_here<R>(
    rt: &R,
    alloc: Global,
    settings: &Settings,
    text: &str,
) -> Result<Option<(Turn, Turn, u64, u64)>, Refused> {
    if settings.check().is_some() {
        return Ok(None);
    }
    if text.len() > 1_048_576 {
        return Ok(None);
    }
    Ok(Some(turns(rt, alloc, settings, text)?))
}

// As many tokens as a file may have, whose work takes some 50 MB.
fn longest_text(alloc: Global) -> Result<String, Refused> {
    let mut text = String::new(alloc);
    for _token in 0..262_144 {
        text.push(';')?;
    }
    Ok(text)
}

// Whether 64 MiB more can be had.
fn has_memory(alloc: Global) -> bool {
    let room: Result<Vec<u8>, _> = Vec::with_capacity(alloc, 1 << 26);
    room.is_ok()
}

// If memory is refused for the work, the turn gives the change back, so that the next turn takes the same one. `.ci/run`
// runs this test with so little memory that this happens; otherwise the first turn makes the work.
#[test]
fn a_turn_gives_back_what_it_has_no_memory_for(rt: HostRuntime) -> Result<(), Refused> {
    let wanted = if has_memory(rt.alloc()) {
        (Turn::Worked(1), Turn::Idle, 1, 1)
    } else {
        (Turn::GaveBack(1), Turn::GaveBack(1), 0, 0)
    };
    let text = longest_text(rt.alloc())?;
    assert_eq!(rt;
        turns_here(&rt, rt.alloc(), &SETTINGS, &text)?,
        Some(wanted)
    );
    Ok(())
}
