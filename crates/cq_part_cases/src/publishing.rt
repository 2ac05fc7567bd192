ghost use Rattle.std.specs.Prelude.{ℕ, List, OnOk};
ghost use Rattle.std.specs.Arc.{arc_value};
ghost use Rattle.cq_base.specs.declared.lang.Lang.{Lang};
ghost use Rattle.cq_base.specs.declared.settings.Settings.{Settings};
ghost use Rattle.cq_hub.specs.Answers.{HasNoView};

use crate::made::{Counted, Made, Project, SETTINGS, accept, finish};
use cq_base::{Entry, Memory};
use cq_board::Refused;
use cq_hub::{Hub, Solo};
use cq_io::OpenGate;
use cq_shard::Indexed;
use std::alloc::Global;
use std::sync::Arc;

// All that is done is published, and a view is opened: its version, and what it has of a key.
fn read<W: Made, H: Hub<W>>(
    alloc: Global,
    hub: &H,
    key: u64,
    pass: &mut H::Pass,
) -> Result<(u64, Vec<Entry>), Memory>
    requires { HasNoView H.Stands H.settings H.callers hub.now pass.old }
    ensures { OnOk result (HasNoView H.Stands H.settings H.callers hub.now pass.new) }
{
    let asked = hub.ask(pass);
    hub.advance(alloc, asked.done, &OpenGate, pass)?;
    let view = hub.open_view(pass)?;
    let version = view.version;
    let entries = hub.read_bucket(alloc, &view, key, pass)?;
    hub.close_view(view, pass);
    Ok((version, entries))
}

// A put of a project is accepted, its work is finished and published, and both its keys are read.
fn publish_and_read<W: Made, H: Hub<W>>(
    alloc: Global,
    project: Project,
    work: Arc<W, Global>,
    hub: &H,
    pass: &mut H::Pass,
) -> Result<(), Refused>
    requires made { (settings : Settings) (lang : Lang) (text : List ℕ)
        → W.IsWorkOf settings lang text (arc_value work) }
    requires closed { HasNoView H.Stands H.settings H.callers hub.now pass.old }
    ensures { OnOk result (HasNoView H.Stands H.settings H.callers hub.now pass.new) }
{
    let number = accept(alloc, project, hub, pass)?;
    finish(hub, number, work, pass)?;
    read(alloc, hub, 3, pass)?;
    read(alloc, hub, 4, pass)?;
    Ok(())
}

// The floor after a sweep.
fn swept<W: Indexed, H: Hub<W>>(alloc: Global, hub: &H, pass: &mut H::Pass) -> Result<u64, Memory>
    requires { HasNoView H.Stands H.settings H.callers hub.now pass.old }
{
    hub.sweep(alloc, pass)
}

/// Two works are published, each by a commit of its own, in a project of its own, so that both stay; then another version of
/// the first file. After each commit both keys are read: how often the keys of the first and of the second work are looked at,
/// and the floor after a sweep.
pub fn publish_three<W: Made, H: Hub<W>>(
    alloc: Global,
    hub: &H,
    pass: &mut H::Pass,
) -> Result<(u64, u64, u64), Refused>
    requires { HasNoView H.Stands H.settings H.callers hub.now pass.old }
{
    let first = Arc::new(alloc, W::made())?;
    let second = Arc::new(alloc, W::made())?;
    let third = Arc::new(alloc, W::made())?;
    publish_and_read(alloc, Project::P, Arc::try_clone(&first)?, hub, pass)?;
    publish_and_read(alloc, Project::Q, Arc::try_clone(&second)?, hub, pass)?;
    publish_and_read(alloc, Project::P, third, hub, pass)?;
    let floor = swept(alloc, hub, pass)?;
    Ok((first.looks(), second.looks(), floor))
}

fn over_solo<W: Made>(alloc: Global) -> Result<(u64, u64, u64), Refused> {
    let (hub, mut pass) = Solo::<W>::new(alloc, &SETTINGS)?;
    publish_three(alloc, &hub, &mut pass)
}

#[test]
fn the_plain_hub_looks_at_keys_once_for_all_shards(rt: HostRuntime) -> Result<(), Refused> {
    assert_eq!(rt; over_solo::<Counted>(rt.alloc())?, (1, 1, 3));
    Ok(())
}
