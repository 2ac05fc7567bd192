ghost use Rattle.std.specs.Prelude.{◌≡◌, ◌<◌, ◌≤◌, ℕ, List, length, IfOk, OnOk, true};
ghost use Rattle.std.specs.Arc.{arc_value};
ghost use Rattle.std.specs.Str.{IsUtf8};
ghost use Rattle.cq_base.specs.declared.lang.Lang.{Lang};
ghost use Rattle.cq_base.specs.declared.settings.Settings.{Settings};
ghost use Rattle.cq_base.specs.Changes.{IsSoundChange};
ghost use Rattle.cq_history.specs.Changes.{is_put};
ghost use Rattle.cq_hub.specs.Answers.{HasNoView};
ghost use Rattle.cq_part_cases.specs.Puts.{HasSeenPut};

use cq_base::{Change, Lang, Memory, Settings, Text};
use cq_board::{Finished, Refused};
use cq_hub::Hub;
use cq_shard::Indexed;
use std::alloc::Global;
use std::cell::Cell;
use std::sync::Arc;

/// A work that is that of every text.
pub trait Made: Indexed {
    fn made() -> Self
        ensures { (settings : Settings) (lang : Lang) (text : List ℕ)
            → Self.IsWorkOf settings lang text result };

    /// How often its keys were looked at.
    fn looks(&self) -> u64;
}

/// Its two windows have different keys, and it counts how often they are looked at.
#[derive(Drop)]
pub struct Counted {
    looks: Cell<u64>,
}

impl Indexed for Counted {
    ghost use Rattle.std.specs.Prelude.{◌∷◌, [], refl};
    ghost use Rattle.std.proofs.Common.{rules};

    ghost keys_in = { λ work. 3 ∷ 4 ∷ [] };

    ghost IsWorkOf = { λ settings lang text work. Unit {0} };

    fn keys(&self) -> &[u64] {
        self.looks.set(self.looks.get().wrapping_add(1));
        &[3, 4]
    }

    ghost determined = { λ settings lang text work other is also. refl };

    ghost few = { Prim.search rules };
}

impl Made for Counted {
    fn made() -> Counted {
        Counted {
            looks: Cell::new(0),
        }
    }

    fn looks(&self) -> u64 {
        self.looks.get()
    }
}

/// Two shards.
pub const SETTINGS: Settings = Settings {
    chunk: 2,
    shards: 2,
    key_bits: 0,
    ignore_ids: false,
    ignore_lits: false,
    change_limit: 262_144,
    text_limit: 33_554_432,
    byte_limit: 1_152_921_504_606_846_976,
};

/// One of two projects.
#[derive(Clone, Copy)]
pub enum Project {
    P,
    Q,
}

impl Project {
    fn byte(self) -> u8
        ensures { result < 128 }
    {
        match self {
            Project::P => b'p',
            Project::Q => b'q',
        }
    }
}

// A text of one letter.
fn letter(alloc: Global, byte: u8) -> Result<Text, Memory>
    requires { byte < 128 }
    ensures utf8 { IfOk result IsUtf8 }
    ensures len { IfOk result (λ text. length text ≤ 1) }
{
    let mut bytes = Vec::new(alloc);
    bytes.push(byte)?;
    Ok(Text::from_vec(bytes))
}

// A put of the file `a` of a project.
fn put(alloc: Global, project: Project) -> Result<Change, Memory>
    ensures sound { IfOk result IsSoundChange }
    ensures put { IfOk result (λ change. is_put change ≡ true) }
{
    let project = letter(alloc, project.byte())?;
    let path = letter(alloc, b'a')?;
    let text = letter(alloc, b'x')?;
    Ok(Change::Put {
        project,
        path,
        lang: Lang::Any,
        text,
    })
}

/// A put of a project is accepted by a caller that has no view open.
pub fn accept<W: Made, H: Hub<W>>(
    alloc: Global,
    project: Project,
    hub: &H,
    pass: &mut H::Pass,
) -> Result<u64, Refused>
    requires { HasNoView H.Stands H.settings H.callers hub.now pass.old }
    ensures { IfOk result (HasSeenPut H.Hub hub.now pass.new) }
{
    let change = put(alloc, project)?;
    match hub.accept(alloc, change, pass) {
        Ok(number) => Ok(number),
        Err(cause) => Err(cause),
    }
}

/// Its work is finished, which is that of every text.
pub fn finish<W: Indexed, H: Hub<W>>(
    hub: &H,
    number: u64,
    work: Arc<W, Global>,
    pass: &mut H::Pass,
) -> Result<Finished, Memory>
    requires made { (settings : Settings) (lang : Lang) (text : List ℕ)
        → W.IsWorkOf settings lang text (arc_value work) }
    requires seen { HasSeenPut H.Hub hub.now pass.old number }
    ensures { OnOk result (HasNoView H.Stands H.settings H.callers hub.now pass.new) }
{
    match hub.finish(number, work, pass) {
        Finished::Done => Ok(Finished::Done),
        Finished::Already => Ok(Finished::Already),
    }
}
