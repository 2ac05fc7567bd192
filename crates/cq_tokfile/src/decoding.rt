ghost use Rattle.std.specs.Prelude.{◌≡◌, ◌≤◌, ◌<◌, ◌^◌, length, map, IfOk};
ghost use Rattle.std.specs.Arc.{arc_value};
ghost use Rattle.cq_work.specs.Keys.{window_keys};
ghost use Rattle.cq_tokens.specs.Packed.{spelling_bytes};
ghost use Rattle.cq_work.specs.Lexing.{spelled_bytes};
ghost use Rattle.cq_tokform.specs.Spelling.{listed, recorded};
ghost use Rattle.cq_tokform.specs.Sound.{IsSoundWhole};
ghost use Rattle.cq_tokfile.specs.Snapshot as spec;

use crate::snapshot::Snapshot;
use cq_base::{Keys, Lang, Memory, Norm, Spelled};
use cq_normal::spans_of;
use cq_projects::{Held, ProjectFiles};
use cq_tokens::Tokens;
use cq_tokform::{ContentsRecord, FileRecord, Unread, read_whole};
use cq_work::{Keyer, Work};
use std::alloc::Global;
use std::sync::Arc;
use std::sync::ledger::Ledger;

fn norm_of(lang: Lang, spelled: Spelled) -> Norm
    ensures { result ≡ spec.norm_in lang spelled }
{
    Norm {
        lang,
        class: spelled.token.class,
        text: spelled.text,
    }
}

// The tokens of a file of this language as they are compared. Their texts are moved.
fn norms_of(alloc: Global, lang: Lang, tokens: Vec<Spelled>) -> Result<Vec<Norm>, Memory>
    requires few { length tokens.items ≤ 262144 }
    requires short { spelled_bytes tokens.items ≤ 268435456 }
    ensures norms { IfOk result (λ norms. norms.items ≡ map (spec.norm_in lang) tokens.items) }
    ensures few { IfOk result (λ norms. length norms.items < 2 ^ 32) }
    ensures short { IfOk result (λ norms. spelling_bytes norms.items < 2 ^ 32) }
{
    let mut norms = Vec::with_capacity(alloc, tokens.len())?;
    for spelled in tokens {
        norms.push(norm_of(lang, spelled))?;
    }
    Ok(norms)
}

// The tokens of a file of this language, and the keys of their windows.
fn keyed<L: Ledger>(
    alloc: Global,
    keyer: &Keyer,
    lang: Lang,
    tokens: Vec<Spelled>,
) -> Result<(Tokens<L>, Keys), Memory>
    requires some { 1 ≤ keyer.now.settings.chunk }
    requires few { length tokens.items ≤ 262144 }
    requires short { spelled_bytes tokens.items ≤ 268435456 }
    ensures tokens { IfOk result (λ made. made.0 ≡ map (spec.norm_in lang) tokens.items) }
    ensures keys { IfOk result (λ made. made.1
        ≡ window_keys keyer.now.settings (map (spec.norm_in lang) tokens.items)) }
{
    let norms = norms_of(alloc, lang, tokens)?;
    let keys = keyer.keys(alloc, &norms)?;
    Ok((Tokens::new(alloc, &norms)?, keys))
}

// The file with its work. A record has all of it but its keys: these are computed from its tokens.
fn held_of<L: Ledger>(
    alloc: Global,
    keyer: &Keyer,
    file: FileRecord,
) -> Result<Held<Work<L>>, Memory>
    requires some { 1 ≤ keyer.now.settings.chunk }
    requires few { spec.HasFewTokens (recorded file) }
    requires short { spec.HasShortTokens (recorded file) }
    ensures same { IfOk result (λ held. spec.record_of held ≡ recorded file) }
    ensures parts { IfOk result (λ held. spec.IsOneFile keyer.now.settings held) }
{
    let FileRecord {
        path,
        change,
        lang,
        state,
        counts,
        tokens,
        functions,
    } = file;
    let spans = spans_of(alloc, &tokens)?;
    let (tokens, keys) = keyed(alloc, keyer, lang, tokens)?;
    let tokens = Arc::new(alloc, tokens)?;
    let keys = Arc::new(alloc, keys)?;
    let work = Work {
        lang,
        state,
        spans,
        tokens,
        keys,
        counts,
        functions,
    };
    let work = Arc::new(alloc, work)?;
    let path = Arc::new(alloc, path)?;
    Ok(Held {
        path,
        change,
        lang,
        work,
    })
}

// The files with their works, in their order.
fn held_all<L: Ledger>(
    alloc: Global,
    keyer: &Keyer,
    files: Vec<FileRecord>,
) -> Result<Vec<Arc<Held<Work<L>>, Global>>, Memory>
    requires some { 1 ≤ keyer.now.settings.chunk }
    requires few { spec.HaveFewTokens (map recorded files.items) }
    requires short { spec.HaveShortTokens (map recorded files.items) }
    ensures { IfOk result (λ held. spec.AreMadeOf keyer.now.settings
        (map recorded files.items) (map arc_value held.items)) }
{
    let mut all = Vec::with_capacity(alloc, files.len())?;
    for file in files {
        let held = held_of(alloc, keyer, file)?;
        all.push(Arc::new(alloc, held)?)?;
    }
    Ok(all)
}

// The snapshot of sound contents.
fn snapshot_of<L: Ledger>(
    alloc: Global,
    keyer: &Keyer,
    contents: ContentsRecord,
) -> Result<Snapshot<L>, Memory>
    requires some { 1 ≤ keyer.now.settings.chunk }
    requires sound { IsSoundWhole keyer.now.settings (listed contents) }
    ensures same { IfOk result (λ snapshot. spec.contents_of snapshot ≡ listed contents) }
    ensures sound { IfOk result (λ snapshot. spec.IsSoundSnapshot keyer.now.settings snapshot) }
{
    let ContentsRecord {
        head,
        conditions,
        files,
    } = contents;
    let items = held_all(alloc, keyer, files)?;
    let files = ProjectFiles::gathered(alloc, items)?;
    Ok(Snapshot {
        version: head.version,
        project: head.project,
        conditions,
        files,
    })
}

/// The snapshot whose token file under these settings the bytes are, and None if they are none. The keys are computed
/// again from the tokens that were read. It costs one walk over the bytes, a sort of the files' changes, and what keying
/// costs, and takes memory only for what it has read.
pub fn decode<L: Ledger>(
    alloc: Global,
    keyer: &Keyer,
    bytes: &[u8],
) -> Result<Option<Snapshot<L>>, Memory>
    requires some { 1 ≤ keyer.now.settings.chunk }
    ensures { IfOk result (λ snapshot. spec.Decodes keyer.now.settings bytes.now snapshot) }
{
    match read_whole(alloc, &keyer.settings, bytes) {
        Ok((contents, rest)) => {
            if !rest.is_empty() {
                return Ok(None);
            }
            Ok(Some(snapshot_of(alloc, keyer, contents)?))
        }
        Err(Unread::Refused) => Ok(None),
        Err(Unread::Memory) => Err(Memory),
    }
}
