ghost use Rattle.std.specs.Prelude.{◌≤◌, length, IfOk, IsUtf8};
ghost use Rattle.std.specs.Arc.{arc_value};
ghost use Rattle.cq_work.specs.Work.{IsWorkOf};

use crate::Keyer;
use crate::counting::{counts_of, early_counts};
use crate::lexing::{lexed, parts_of, state_of};
use cq_base::{FileCounts, Keys, Lang, Memory, Text, Token};
use cq_func::{Function, functions};
use cq_normal::{Normal, normalise};
use cq_tokens::Tokens;
use std::alloc::Global;
use std::sync::Arc;
use std::sync::ledger::Ledger;

/// What the reading of a text gave.
#[derive(Clone, Copy, Debug, PartialEq, Eq)]
pub enum State {
    /// Its tokens.
    Ok,
    /// No element of the language stands at this byte, from 0.
    Fault(u32),
    /// More tokens than a file may have.
    Large,
}

/// The work of a text: where the tokens are that are listed, what they are as they are compared, the keys of their
/// windows, what is counted of all its tokens, and the functions that these make.
#[derive(Drop)]
pub struct Work<L: Ledger> {
    pub lang: Lang,
    pub state: State,
    pub spans: Vec<Token>,
    pub tokens: Arc<Tokens<L>>,
    pub keys: Arc<Keys>,
    pub counts: FileCounts,
    pub functions: Vec<Function>,
}

/// The work of a text.
pub fn work_of<L: Ledger>(
    alloc: Global,
    keyer: &Keyer,
    lang: Lang,
    text: &Text,
) -> Result<Work<L>, Memory>
    requires utf8 { IsUtf8 text.now }
    requires short { length text.now ≤ 1048576 }
    requires some { 1 ≤ keyer.now.settings.chunk }
    ensures { IfOk result (IsWorkOf keyer.now.settings lang text.now) }
{
    let answer = lexed(alloc, lang, text)?;
    let state = state_of(&answer);
    let (found, marks) = parts_of(alloc, answer);
    let early = early_counts(alloc, lang, state, &found, &marks)?;
    let functions = functions(alloc, lang, &found)?;
    let Normal { norms, spans } = normalise(alloc, &keyer.settings, lang, found, &marks)?;
    let counts = counts_of(alloc, text, early, &spans)?;
    let keys = Arc::new(alloc, keyer.keys(alloc, &norms)?)?;
    let tokens = Arc::new(alloc, Tokens::new(alloc, &norms)?)?;
    Ok(Work {
        lang,
        state,
        spans,
        tokens,
        keys,
        counts,
        functions,
    })
}

/// The work of a job's text, with an owner to hand to a hub or a board.
pub fn work_for<L: Ledger>(
    alloc: Global,
    keyer: &Keyer,
    lang: Lang,
    text: &Text,
) -> Result<Arc<Work<L>, Global>, Memory>
    requires utf8 { IsUtf8 text.now }
    requires short { length text.now ≤ 1048576 }
    requires some { 1 ≤ keyer.now.settings.chunk }
    ensures { IfOk result (λ work. IsWorkOf keyer.now.settings lang text.now (arc_value work)) }
{
    let work = work_of(alloc, keyer, lang, text)?;
    Ok(Arc::new(alloc, work)?)
}
