ghost use Rattle.std.specs.Prelude.{◌≡◌, ◌≤◌, ◌^◌, length, IfOk, IfSome};
ghost use Rattle.cq_measures.specs.Measures.{AreSmall};
ghost use Rattle.cq_work.specs.Counts as spec;

use crate::work::State;
use cq_base::{FileCounts, Lang, Mark, Memory, Spelled, Text, Token, line_count};
use cq_measures::{complexity, ncloc};
use cq_normal::spans_of;
use std::alloc::Global;

/// What is counted of all tokens of a text before those that are listed are known.
#[derive(Clone, Copy, Debug, PartialEq, Eq)]
pub(crate) struct Early {
    pub(crate) complexity: u64,
    /// Lines of code, if the text has marks. Without marks all tokens are listed, and the lines are counted with them.
    pub(crate) ncloc: Option<u64>,
}

fn early_complexity(lang: Lang, state: State, tokens: &[Spelled]) -> u64
    requires { length tokens.now ≤ 262144 }
    ensures complexity { result ≡ spec.early_complexity lang state tokens.now }
    ensures small { result ≤ 2 ^ 32 }
{
    match state {
        State::Ok => complexity(lang, tokens),
        State::Fault(_) | State::Large => 0,
    }
}

fn early_ncloc(alloc: Global, tokens: &[Spelled], marks: &[Mark]) -> Result<Option<u64>, Memory>
    ensures ncloc { IfOk result (λ n. n ≡ spec.early_ncloc marks.now tokens.now) }
    ensures small { IfOk result (λ n. IfSome n (λ k. k ≤ 2 ^ 32)) }
{
    if marks.is_empty() {
        return Ok(None);
    }
    Ok(Some(ncloc(alloc, &spans_of(alloc, tokens)?)?))
}

/// What is counted of all tokens of a text.
pub(crate) fn early_counts(
    alloc: Global,
    lang: Lang,
    state: State,
    tokens: &[Spelled],
    marks: &[Mark],
) -> Result<Early, Memory>
    requires few { length tokens.now ≤ 262144 }
    ensures counts { IfOk result (λ e. e ≡ spec.early_counts lang state tokens.now marks.now) }
    ensures small { IfOk result spec.AreEarlySmall }
{
    Ok(Early {
        complexity: early_complexity(lang, state, tokens),
        ncloc: early_ncloc(alloc, tokens, marks)?,
    })
}

/// What is counted of a text, of which these tokens are listed.
pub(crate) fn counts_of(
    alloc: Global,
    text: &Text,
    early: Early,
    listed: &[Token],
) -> Result<FileCounts, Memory>
    requires short { length text.now ≤ 1048576 }
    requires small { spec.AreEarlySmall early }
    ensures counts { IfOk result (λ c. c ≡ spec.completed_counts text.now early listed.now) }
    ensures small { IfOk result AreSmall }
{
    let lines = u64::from(line_count(text));
    let ncloc = match early.ncloc {
        Some(ncloc) => ncloc,
        None => ncloc(alloc, listed)?,
    };
    Ok(FileCounts {
        lines,
        ncloc,
        complexity: early.complexity,
    })
}
