//! How many bytes the body of a snapshot has, computed before a byte of it is written.
ghost use Rattle.std.specs.Prelude.{◌≡◌, ◌+◌, ◌≤◌, ◌<◌, length, slice_index_or};
ghost use Rattle.cq_base.specs.declared.norm.Norm.{Norm};
ghost use Rattle.cq_tokens.specs.Packed.{norm_in};
ghost use Rattle.cq_tokform.specs.Spelling as spell;
ghost use Rattle.cq_tokfile.specs.Snapshot as spec;

use crate::snapshot::Snapshot;
use cq_base::Steps;
use cq_func::Function;
use cq_projects::{Held, ProjectFiles};
use cq_tokens::{Seen, Tokens};
use cq_work::{State, Work};
use std::sync::ledger::Ledger;

/// The token at a place that is there. It is one step.
pub(crate) fn seen_at<'a, L: Ledger>(
    tokens: &'a Tokens<L>,
    i: u32,
    steps: &mut Steps<L>,
) -> Seen<'a>
    requires { i < length tokens.now }
    ensures token { (d : Norm) → norm_in result ≡ slice_index_or tokens.now i d }
    ensures step { steps.new ≡ steps.old + 1 }
{
    match tokens.at(i, steps) {
        Some(seen) => seen,
        None => unreachable!(),
    }
}

// Counts stay at the greatest number that a `u64` has.
fn more(count: u64, by: usize) -> u64
    ensures { result ≡ spec.capped (count + by) }
{
    count.saturating_add(by as u64)
}

fn tokens_length<L: Ledger>(tokens: &Tokens<L>, steps: &mut Steps<L>) -> u64
    ensures length { result ≡ spec.capped (spec.tokens_length tokens.now) }
    ensures steps { steps.new ≤ steps.old + length tokens.now }
{
    let mut count = 0;
    for i in 0..tokens.len() {
        let seen = seen_at(tokens, i, steps);
        count = more(more(count, 21), seen.text.len());
    }
    count
}

fn functions_length(functions: &[Function]) -> u64
    ensures { result ≡ spec.capped (spec.functions_length functions.now) }
{
    let mut count = 0;
    for function in functions {
        count = more(more(count, 16), function.name.as_bytes().len());
    }
    count
}

fn state_length(state: State) -> usize
    ensures { result ≡ length (spell.outcome state) }
{
    match state {
        State::Ok | State::Large => 1,
        State::Fault(_) => 5,
    }
}

fn file_length<L: Ledger>(held: &Held<Work<L>>, steps: &mut Steps<L>) -> u64
    ensures { result ≡ spec.capped (spec.file_length held.now) }
{
    let work = &held.work;
    let front = more(
        more(45, held.path.as_bytes().len()),
        state_length(work.state),
    );
    let tokens = tokens_length(&work.tokens, steps);
    let functions = functions_length(work.functions.as_slice());
    front.saturating_add(tokens).saturating_add(functions)
}

fn files_length<L: Ledger>(files: &ProjectFiles<Work<L>>, steps: &mut Steps<L>) -> u64
    ensures { result ≡ spec.capped (spec.files_length files.now) }
{
    let mut count: u64 = 0;
    for i in 0..files.len() {
        count = count.saturating_add(file_length(files.at(i), steps));
    }
    count
}

/// How many bytes the body has. Each token is read once.
pub(crate) fn body_length<L: Ledger>(snapshot: &Snapshot<L>, steps: &mut Steps<L>) -> u64
    requires { length snapshot.now.conditions.items ≤ 32 }
    ensures { result ≡ spec.capped (spec.body_length snapshot.now) }
{
    let conditions = 10 * snapshot.conditions.len();
    let front = more(more(26, snapshot.project.as_bytes().len()), conditions);
    front.saturating_add(files_length(&snapshot.files, steps))
}
