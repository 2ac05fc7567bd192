ghost use Rattle.std.specs.Prelude.{◌≡◌, ◌≤◌, ◌<◌, IfOk, OnOk, All, length, reverse, if◌then◌else◌};
ghost use Rattle.cq_func.specs.Functions as spec;
ghost use Rattle.cq_func.specs.Walks as walk;

use crate::found::Found;
use crate::places::repeated;
use cq_base::{Lang, Memory, Spelled};
use cq_measures::is_decision;
use std::alloc::Global;

fn text_before(tokens: &[Spelled], at: usize) -> &[u8]
    requires { at < length tokens.now }
    ensures { result.now ≡ spec.text_before tokens.now at }
{
    if at == 0 {
        return b"";
    }
    tokens[at - 1].text.as_bytes()
}

fn decides(lang: Lang, tokens: &[Spelled], at: usize) -> bool
    requires { at < length tokens.now }
    ensures { result ≡ spec.decides lang tokens.now at }
{
    is_decision(lang, text_before(tokens, at), &tokens[at])
}

// For each place at which a body begins, where it ends.
fn closes(alloc: Global, many: usize, functions: &[Found]) -> Result<Vec<u32>, Memory>
    requires few { many ≤ 262144 }
    requires bodies { walk.AreBodies many functions.now }
    ensures { IfOk result (λ t. walk.AreCloses functions.now many t.items) }
{
    let mut closes = repeated(alloc, many as u32, many)?;
    for function in functions {
        closes[function.brace] = function.close as u32;
    }
    Ok(closes)
}

// A decision counts for the body that began last.
fn note(own: &mut Vec<u32>, stack: &[usize], decides: bool)
    requires within { All (λ b. b < length own.old.items) stack.now }
    requires few { All (λ n. n ≤ 262144) own.old.items }
    ensures { own.new.items
        ≡ (if decides then walk.noted (reverse stack.now) own.old.items else own.old.items) }
{
    if !decides {
        return;
    }
    if let Some(top) = stack.last() {
        own[*top] += 1;
    }
}

// A body begins at the place, or the one that began last may end there.
fn move_on(stack: &mut Vec<usize>, closes: &[u32], at: usize) -> Result<(), Memory>
    requires within { All (λ b. b < length closes.now) stack.old.items }
    requires inside { at < length closes.now }
    ensures { OnOk result
        (reverse stack.new.items ≡ walk.moved closes.now at (reverse stack.old.items)) }
{
    if (closes[at] as usize) < closes.len() {
        stack.push(at)?;
        return Ok(());
    }
    if let Some(top) = stack.pop() {
        if closes[top] as usize != at {
            stack.push(top)?;
        }
    }
    Ok(())
}

/// For each place at which a body begins, the decisions that are that function's own. Each token is looked at once.
pub(crate) fn own_decisions(
    alloc: Global,
    lang: Lang,
    tokens: &[Spelled],
    functions: &[Found],
) -> Result<Vec<u32>, Memory>
    requires few { length tokens.now ≤ 262144 }
    requires bodies { walk.AreBodies (length tokens.now) functions.now }
    ensures { IfOk result
        (λ t. walk.AreOwn lang tokens.now functions.now (length tokens.now) t.items) }
{
    let closes = closes(alloc, tokens.len(), functions)?;
    let mut stack = Vec::new(alloc);
    let mut own = repeated(alloc, 0, tokens.len())?;
    for at in 0..tokens.len() {
        note(&mut own, &stack, decides(lang, tokens, at));
        move_on(&mut stack, &closes, at)?;
    }
    Ok(own)
}
