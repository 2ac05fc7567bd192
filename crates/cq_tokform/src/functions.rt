ghost use Rattle.std.specs.Prelude.{◌≡◌, ◌<◌, ◌^◌, length, All, OnOk, OnErr};
ghost use Rattle.cq_tokform.specs.Spelling as spell;
ghost use Rattle.cq_tokform.specs.Sound.{is_sound_function};
ghost use Rattle.cq_tokform.specs.Reading.{GivesList, GivesValue, counted_at, function_at, items_at};
ghost use Rattle.cq_tokform.specs.Writing.{AddsBytes, IsFrontOf};

use crate::numbers::{put_text, put_u32, text_of, u32_at};
use crate::unread::Unread;
use cq_base::Memory;
use cq_func::Function;
use std::alloc::Global;

// Whether a function may stand in a file of so many lines. Its name is UTF-8 already.
fn is_sound(lines: u64, function: &Function) -> bool
    ensures { result ≡ is_sound_function lines function.now }
{
    1 <= function.first && function.first <= function.last && u64::from(function.last) <= lines
}

#[tactic(auto, unfolding(crate::specs::Reading::function_at))]
fn function_of(alloc: Global, lines: u64, bytes: &[u8]) -> Result<(Function, &[u8]), Unread>
    ensures { GivesValue (function_at lines bytes.now) result }
{
    let (name, rest) = text_of(alloc, bytes)?;
    let (first, rest) = u32_at(rest)?;
    let (last, rest) = u32_at(rest)?;
    let (complexity, rest) = u32_at(rest)?;
    let function = Function {
        name,
        first,
        last,
        complexity,
    };
    if !is_sound(lines, &function) {
        return Err(Unread::Refused);
    }
    Ok((function, rest))
}

// So many functions, one after the other. No memory is taken ahead of them.
fn functions_at(
    alloc: Global,
    lines: u64,
    count: u32,
    bytes: &[u8],
) -> Result<(Vec<Function>, &[u8]), Unread>
    ensures { GivesList (items_at (function_at lines) count bytes.now) result }
{
    let mut functions = Vec::new(alloc);
    let mut rest = bytes;
    for _ in 0..count {
        let (function, after) = function_of(alloc, lines, rest)?;
        functions.push(function)?;
        rest = after;
    }
    Ok((functions, rest))
}

#[tactic(auto, unfolding(crate::specs::Reading::counted_at))]
pub(crate) fn functions_of(
    alloc: Global,
    lines: u64,
    bytes: &[u8],
) -> Result<(Vec<Function>, &[u8]), Unread>
    ensures { GivesList (counted_at (function_at lines) bytes.now) result }
{
    let (count, rest) = u32_at(bytes)?;
    functions_at(alloc, lines, count, rest)
}

/// Writes a function at the end.
/// If memory is refused, some more bytes may be after those that were there.
pub fn put_function(out: &mut Vec<u8>, function: &Function) -> Result<(), Memory>
    requires { length function.now.name < 2 ^ 32 }
    ensures written { OnOk result (AddsBytes (spell.function function.now) out.old out.new) }
    ensures front { OnErr result (IsFrontOf out.old.items out.new.items) }
{
    put_text(out, function.name.as_bytes())?;
    put_u32(out, function.first)?;
    put_u32(out, function.last)?;
    put_u32(out, function.complexity)?;
    Ok(())
}

/// Writes how many functions there are, and each of them, at the end.
/// If memory is refused, some more bytes may be after those that were there.
pub fn put_functions(out: &mut Vec<u8>, functions: &[Function]) -> Result<(), Memory>
    requires few { length functions.now < 2 ^ 32 }
    requires short { All (λ s. length s.name < 2 ^ 32) functions.now }
    ensures written { OnOk result
        (AddsBytes (spell.counted spell.function functions.now) out.old out.new) }
    ensures front { OnErr result (IsFrontOf out.old.items out.new.items) }
{
    put_u32(out, functions.len() as u32)?;
    for function in functions {
        put_function(out, function)?;
    }
    Ok(())
}
