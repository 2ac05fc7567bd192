ghost use Rattle.std.specs.Prelude.{◌≤◌, length, IfOk, IsUtf8};
ghost use Rattle.cq_munch.specs.Lexed.{IsLexed, HasOneAnswer, AreMarkedInOrder};

use crate::cutting::{Cut, MOST_TOKENS, cut_up};
use crate::lexis::{Lexis, Translated};
use cq_base::{Mark, Memory, Spelled, Text};
use std::alloc::Global;

/// What a text is lexed to.
#[derive(Debug, Drop)]
pub enum Lexed {
    /// Its tokens, at most 262,144, and the marks of its comments.
    Tokens(Vec<Spelled>, Vec<Mark>),
    /// The byte of its first fault.
    Fault(u32),
    /// It has no fault, and more than 262,144 tokens.
    Large,
}

/// The tokens of a text with the marks of its comments, or its first fault, or that there are too many. The text is
/// translated first; then the longest element is taken, one after the other. After the first 262,145 tokens no more are
/// spelled out: the rest is read only for faults.
pub fn munch<X: Lexis>(alloc: Global, text: &Text) -> Result<Lexed, Memory>
    requires utf8 { IsUtf8 text.now }
    requires short { length text.now ≤ 1048576 }
    ensures lexed { IfOk result (IsLexed X.language X.translated X.completed text.now) }
    ensures in_order { IfOk result AreMarkedInOrder }
{
    let units = match X::translate(alloc, text)? {
        Translated::Units(units) => units,
        Translated::Fault(at) => return Ok(Lexed::Fault(at)),
    };
    let (tokens, marks) = match cut_up::<X>(alloc, text, &units)? {
        Cut::Tokens(tokens, marks) => (tokens, marks),
        Cut::Fault(at) => return Ok(Lexed::Fault(at)),
        Cut::Large => return Ok(Lexed::Large),
    };
    let tokens = X::complete(alloc, text, tokens)?;
    if tokens.len() > MOST_TOKENS {
        return Ok(Lexed::Large);
    }
    Ok(Lexed::Tokens(tokens, marks))
}

/// No text is lexed to two answers: the definition leaves nothing open.
pub fn one_answer<X: Lexis>()
    ensures { HasOneAnswer X.language X.translated X.completed }
{}
