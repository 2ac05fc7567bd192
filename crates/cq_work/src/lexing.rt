ghost use Rattle.std.specs.Prelude.{◌≡◌, ◌+◌, ◌*◌, ◌≤◌, IfOk, IsUtf8, length};
ghost use Rattle.cq_munch.specs.Lexed.{AreInOrder, AreMarkedInOrder};
ghost use Rattle.cq_work.specs.Lexing as spec;
ghost use Rattle.cq_work.specs.Lexing.{LexesTo};

use crate::work::State;
use cq_base::{Lang, Mark, Memory, Spelled, Text};
use cq_lex_any::Any;
use cq_lex_c::C;
use cq_lex_go::Go;
use cq_lex_java::Java;
use cq_lex_js::{JavaScript, TypeScript};
use cq_munch::{Lexed, munch};
use std::alloc::Global;

// What a text is lexed to, by its language.
fn lexed_by(alloc: Global, lang: Lang, text: &Text) -> Result<Lexed, Memory>
    requires utf8 { IsUtf8 text.now }
    requires short { length text.now ≤ 1048576 }
    ensures lexes { IfOk result (LexesTo lang text.now) }
    ensures in_order { IfOk result AreMarkedInOrder }
    ensures few { IfOk result (λ a. length (spec.tokens_in a) ≤ 262144) }
{
    match lang {
        Lang::Any => munch::<Any>(alloc, text),
        Lang::Go => munch::<Go>(alloc, text),
        Lang::C => munch::<C>(alloc, text),
        Lang::Java => munch::<Java>(alloc, text),
        Lang::Js => munch::<JavaScript>(alloc, text),
        Lang::Ts => munch::<TypeScript>(alloc, text),
    }
}

/// What a text is lexed to, by its language. It is read once. A spelling has at most 4 bytes for each byte of the text
/// that it comes from, and an inserted semicolon has one.
pub(crate) fn lexed(alloc: Global, lang: Lang, text: &Text) -> Result<Lexed, Memory>
    requires utf8 { IsUtf8 text.now }
    requires short { length text.now ≤ 1048576 }
    ensures lexes { IfOk result (LexesTo lang text.now) }
    ensures in_order { IfOk result AreMarkedInOrder }
    ensures few { IfOk result (λ a. length (spec.tokens_in a) ≤ 262144) }
    ensures short { IfOk result
        (λ a. spec.spelled_bytes (spec.tokens_in a) ≤ 4 * length text.now + 262144) }
{
    lexed_by(alloc, lang, text)
}

/// What it says of the text.
pub(crate) fn state_of(lexed: &Lexed) -> State
    ensures { result ≡ spec.state_of lexed.now }
{
    match lexed {
        Lexed::Tokens(_, _) => State::Ok,
        Lexed::Fault(at) => State::Fault(*at),
        Lexed::Large => State::Large,
    }
}

/// The tokens and the marks; none of a fault, or of a text with too many.
pub(crate) fn parts_of(alloc: Global, lexed: Lexed) -> (Vec<Spelled>, Vec<Mark>)
    requires in_order { AreMarkedInOrder lexed }
    ensures tokens { result.0.items ≡ spec.tokens_in lexed }
    ensures marks { result.1.items ≡ spec.marks_in lexed }
    ensures in_order { AreInOrder result.1.items }
{
    match lexed {
        Lexed::Tokens(tokens, marks) => (tokens, marks),
        Lexed::Fault(_) => (Vec::new(alloc), Vec::new(alloc)),
        Lexed::Large => (Vec::new(alloc), Vec::new(alloc)),
    }
}
