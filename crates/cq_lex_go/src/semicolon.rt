ghost use Rattle.std.specs.Prelude.{◌≡◌, ◌+◌, ◌≤◌, ◌++◌, length, IfOk, IfSome, OnOk};
ghost use Rattle.std.specs.Str.{bytes_eq};
ghost use Rattle.cq_munch.specs.Lexed.{TokensFollow};
ghost use Rattle.cq_lex_go.specs.FinalTokens.{SemicolonsEndLines};
ghost use Rattle.cq_lex_go.specs.Semicolons as spec;

use cq_base::{Class, Memory, Spelled, Text, Token};
use std::alloc::Global;

fn is_word(text: &Text, word: &str) -> bool
    ensures { result ≡ bytes_eq text.now word.now }
{
    text.as_bytes() == word.as_bytes()
}

// Whether a statement may end with a token of this spelling.
fn may_end(class: Class, text: &Text) -> bool
    ensures { result ≡ spec.may_end class text.now }
{
    match class {
        Class::Ident | Class::Literal => true,
        Class::Word => {
            is_word(text, "break")
                || is_word(text, "continue")
                || is_word(text, "fallthrough")
                || is_word(text, "return")
        }
        Class::Punct => matches!(text.as_bytes(), b"++" | b"--" | b")" | b"]" | b"}"),
    }
}

// The token, if a statement may end with it.
fn ending(spelled: &Spelled) -> Option<Token>
    ensures { result ≡ spec.ending spelled.now }
{
    if may_end(spelled.token.class, &spelled.text) {
        Some(spelled.token)
    } else {
        None
    }
}

fn has_feed(text: &Text, from: u32, to: u32) -> bool
    requires ordered { from ≤ to }
    requires within { to ≤ length text.now }
    ensures { result ≡ spec.has_feed text.now from to }
{
    text.as_bytes()[from as usize..to as usize]
        .iter()
        .any(|b| *b == b'\n')
}

// A semicolon of no bytes directly after a token.
fn semicolon_behind(alloc: Global, token: Token) -> Result<Spelled, Memory>
    requires { token.start + token.len ≤ 1048576 }
    ensures { IfOk result (λ s. s ≡ spec.semicolon_behind token) }
{
    let text = Text::from_bytes(alloc, b";")?;
    let token = Token {
        class: Class::Punct,
        start: token.start + token.len,
        len: 0,
        first_line: token.last_line,
        last_line: token.last_line,
    };
    Ok(Spelled { token, text })
}

// Adds what comes between a token with which a statement may end and the next one, which begins at a byte.
fn push_between(
    alloc: Global,
    text: &Text,
    last: Option<Token>,
    to: u32,
    all: &mut Vec<Spelled>,
) -> Result<(), Memory>
    requires short { length text.now ≤ 1048576 }
    requires ordered { IfSome last (λ t. t.start + t.len ≤ to) }
    requires within { to ≤ length text.now }
    ensures { OnOk result (all.new.items ≡ all.old.items ++ spec.between text.now last to) }
{
    if let Some(token) = last {
        if has_feed(text, token.start + token.len, to) {
            all.push(semicolon_behind(alloc, token)?)?;
        }
    }
    Ok(())
}

/// The tokens of a text with the semicolons that are inserted. Each token is moved once, and the bytes between two
/// are looked at once.
pub(crate) fn with_semicolons(
    alloc: Global,
    text: &Text,
    tokens: Vec<Spelled>,
) -> Result<Vec<Spelled>, Memory>
    requires short { length text.now ≤ 1048576 }
    requires in_order { TokensFollow 0 tokens.items (length text.now) }
    ensures { IfOk result (λ v. v.items ≡ spec.completed text.now tokens.items) }
{
    let mut all = Vec::with_capacity(alloc, tokens.len())?;
    let mut last: Option<Token> = None;
    for spelled in tokens {
        push_between(alloc, text, last, spelled.token.start, &mut all)?;
        last = ending(&spelled);
        all.push(spelled)?;
    }
    if let Some(token) = last {
        all.push(semicolon_behind(alloc, token)?)?;
    }
    Ok(all)
}

/// A semicolon is inserted directly after a token exactly if it is the last one of its line, and a statement may end
/// with it.
pub fn semicolons_end_lines()
    ensures { SemicolonsEndLines }
{}
