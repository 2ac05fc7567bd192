ghost use Rattle.std.specs.Prelude.{◌≡◌, ◌≤◌, ◌<◌, ◌+◌, IfOk, length};
ghost use Rattle.cq_base.specs.declared.lang.Lang.TheVariants as lang;
ghost use Rattle.cq_func.specs.declared.brackets.Kind.TheVariants as kind;
ghost use Rattle.cq_func.specs.Functions as spec;
ghost use Rattle.cq_func.specs.Names as names;
ghost use Rattle.cq_func.specs.Places as places;
ghost use Rattle.cq_func.specs.Tables as tables;

use crate::brackets::{Kind, partner, partners, signs};
use crate::found::{Found, keep, with_body};
use crate::spelling::{is_called, is_name, stands, stands_before};
use cq_base::{Lang, Memory, Spelled};
use std::alloc::Global;

// A use of a name that is no method.
fn is_no_method(tokens: &[Spelled], name: usize) -> bool
    ensures { result ≡ names.is_no_method tokens.now name }
{
    stands_before(Lang::Java, tokens, name, b"new")
        || stands_before(Lang::Java, tokens, name, b".")
        || stands_before(Lang::Java, tokens, name, b",")
        || stands_before(Lang::Java, tokens, name, b"@")
        || stands_before(Lang::Java, tokens, name, b"record") && is_name(tokens, name - 1)
}

fn ends_throws(tokens: &[Spelled], at: usize) -> bool
    ensures { result ≡ names.ends_throws tokens.now at }
{
    stands(Lang::Java, tokens, at, b"{")
        || stands(Lang::Java, tokens, at, b"}")
        || stands(Lang::Java, tokens, at, b";")
        || stands(Lang::Java, tokens, at, b"(")
        || stands(Lang::Java, tokens, at, b")")
}

// The first token above the place that ends the types of a `throws`. No two calls of a walk look at one token.
fn throws_end(tokens: &[Spelled], at: usize) -> usize
    requires { at < length tokens.now }
    ensures is { result ≡ places.place_above (names.ends_throws tokens.now) at (length tokens.now) }
    ensures bound { result ≤ length tokens.now }
{
    for end in at + 1..tokens.len() {
        if ends_throws(tokens, end) {
            return end;
        }
    }
    tokens.len()
}

fn behind_throws(tokens: &[Spelled], at: usize) -> usize
    requires { at < length tokens.now }
    ensures is { result ≡ names.behind_throws tokens.now at }
{
    let end = throws_end(tokens, at);
    if at + 1 < end { end } else { tokens.len() }
}

fn java_open(tokens: &[Spelled], close: usize) -> usize
    requires { close ≤ length tokens.now }
    ensures { result ≡ names.java_open tokens.now close }
{
    if stands(Lang::Java, tokens, close + 1, b"throws") {
        behind_throws(tokens, close + 1)
    } else {
        close + 1
    }
}

fn java_function(tokens: &[Spelled], round: &[u32], curly: &[u32], name: usize) -> Option<Found>
    requires rounds { tables.ArePartners lang.Java kind.Round tokens.now round.now }
    requires curlies { tables.ArePartners lang.Java kind.Curly tokens.now curly.now }
    requires within { name < length tokens.now }
    ensures { result ≡ names.java_function tokens.now name }
{
    if is_called(Lang::Java, tokens, name) && !is_no_method(tokens, name) {
        let close = partner(Lang::Java, Kind::Round, tokens, round, name + 1);
        with_body(Lang::Java, tokens, curly, name, java_open(tokens, close))
    } else {
        None
    }
}

/// The functions of a text of Java.
pub(crate) fn java_functions(alloc: Global, tokens: &[Spelled]) -> Result<Vec<Found>, Memory>
    requires { length tokens.now ≤ 262144 }
    ensures { IfOk result (λ v. v.items ≡ spec.found lang.Java tokens.now) }
{
    let signs = signs(alloc, Lang::Java, tokens)?;
    let round = partners(alloc, Lang::Java, Kind::Round, tokens, &signs)?;
    let curly = partners(alloc, Lang::Java, Kind::Curly, tokens, &signs)?;
    let mut found = Vec::new(alloc);
    for name in 0..tokens.len() {
        keep(&mut found, java_function(tokens, &round, &curly, name))?;
    }
    Ok(found)
}
