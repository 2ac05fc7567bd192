ghost use Rattle.std.specs.Prelude.{◌≡◌, ◌≤◌, ◌<◌, ◌+◌, IfOk, IsTrue, length};
ghost use Rattle.cq_base.specs.declared.lang.Lang.TheVariants as lang;
ghost use Rattle.cq_func.specs.declared.brackets.Kind.TheVariants as kind;
ghost use Rattle.cq_func.specs.Functions as spec;
ghost use Rattle.cq_func.specs.Names as names;
ghost use Rattle.cq_func.specs.Tables as tables;

use crate::brackets::{Kind, partner, partners, signs};
use crate::found::{Found, keep, with_body};
use crate::spelling::{is_called, is_name, stands, stands_before};
use cq_base::{Lang, Memory, Spelled};
use std::alloc::Global;

/// A use of a name that is not a method.
pub(crate) fn is_used(lang: Lang, tokens: &[Spelled], name: usize) -> bool
    ensures { result ≡ names.is_used lang tokens.now name }
{
    stands_before(lang, tokens, name, b"new")
        || stands_before(lang, tokens, name, b"extends")
        || stands_before(lang, tokens, name, b".")
        || stands_before(lang, tokens, name, b"?.")
}

fn js_declared(tokens: &[Spelled], round: &[u32], curly: &[u32], name: usize) -> Option<Found>
    requires rounds { tables.ArePartners lang.Js kind.Round tokens.now round.now }
    requires curlies { tables.ArePartners lang.Js kind.Curly tokens.now curly.now }
    requires within { name + 1 < length tokens.now }
    ensures { result ≡ names.js_declared tokens.now name }
{
    if is_used(Lang::Js, tokens, name) {
        return None;
    }
    let close = partner(Lang::Js, Kind::Round, tokens, round, name + 1);
    with_body(Lang::Js, tokens, curly, name, close + 1)
}

/// A name that is given a value.
pub(crate) fn is_given(lang: Lang, tokens: &[Spelled], name: usize) -> bool
    requires { name < length tokens.now }
    ensures { result ≡ names.is_given lang tokens.now name }
{
    is_name(tokens, name)
        && (stands(lang, tokens, name + 1, b"=") || stands(lang, tokens, name + 1, b":"))
}

/// The next place, if this word is here.
pub(crate) fn past(lang: Lang, word: &[u8], tokens: &[Spelled], at: usize) -> usize
    ensures { result ≡ names.past lang word.now tokens.now at }
{
    if stands(lang, tokens, at, word) {
        at + 1
    } else {
        at
    }
}

fn is_expression(lang: Lang, tokens: &[Spelled], at: usize) -> bool
    ensures is { result ≡ names.is_expression lang tokens.now at }
    ensures within { IsTrue result → at < length tokens.now }
{
    stands(lang, tokens, at, b"function")
}

/// Where the parameters of a function begin that begins here.
pub(crate) fn expressed(lang: Lang, tokens: &[Spelled], at: usize) -> usize
    ensures { result ≡ names.expressed lang tokens.now at }
{
    if is_expression(lang, tokens, at) {
        past(lang, b"*", tokens, at + 1)
    } else {
        at
    }
}

/// Where its body is to begin, after its parameters.
pub(crate) fn arrow_open(lang: Lang, tokens: &[Spelled], at: usize, behind: usize) -> usize
    ensures { result ≡ names.arrow_open lang tokens.now at behind }
{
    if is_expression(lang, tokens, at) {
        return behind;
    }
    if stands(lang, tokens, behind, b"=>") {
        return behind + 1;
    }
    tokens.len()
}

// A function that is the value of the name.
fn js_value(tokens: &[Spelled], round: &[u32], curly: &[u32], name: usize) -> Option<Found>
    requires rounds { tables.ArePartners lang.Js kind.Round tokens.now round.now }
    requires curlies { tables.ArePartners lang.Js kind.Curly tokens.now curly.now }
    requires within { name < length tokens.now }
    ensures { result ≡ names.js_value tokens.now name }
{
    let at = past(Lang::Js, b"async", tokens, name + 2);
    let first = expressed(Lang::Js, tokens, at);
    if !stands(Lang::Js, tokens, first, b"(") {
        return None;
    }
    let close = partner(Lang::Js, Kind::Round, tokens, round, first);
    let open = arrow_open(Lang::Js, tokens, at, close + 1);
    with_body(Lang::Js, tokens, curly, name, open)
}

fn js_function(tokens: &[Spelled], round: &[u32], curly: &[u32], name: usize) -> Option<Found>
    requires rounds { tables.ArePartners lang.Js kind.Round tokens.now round.now }
    requires curlies { tables.ArePartners lang.Js kind.Curly tokens.now curly.now }
    requires within { name < length tokens.now }
    ensures { result ≡ names.js_function tokens.now name }
{
    if is_called(Lang::Js, tokens, name) {
        return js_declared(tokens, round, curly, name);
    }
    if is_given(Lang::Js, tokens, name) {
        return js_value(tokens, round, curly, name);
    }
    None
}

/// The functions of a text of JavaScript.
pub(crate) fn js_functions(alloc: Global, tokens: &[Spelled]) -> Result<Vec<Found>, Memory>
    requires { length tokens.now ≤ 262144 }
    ensures { IfOk result (λ v. v.items ≡ spec.found lang.Js tokens.now) }
{
    let signs = signs(alloc, Lang::Js, tokens)?;
    let round = partners(alloc, Lang::Js, Kind::Round, tokens, &signs)?;
    let curly = partners(alloc, Lang::Js, Kind::Curly, tokens, &signs)?;
    let mut found = Vec::new(alloc);
    for name in 0..tokens.len() {
        keep(&mut found, js_function(tokens, &round, &curly, name))?;
    }
    Ok(found)
}
