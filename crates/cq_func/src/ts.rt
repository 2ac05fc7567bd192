ghost use Rattle.std.specs.Prelude.{◌≡◌, ◌≤◌, ◌<◌, ◌+◌, IfOk, length};
ghost use Rattle.cq_base.specs.declared.lang.Lang.TheVariants as lang;
ghost use Rattle.cq_func.specs.declared.brackets.Kind.TheVariants as kind;
ghost use Rattle.cq_func.specs.Functions as spec;
ghost use Rattle.cq_func.specs.Names as names;
ghost use Rattle.cq_func.specs.Tables as tables;

use crate::brackets::{Kind, partner, partners, signs};
use crate::found::{Found, keep, with_body};
use crate::js::{arrow_open, expressed, is_given, is_used, past};
use crate::spelling::{is_name, stands, stands_before};
use cq_base::{Lang, Memory, Spelled};
use std::alloc::Global;

/// Which types are passed over.
#[derive(Clone, Copy, Debug, PartialEq, Eq)]
pub(crate) enum Types {
    /// The parameters of a type, in angle brackets.
    Parameters,
    /// The type of a result, up to a body or an arrow.
    Result,
    /// The type of a value, up to an equals sign.
    Value,
}

fn ends_any(tokens: &[Spelled], at: usize) -> bool
    ensures { result ≡ names.ends_any tokens.now at }
{
    stands(Lang::Ts, tokens, at, b"(")
        || stands(Lang::Ts, tokens, at, b")")
        || stands(Lang::Ts, tokens, at, b"{")
        || stands(Lang::Ts, tokens, at, b"}")
        || stands(Lang::Ts, tokens, at, b";")
}

fn ends_type(which: Types, tokens: &[Spelled], at: usize) -> bool
    ensures { result ≡ names.ends_type which tokens.now at }
{
    match which {
        Types::Parameters => stands(Lang::Ts, tokens, at, b"<") || ends_any(tokens, at),
        Types::Result => stands(Lang::Ts, tokens, at, b"=>") || ends_any(tokens, at),
        Types::Value => {
            stands(Lang::Ts, tokens, at, b"=")
                || stands(Lang::Ts, tokens, at, b":")
                || stands(Lang::Ts, tokens, at, b",")
                || ends_any(tokens, at)
        }
    }
}

// The first token after the place that ends a type. A token is looked at by a few calls of a walk: where a type begins, another
// one ends.
fn type_end(which: Types, tokens: &[Spelled], at: usize) -> usize
    requires { at < length tokens.now }
    ensures is { result ≡ names.type_end which tokens.now at }
    ensures bound { result ≤ length tokens.now }
{
    for end in at + 1..tokens.len() {
        if ends_type(which, tokens, end) {
            return end;
        }
    }
    tokens.len()
}

// Where the parameters of a function begin, after those of a type.
fn typed_parameters(tokens: &[Spelled], at: usize) -> usize
    ensures { result ≡ names.typed_parameters tokens.now at }
{
    if !stands(Lang::Ts, tokens, at, b"<") {
        return at;
    }
    let end = type_end(Types::Parameters, tokens, at);
    if stands_before(Lang::Ts, tokens, end, b">") {
        end
    } else {
        tokens.len()
    }
}

// What follows the type of a result, if one begins here.
fn behind_result(tokens: &[Spelled], at: usize) -> usize
    ensures { result ≡ names.behind_result tokens.now at }
{
    if !stands(Lang::Ts, tokens, at, b":") {
        return at;
    }
    let end = type_end(Types::Result, tokens, at);
    if at + 1 < end { end } else { tokens.len() }
}

// A name that is not used there.
fn is_own(tokens: &[Spelled], name: usize) -> bool
    ensures { result ≡ names.is_own tokens.now name }
{
    is_name(tokens, name) && !is_used(Lang::Ts, tokens, name)
}

fn ts_declared(tokens: &[Spelled], round: &[u32], curly: &[u32], name: usize) -> Option<Found>
    requires rounds { tables.ArePartners lang.Ts kind.Round tokens.now round.now }
    requires curlies { tables.ArePartners lang.Ts kind.Curly tokens.now curly.now }
    requires within { name < length tokens.now }
    ensures { result ≡ names.ts_declared tokens.now name }
{
    if !is_own(tokens, name) {
        return None;
    }
    let first = typed_parameters(tokens, name + 1);
    if !stands(Lang::Ts, tokens, first, b"(") {
        return None;
    }
    let close = partner(Lang::Ts, Kind::Round, tokens, round, first);
    let open = behind_result(tokens, close + 1);
    with_body(Lang::Ts, tokens, curly, name, open)
}

// Where the value of a name begins.
fn value_place(tokens: &[Spelled], name: usize) -> usize
    requires { name < length tokens.now }
    ensures { result ≡ names.value_place tokens.now name }
{
    if !stands(Lang::Ts, tokens, name + 1, b":") {
        return name + 2;
    }
    let end = type_end(Types::Value, tokens, name + 1);
    if stands(Lang::Ts, tokens, end, b"=") {
        end + 1
    } else {
        name + 2
    }
}

fn is_type_name(tokens: &[Spelled], name: usize) -> bool
    requires { name < length tokens.now }
    ensures { result ≡ names.is_type_name tokens.now name }
{
    stands(Lang::Ts, tokens, name + 1, b"=")
        && (stands_before(Lang::Ts, tokens, name, b":")
            || stands_before(Lang::Ts, tokens, name, b"|")
            || stands_before(Lang::Ts, tokens, name, b"&"))
}

fn ts_value(tokens: &[Spelled], round: &[u32], curly: &[u32], name: usize) -> Option<Found>
    requires rounds { tables.ArePartners lang.Ts kind.Round tokens.now round.now }
    requires curlies { tables.ArePartners lang.Ts kind.Curly tokens.now curly.now }
    requires within { name < length tokens.now }
    ensures { result ≡ names.ts_value tokens.now name }
{
    if is_type_name(tokens, name) {
        return None;
    }
    let at = past(Lang::Ts, b"async", tokens, value_place(tokens, name));
    let first = typed_parameters(tokens, expressed(Lang::Ts, tokens, at));
    if !stands(Lang::Ts, tokens, first, b"(") {
        return None;
    }
    let close = partner(Lang::Ts, Kind::Round, tokens, round, first);
    let behind = behind_result(tokens, close + 1);
    let open = arrow_open(Lang::Ts, tokens, at, behind);
    with_body(Lang::Ts, tokens, curly, name, open)
}

fn ts_function(tokens: &[Spelled], round: &[u32], curly: &[u32], name: usize) -> Option<Found>
    requires rounds { tables.ArePartners lang.Ts kind.Round tokens.now round.now }
    requires curlies { tables.ArePartners lang.Ts kind.Curly tokens.now curly.now }
    requires within { name < length tokens.now }
    ensures { result ≡ names.ts_function tokens.now name }
{
    if is_given(Lang::Ts, tokens, name) {
        ts_value(tokens, round, curly, name)
    } else {
        ts_declared(tokens, round, curly, name)
    }
}

/// The functions of a text of TypeScript.
pub(crate) fn ts_functions(alloc: Global, tokens: &[Spelled]) -> Result<Vec<Found>, Memory>
    requires { length tokens.now ≤ 262144 }
    ensures { IfOk result (λ v. v.items ≡ spec.found lang.Ts tokens.now) }
{
    let signs = signs(alloc, Lang::Ts, tokens)?;
    let round = partners(alloc, Lang::Ts, Kind::Round, tokens, &signs)?;
    let curly = partners(alloc, Lang::Ts, Kind::Curly, tokens, &signs)?;
    let mut found = Vec::new(alloc);
    for name in 0..tokens.len() {
        keep(&mut found, ts_function(tokens, &round, &curly, name))?;
    }
    Ok(found)
}
