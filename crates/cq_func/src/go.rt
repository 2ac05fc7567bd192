ghost use Rattle.std.specs.Prelude.{◌≡◌, ◌≤◌, ◌<◌, ◌+◌, IfOk, length};
ghost use Rattle.cq_base.specs.declared.lang.Lang.TheVariants as lang;
ghost use Rattle.cq_func.specs.declared.brackets.Kind.TheVariants as kind;
ghost use Rattle.cq_func.specs.Functions as spec;
ghost use Rattle.cq_func.specs.Levels as level;
ghost use Rattle.cq_func.specs.Names as names;
ghost use Rattle.cq_func.specs.Tables as table;
ghost use Rattle.cq_func.specs.GoTables as all;

use crate::brackets::{Kind, behind_each, is_even, levels, partner, partners, signs};
use crate::found::{Found, keep};
use crate::places::{first_places, places_above};
use crate::spelling::{is_name, stands, stands_before};
use cq_base::{Lang, Memory, Spelled};
use std::alloc::Global;

// ---- where a declaration begins, and its name

fn go_begins(tokens: &[Spelled], levels: &[u32], at: usize) -> bool
    requires counted { level.AreLevels lang.Go kind.All tokens.now levels.now }
    requires few { length tokens.now ≤ 262144 }
    requires within { at < length tokens.now }
    ensures { result ≡ names.go_begins tokens.now at }
{
    stands(Lang::Go, tokens, at, b"func")
        && (at == 0 || stands_before(Lang::Go, tokens, at, b";"))
        && is_even(Lang::Go, Kind::All, tokens, levels, at)
}

fn go_name(tokens: &[Spelled], levels: &[u32], round: &[u32], at: usize) -> usize
    requires counted { level.AreLevels lang.Go kind.All tokens.now levels.now }
    requires rounds { table.ArePartners lang.Go kind.Round tokens.now round.now }
    requires few { length tokens.now ≤ 262144 }
    requires within { at < length tokens.now }
    ensures is { result ≡ names.go_name tokens.now at }
    ensures bound { result ≤ length tokens.now + 1 }
{
    if !go_begins(tokens, levels, at) {
        return tokens.len();
    }
    if is_name(tokens, at + 1) {
        return at + 1;
    }
    if stands(Lang::Go, tokens, at + 1, b"(") {
        partner(Lang::Go, Kind::Round, tokens, round, at + 1) + 1
    } else {
        tokens.len()
    }
}

fn name_marks(
    alloc: Global,
    tokens: &[Spelled],
    levels: &[u32],
    round: &[u32],
) -> Result<Vec<u32>, Memory>
    requires counted { level.AreLevels lang.Go kind.All tokens.now levels.now }
    requires rounds { table.ArePartners lang.Go kind.Round tokens.now round.now }
    requires few { length tokens.now ≤ 262144 }
    ensures { IfOk result (λ v. v.items ≡ table.marks_by (names.go_name tokens.now) tokens.now) }
{
    let mut marks = Vec::with_capacity(alloc, tokens.len())?;
    for at in 0..tokens.len() {
        marks.push(go_name(tokens, levels, round, at) as u32)?;
    }
    Ok(marks)
}

// The `func` of each name.
fn funcs(
    alloc: Global,
    tokens: &[Spelled],
    levels: &[u32],
    round: &[u32],
) -> Result<Vec<u32>, Memory>
    requires counted { level.AreLevels lang.Go kind.All tokens.now levels.now }
    requires rounds { table.ArePartners lang.Go kind.Round tokens.now round.now }
    requires few { length tokens.now ≤ 262144 }
    ensures { IfOk result (λ t. table.AreFuncs tokens.now t.items) }
{
    let marks = name_marks(alloc, tokens, levels, round)?;
    first_places(alloc, &marks, tokens.len() + 3)
}

// ---- where it ends

fn end_mark(tokens: &[Spelled], levels: &[u32], at: usize) -> u32
    requires counted { level.AreLevels lang.Go kind.All tokens.now levels.now }
    requires few { length tokens.now ≤ 262144 }
    requires within { at < length tokens.now }
    ensures { result ≡ level.end_mark tokens.now at }
{
    if stands(Lang::Go, tokens, at, b";") {
        levels[at]
    } else {
        2 * tokens.len() as u32 + 1
    }
}

fn end_marks(alloc: Global, tokens: &[Spelled], levels: &[u32]) -> Result<Vec<u32>, Memory>
    requires counted { level.AreLevels lang.Go kind.All tokens.now levels.now }
    requires few { length tokens.now ≤ 262144 }
    ensures { IfOk result (λ v. v.items ≡ table.marks_by (level.end_mark tokens.now) tokens.now) }
{
    let mut marks = Vec::with_capacity(alloc, tokens.len())?;
    for at in 0..tokens.len() {
        marks.push(end_mark(tokens, levels, at))?;
    }
    Ok(marks)
}

// The semicolon that ends a declaration whose parameters close at each place.
fn ends(alloc: Global, tokens: &[Spelled], levels: &[u32]) -> Result<Vec<u32>, Memory>
    requires counted { level.AreLevels lang.Go kind.All tokens.now levels.now }
    requires few { length tokens.now ≤ 262144 }
    ensures { IfOk result (λ t. table.AreEnds tokens.now t.items) }
{
    let marks = end_marks(alloc, tokens, levels)?;
    let wanted = behind_each(levels);
    places_above(alloc, wanted, &marks, 2 * tokens.len() + 2)
}

fn open_mark(tokens: &[Spelled], curly: &[u32], at: usize) -> u32
    requires curlies { table.ArePartners lang.Go kind.Curly tokens.now curly.now }
    requires few { length tokens.now ≤ 262144 }
    requires within { at < length tokens.now }
    ensures is { result ≡ table.open_mark tokens.now at }
    ensures bound { result ≤ length tokens.now }
{
    if stands(Lang::Go, tokens, at, b"{") {
        partner(Lang::Go, Kind::Curly, tokens, curly, at) as u32
    } else {
        tokens.len() as u32
    }
}

fn open_marks(alloc: Global, tokens: &[Spelled], curly: &[u32]) -> Result<Vec<u32>, Memory>
    requires curlies { table.ArePartners lang.Go kind.Curly tokens.now curly.now }
    requires few { length tokens.now ≤ 262144 }
    ensures { IfOk result (λ v. v.items ≡ table.marks_by (table.open_mark tokens.now) tokens.now) }
{
    let mut marks = Vec::with_capacity(alloc, tokens.len())?;
    for at in 0..tokens.len() {
        marks.push(open_mark(tokens, curly, at))?;
    }
    Ok(marks)
}

// The brace whose partner is at each place.
fn opens(alloc: Global, tokens: &[Spelled], curly: &[u32]) -> Result<Vec<u32>, Memory>
    requires curlies { table.ArePartners lang.Go kind.Curly tokens.now curly.now }
    requires few { length tokens.now ≤ 262144 }
    ensures { IfOk result (λ t. table.AreOpens tokens.now t.items) }
{
    let marks = open_marks(alloc, tokens, curly)?;
    first_places(alloc, &marks, tokens.len() + 1)
}

// ---- functions

// What is looked up of a text's tokens.
#[derive(Drop)]
struct Tables {
    round: Vec<u32>,
    square: Vec<u32>,
    funcs: Vec<u32>,
    ends: Vec<u32>,
    opens: Vec<u32>,
}

fn look_up(alloc: Global, tokens: &[Spelled]) -> Result<Tables, Memory>
    requires { length tokens.now ≤ 262144 }
    ensures { IfOk result (λ t. all.AreTables tokens.now t) }
{
    let signs = signs(alloc, Lang::Go, tokens)?;
    let levels = levels(alloc, Lang::Go, Kind::All, tokens, &signs)?;
    let round = partners(alloc, Lang::Go, Kind::Round, tokens, &signs)?;
    let square = partners(alloc, Lang::Go, Kind::Square, tokens, &signs)?;
    let curly = partners(alloc, Lang::Go, Kind::Curly, tokens, &signs)?;
    let funcs = funcs(alloc, tokens, &levels, &round)?;
    let ends = ends(alloc, tokens, &levels)?;
    let opens = opens(alloc, tokens, &curly)?;
    Ok(Tables {
        round,
        square,
        funcs,
        ends,
        opens,
    })
}

fn is_type(tokens: &[Spelled], brace: usize) -> bool
    ensures { result ≡ names.is_type tokens.now brace }
{
    stands_before(Lang::Go, tokens, brace, b"interface")
        || stands_before(Lang::Go, tokens, brace, b"struct")
}

fn go_body(tokens: &[Spelled], tables: &Tables, name: usize, close: usize) -> Option<Found>
    requires looked_up { all.AreTables tokens.now tables.now }
    requires within { close < length tokens.now }
    ensures { result ≡ names.go_body tokens.now name close }
{
    let end = tables.ends[close] as usize;
    if end >= tokens.len() {
        return None;
    }
    let brace = tables.opens[end - 1] as usize;
    if close < brace && brace < tokens.len() && !is_type(tokens, brace) {
        Some(Found {
            name,
            brace,
            close: end - 1,
        })
    } else {
        None
    }
}

fn go_parameters(tokens: &[Spelled], tables: &Tables, name: usize) -> usize
    requires looked_up { all.AreTables tokens.now tables.now }
    requires within { name < length tokens.now }
    ensures { result ≡ names.go_parameters tokens.now name }
{
    if stands(Lang::Go, tokens, name + 1, b"[") {
        partner(Lang::Go, Kind::Square, tokens, &tables.square, name + 1) + 1
    } else {
        name + 1
    }
}

fn go_function(tokens: &[Spelled], tables: &Tables, name: usize) -> Option<Found>
    requires looked_up { all.AreTables tokens.now tables.now }
    requires within { name < length tokens.now }
    ensures { result ≡ names.go_function tokens.now name }
{
    if !is_name(tokens, name) || tables.funcs[name] as usize >= tokens.len() {
        return None;
    }
    let first = go_parameters(tokens, tables, name);
    if !stands(Lang::Go, tokens, first, b"(") {
        return None;
    }
    let close = partner(Lang::Go, Kind::Round, tokens, &tables.round, first);
    if close < tokens.len() {
        go_body(tokens, tables, name, close)
    } else {
        None
    }
}

/// The functions of a text of Go.
pub(crate) fn go_functions(alloc: Global, tokens: &[Spelled]) -> Result<Vec<Found>, Memory>
    requires { length tokens.now ≤ 262144 }
    ensures { IfOk result (λ v. v.items ≡ spec.found lang.Go tokens.now) }
{
    let tables = look_up(alloc, tokens)?;
    let mut found = Vec::new(alloc);
    for name in 0..tokens.len() {
        keep(&mut found, go_function(tokens, &tables, name))?;
    }
    Ok(found)
}
