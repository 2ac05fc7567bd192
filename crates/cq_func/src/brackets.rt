ghost use Rattle.std.specs.Prelude.{◌≡◌, ◌+◌, ◌-◌, ◌≤◌, ◌<◌, IfOk, if◌then◌else◌, length, map, take, drop};
ghost use Rattle.cq_func.specs.Brackets as spec;
ghost use Rattle.cq_func.specs.Levels as level;
ghost use Rattle.cq_func.specs.Tables as tables;

use crate::places::places_above;
use crate::spelling::spelling;
use cq_base::{Lang, Memory, Spelled};
use std::alloc::Global;

/// Which brackets are counted.
#[derive(Clone, Copy, Debug, PartialEq, Eq)]
pub(crate) enum Kind {
    /// `(` and `)`.
    Round,
    /// `[` and `]`.
    Square,
    /// `{` and `}`.
    Curly,
    /// All three together.
    All,
}

fn opens_with(kind: Kind, byte: u8) -> bool
    ensures { result ≡ spec.opens_with kind byte }
{
    match kind {
        Kind::Round => byte == b'(',
        Kind::Square => byte == b'[',
        Kind::Curly => byte == b'{',
        Kind::All => byte == b'(' || byte == b'[' || byte == b'{',
    }
}

fn closes_with(kind: Kind, byte: u8) -> bool
    ensures { result ≡ spec.closes_with kind byte }
{
    match kind {
        Kind::Round => byte == b')',
        Kind::Square => byte == b']',
        Kind::Curly => byte == b'}',
        Kind::All => byte == b')' || byte == b']' || byte == b'}',
    }
}

fn sign(lang: Lang, token: &Spelled) -> u8
    ensures { result ≡ spec.sign_of lang token.now }
{
    match spelling(lang, token) {
        [byte] => *byte,
        _ => 0,
    }
}

/// The sign of each token, which identifies brackets: the byte of its spelling if it has only one, else 0.
pub(crate) fn signs(alloc: Global, lang: Lang, tokens: &[Spelled]) -> Result<Vec<u8>, Memory>
    ensures { IfOk result (λ v. v.items ≡ map (spec.sign_of lang) tokens.now) }
{
    let mut signs = Vec::with_capacity(alloc, tokens.len())?;
    for token in tokens {
        signs.push(sign(lang, token))?;
    }
    Ok(signs)
}

fn one_if(holds: bool) -> u32
    ensures { result ≡ (if holds then 1 else 0) }
{
    if holds { 1 } else { 0 }
}

// The level after a token of this sign.
fn next_level(kind: Kind, sign: u8, level: u32) -> u32
    requires high { level ≤ 1000000 }
    requires low { (if spec.closes_with kind sign then 1 else 0)
        ≤ level + (if spec.opens_with kind sign then 1 else 0) }
    ensures { result + (if spec.closes_with kind sign then 1 else 0)
        ≡ level + (if spec.opens_with kind sign then 1 else 0) }
{
    level + one_if(opens_with(kind, sign)) - one_if(closes_with(kind, sign))
}

/// The level before each token, and after the last: the number of tokens, plus the openings and less the closings before
/// it.
pub(crate) fn levels(
    alloc: Global,
    lang: Lang,
    kind: Kind,
    tokens: &[Spelled],
    signs: &[u8],
) -> Result<Vec<u32>, Memory>
    requires few { length tokens.now ≤ 262144 }
    requires signs { signs.now ≡ map (spec.sign_of lang) tokens.now }
    ensures { IfOk result (λ v. level.AreLevels lang kind tokens.now v.items) }
{
    let mut levels = Vec::with_capacity(alloc, tokens.len() + 1)?;
    let mut level = tokens.len() as u32;
    levels.push(level)?;
    for sign in signs {
        level = next_level(kind, *sign, level);
        levels.push(level)?;
    }
    Ok(levels)
}

/// Whether the tokens before a place hold equally many openings and closings.
pub(crate) fn is_even(lang: Lang, kind: Kind, tokens: &[Spelled], levels: &[u32], at: usize) -> bool
    requires counted { level.AreLevels lang kind tokens.now levels.now }
    requires within { at ≤ length tokens.now }
    requires few { length tokens.now ≤ 262144 }
    ensures { result ≡ spec.are_even lang kind (spec.before tokens.now at) }
{
    levels[at] as usize == tokens.len()
}

/// The levels before the tokens.
fn before_each(levels: &[u32]) -> &[u32]
    requires { 1 ≤ length levels.now }
    ensures { result.now ≡ take (length levels.now - 1) levels.now }
{
    &levels[..levels.len() - 1]
}

/// The levels after the tokens.
pub(crate) fn behind_each(levels: &[u32]) -> &[u32]
    requires { 1 ≤ length levels.now }
    ensures { result.now ≡ drop 1 levels.now }
{
    &levels[1..]
}

/// The partner of each token that opens a bracket of the kind, by the levels.
pub(crate) fn partners_by(
    alloc: Global,
    lang: Lang,
    kind: Kind,
    tokens: &[Spelled],
    levels: &[u32],
) -> Result<Vec<u32>, Memory>
    requires few { length tokens.now ≤ 262144 }
    requires counted { level.AreLevels lang kind tokens.now levels.now }
    ensures { IfOk result (λ t. tables.ArePartners lang kind tokens.now t.items) }
{
    let wanted = before_each(levels);
    let marks = behind_each(levels);
    places_above(alloc, wanted, marks, 2 * tokens.len() + 1)
}

/// The partner of each token that opens a bracket of the kind.
pub(crate) fn partners(
    alloc: Global,
    lang: Lang,
    kind: Kind,
    tokens: &[Spelled],
    signs: &[u8],
) -> Result<Vec<u32>, Memory>
    requires few { length tokens.now ≤ 262144 }
    requires signs { signs.now ≡ map (spec.sign_of lang) tokens.now }
    ensures { IfOk result (λ t. tables.ArePartners lang kind tokens.now t.items) }
{
    let levels = levels(alloc, lang, kind, tokens, signs)?;
    partners_by(alloc, lang, kind, tokens, &levels)
}

/// The partner of the token at a place.
pub(crate) fn partner(
    lang: Lang,
    kind: Kind,
    tokens: &[Spelled],
    partners: &[u32],
    at: usize,
) -> usize
    requires table { tables.ArePartners lang kind tokens.now partners.now }
    requires within { at < length tokens.now }
    ensures is { result ≡ spec.partner lang kind tokens.now at }
    ensures bound { result ≤ length tokens.now }
{
    partners[at] as usize
}
