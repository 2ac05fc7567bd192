ghost use Rattle.std.specs.Prelude.{◌≡◌};
ghost use Rattle.cq_lex_js.specs.Characters.{begins_name, continues_name, is_separator, is_wide_blank, lined, stood};

use cq_munch::StandIn;

fn is_separator(ch: char) -> bool
    ensures { result ≡ is_separator ch }
{
    ch == '\u{2028}' || ch == '\u{2029}'
}

// Whether the character is a blank past ASCII.
#[tactic(auto, unfolding(crate::specs::Characters::is_wide_blank))]
fn is_wide_blank(ch: char) -> bool
    ensures { result ≡ is_wide_blank ch }
{
    ch == '\u{A0}'
        || ch == '\u{1680}'
        || ch >= '\u{2000}' && ch <= '\u{200A}'
        || ch == '\u{202F}'
        || ch == '\u{205F}'
        || ch == '\u{3000}'
        || ch == '\u{FEFF}'
        || is_separator(ch)
}

#[tactic(auto, unfolding(crate::specs::Characters::begins_name))]
fn begins_name(ch: char) -> bool
    ensures { result ≡ begins_name ch }
{
    ucd_derived::is_id_start(ch) || ch == '$' || ch == '_'
}

#[tactic(auto, unfolding(crate::specs::Characters::continues_name))]
fn continues_name(ch: char) -> bool
    ensures { result ≡ continues_name ch }
{
    ucd_derived::is_id_continue(ch) || ch == '$' || ch == '\u{200C}' || ch == '\u{200D}'
}

/// How the table of names and punctuators sees characters past ASCII.
#[derive(Clone, Copy, Debug, PartialEq, Eq)]
pub(crate) struct Seen;

impl StandIn for Seen {
    ghost stood = { stood };

    fn stand_in(ch: char) -> u32 {
        if ch.is_ascii() {
            return ch as u32;
        }
        if is_wide_blank(ch) {
            return 32;
        }
        if begins_name(ch) {
            return 128;
        }
        if continues_name(ch) { 129 } else { 130 }
    }
}

/// How the table of literals does.
#[derive(Clone, Copy, Debug, PartialEq, Eq)]
pub(crate) struct Lined;

impl StandIn for Lined {
    ghost stood = { lined };

    fn stand_in(ch: char) -> u32 {
        if ch.is_ascii() {
            return ch as u32;
        }
        if is_separator(ch) { 128 } else { 130 }
    }
}

/// The 38 reserved words by their first letter.
pub(crate) const RESERVED: [&[&[u8]]; 25] = [
    &[b"await"],
    &[b"break"],
    &[b"case", b"catch", b"class", b"const", b"continue"],
    &[b"debugger", b"default", b"delete", b"do"],
    &[b"else", b"enum", b"export", b"extends"],
    &[b"false", b"finally", b"for", b"function"],
    &[],
    &[],
    &[b"if", b"import", b"in", b"instanceof"],
    &[],
    &[],
    &[],
    &[],
    &[b"new", b"null"],
    &[],
    &[],
    &[],
    &[b"return"],
    &[b"super", b"switch"],
    &[b"this", b"throw", b"true", b"try", b"typeof"],
    &[],
    &[b"var", b"void"],
    &[b"while", b"with"],
    &[],
    &[b"yield"],
];
