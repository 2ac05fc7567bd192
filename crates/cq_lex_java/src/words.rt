ghost use Rattle.std.specs.Prelude.{◌≡◌};
ghost use Rattle.cq_lex_java.specs.Words.{begins_identifier, continues_identifier, stood};

use cq_munch::StandIn;

// Whether an identifier may begin with the character.
#[tactic(auto, unfolding(crate::specs::Words::begins_identifier))]
fn begins_identifier(ch: char) -> bool
    ensures { result ≡ begins_identifier ch }
{
    unicode_ident::is_xid_start(ch) || ch == '_' || ch == '$'
}

// Whether an identifier may continue with the character.
#[tactic(auto, unfolding(crate::specs::Words::continues_identifier))]
fn continues_identifier(ch: char) -> bool
    ensures { result ≡ continues_identifier ch }
{
    unicode_ident::is_xid_continue(ch) || ch == '$'
}

/// How the table sees characters past ASCII.
#[derive(Clone, Copy, Debug, PartialEq, Eq)]
pub(crate) struct Seen;

impl StandIn for Seen {
    ghost stood = { stood };

    fn stand_in(ch: char) -> u32 {
        if ch.is_ascii() {
            return ch as u32;
        }
        if begins_identifier(ch) {
            return 128;
        }
        if continues_identifier(ch) { 129 } else { 130 }
    }
}

/// The 51 keywords, and true, false and null, by their first letter.
pub(crate) const RESERVED: [&[&[u8]]; 27] = [
    &[b"abstract", b"assert"],
    &[b"boolean", b"break", b"byte"],
    &[b"case", b"catch", b"char", b"class", b"const", b"continue"],
    &[b"default", b"do", b"double"],
    &[b"else", b"enum", b"extends"],
    &[b"false", b"final", b"finally", b"float", b"for"],
    &[b"goto"],
    &[],
    &[
        b"if",
        b"implements",
        b"import",
        b"instanceof",
        b"int",
        b"interface",
    ],
    &[],
    &[],
    &[b"long"],
    &[],
    &[b"native", b"new", b"null"],
    &[],
    &[b"package", b"private", b"protected", b"public"],
    &[],
    &[b"return"],
    &[
        b"short",
        b"static",
        b"strictfp",
        b"super",
        b"switch",
        b"synchronized",
    ],
    &[b"this", b"throw", b"throws", b"transient", b"true", b"try"],
    &[],
    &[b"void", b"volatile"],
    &[b"while"],
    &[],
    &[],
    &[],
    &[b"_"],
];
