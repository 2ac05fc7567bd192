ghost use Rattle.std.specs.Prelude.{◌≡◌};
ghost use Rattle.cq_lex_c.specs.Characters.{begins_identifier, continues_identifier, stood};

use cq_munch::StandIn;

// Whether an identifier may begin with the character.
#[tactic(auto, unfolding(crate::specs::Characters::begins_identifier))]
fn begins_identifier(ch: char) -> bool
    ensures { result ≡ begins_identifier ch }
{
    unicode_ident::is_xid_start(ch) || ch == '_' || ch == '$'
}

// Whether an identifier may continue with the character.
#[tactic(auto, unfolding(crate::specs::Characters::continues_identifier))]
fn continues_identifier(ch: char) -> bool
    ensures { result ≡ continues_identifier ch }
{
    unicode_ident::is_xid_continue(ch) || ch == '$'
}

/// How the table sees characters past ASCII.
#[derive(Clone, Copy, Debug, PartialEq, Eq)]
pub(crate) struct Seen;

impl StandIn for Seen {
    ghost stood = { stood };

    fn stand_in(ch: char) -> u32 {
        if ch.is_ascii() {
            return ch as u32;
        }
        if begins_identifier(ch) {
            return 128;
        }
        if continues_identifier(ch) { 129 } else { 130 }
    }
}
