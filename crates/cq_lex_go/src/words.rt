ghost use Rattle.std.specs.Prelude.{◌≡◌};
ghost use Rattle.cq_lex_go.specs.Words.{is_digit, is_letter, is_letter_category, stood};

use cq_munch::StandIn;
use unicode::properties::GeneralCategory;

fn is_letter_category(category: GeneralCategory) -> bool
    ensures { result ≡ is_letter_category category }
{
    matches!(
        category,
        GeneralCategory::UppercaseLetter
            | GeneralCategory::LowercaseLetter
            | GeneralCategory::TitlecaseLetter
            | GeneralCategory::ModifierLetter
            | GeneralCategory::OtherLetter
    )
}

#[tactic(auto, unfolding(crate::specs::Words::is_letter))]
fn is_letter(ch: char) -> bool
    ensures { result ≡ is_letter ch }
{
    ch == '_' || is_letter_category(GeneralCategory::for_char(ch))
}

#[tactic(auto, unfolding(crate::specs::Words::is_digit))]
fn is_digit(ch: char) -> bool
    ensures { result ≡ is_digit ch }
{
    GeneralCategory::for_char(ch) == GeneralCategory::DecimalNumber
}

/// How the table sees characters past ASCII.
#[derive(Clone, Copy, Debug, PartialEq, Eq)]
pub(crate) struct Seen;

impl StandIn for Seen {
    ghost stood = { stood };

    fn stand_in(ch: char) -> u32 {
        if ch.is_ascii() {
            return ch as u32;
        }
        if is_letter(ch) {
            return 128;
        }
        if is_digit(ch) { 129 } else { 130 }
    }
}

/// The 25 keywords by their first letter.
pub(crate) const RESERVED: [&[&[u8]]; 22] = [
    &[],
    &[b"break"],
    &[b"case", b"chan", b"const", b"continue"],
    &[b"default", b"defer"],
    &[b"else"],
    &[b"fallthrough", b"for", b"func"],
    &[b"go", b"goto"],
    &[],
    &[b"if", b"import", b"interface"],
    &[],
    &[],
    &[],
    &[b"map"],
    &[],
    &[],
    &[b"package"],
    &[],
    &[b"range", b"return"],
    &[b"select", b"struct", b"switch"],
    &[b"type"],
    &[],
    &[b"var"],
];
