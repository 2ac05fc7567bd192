ghost use Rattle.std.specs.Prelude.{◌≡◌, ◌<◌, ◌+◌, IsTrue, length};
ghost use Rattle.cq_func.specs.Brackets as spec;
ghost use Rattle.cq_func.specs.Names as names;
ghost use Rattle.cq_base.specs.declared.token.Class.TheVariants as class;

use cq_base::{Class, Lang, Spelled};
use cq_normal::meaning;

fn punctuation(lang: Lang, text: &[u8]) -> &[u8]
    ensures { result.now ≡ spec.spelling_of lang class.Punct text.now }
{
    match lang {
        Lang::C => match meaning(text) {
            Some(meant) => meant.as_bytes(),
            None => text,
        },
        Lang::Any | Lang::Go | Lang::Java | Lang::Js | Lang::Ts => text,
    }
}

/// As the token is compared if nothing is ignored.
pub(crate) fn spelling(lang: Lang, token: &Spelled) -> &[u8]
    ensures { result.now ≡ spec.spelling_of lang token.now.token.class token.now.text }
{
    match token.token.class {
        Class::Punct => punctuation(lang, token.text.as_bytes()),
        Class::Ident | Class::Word | Class::Literal => token.text.as_bytes(),
    }
}

pub(crate) fn is_spelled(lang: Lang, word: &[u8], token: &Spelled) -> bool
    ensures { result ≡ spec.is_spelled lang word.now token.now }
{
    spelling(lang, token) == word
}

/// Whether there is a token at the place and it is spelled so.
pub(crate) fn stands(lang: Lang, tokens: &[Spelled], at: usize, word: &[u8]) -> bool
    ensures is { result ≡ spec.stands lang tokens.now at word.now }
    ensures within { IsTrue result → at < length tokens.now }
{
    match tokens.get(at) {
        Some(token) => is_spelled(lang, word, token),
        None => false,
    }
}

/// Whether there is a token before the place and it is spelled so.
pub(crate) fn stands_before(lang: Lang, tokens: &[Spelled], at: usize, word: &[u8]) -> bool
    ensures { result ≡ spec.stands_before lang tokens.now at word.now }
{
    at > 0 && stands(lang, tokens, at - 1, word)
}

/// Whether there is an identifier at the place.
pub(crate) fn is_name(tokens: &[Spelled], at: usize) -> bool
    ensures is { result ≡ names.is_name tokens.now at }
    ensures within { IsTrue result → at < length tokens.now }
{
    match tokens.get(at) {
        Some(token) => matches!(token.token.class, Class::Ident),
        None => false,
    }
}

/// Whether there is an identifier at the place, and directly after it a parenthesis that opens.
pub(crate) fn is_called(lang: Lang, tokens: &[Spelled], name: usize) -> bool
    requires { name < length tokens.now }
    ensures is { result ≡ names.is_called lang tokens.now name }
    ensures within { IsTrue result → name + 1 < length tokens.now }
{
    is_name(tokens, name) && stands(lang, tokens, name + 1, b"(")
}
