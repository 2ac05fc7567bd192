ghost use Rattle.std.specs.Prelude.{◌≡◌, ◌≤◌, ◌+◌, length, true, false};
ghost use Rattle.cq_base.specs.declared.lang.Lang.TheVariants as lang;
ghost use Rattle.cq_measures.specs.Decisions as spec;

use cq_base::{Class, Lang, Spelled};

fn is_go_decision(text: &[u8]) -> bool
    ensures { result ≡ spec.is_among (spec.decisions lang.Go) text.now }
{
    matches!(text, b"if" | b"for" | b"case" | b"&&" | b"||")
}

fn is_c_decision(text: &[u8]) -> bool
    ensures { result ≡ spec.is_among (spec.decisions lang.C) text.now }
{
    matches!(text, b"while" | b"?") || is_go_decision(text)
}

fn is_java_decision(before: &[u8], text: &[u8]) -> bool
    ensures { result ≡ spec.decides lang.Java before.now text.now }
{
    match text {
        b"?" => !matches!(before, b"<" | b","),
        b"->" => true,
        _ => is_c_decision(text),
    }
}

fn is_js_decision(text: &[u8]) -> bool
    ensures { result ≡ spec.is_among (spec.decisions lang.Js) text.now }
{
    matches!(text, b"??") || is_c_decision(text)
}

fn is_ts_decision(text: &[u8]) -> bool
    ensures { result ≡ spec.is_among (spec.decisions lang.Ts) text.now }
{
    matches!(text, b"while" | b"??") || is_go_decision(text)
}

fn decides(lang: Lang, before: &[u8], text: &[u8]) -> bool
    ensures { result ≡ spec.decides lang before.now text.now }
{
    match lang {
        Lang::Any => false,
        Lang::Go => is_go_decision(text),
        Lang::C => is_c_decision(text),
        Lang::Java => is_java_decision(before, text),
        Lang::Js => is_js_decision(text),
        Lang::Ts => is_ts_decision(text),
    }
}

fn may_decide(class: Class) -> bool
    ensures { result ≡ spec.may_decide class }
{
    matches!(class, Class::Word | Class::Punct)
}

fn is_after_optional(text: &[u8]) -> bool
    ensures { result ≡ spec.is_among spec.after_optional text.now }
{
    matches!(text, b":" | b")" | b"," | b"]" | b"}" | b";")
}

fn is_after_choice(before: &[u8], text: &[u8]) -> bool
    ensures { result ≡ spec.is_chosen lang.Ts before.now text.now }
{
    matches!(before, b"?") && !is_after_optional(text)
}

// Whether a question mark before the token decides.
fn is_chosen(lang: Lang, before: &[u8], text: &[u8]) -> bool
    ensures { result ≡ spec.is_chosen lang before.now text.now }
{
    match lang {
        Lang::Ts => is_after_choice(before, text),
        Lang::Any | Lang::Go | Lang::C | Lang::Java | Lang::Js => false,
    }
}

/// Whether a token decides, `before` being the spelling directly before it, or empty.
pub fn is_decision(lang: Lang, before: &[u8], token: &Spelled) -> bool
    ensures { result ≡ spec.is_decision lang before.now token.now }
{
    let text = token.text.as_bytes();
    may_decide(token.token.class) && decides(lang, before, text) || is_chosen(lang, before, text)
}

/// Cyclomatic complexity, by tokens: 1 and the number of those that decide. In all languages but plain text these are `if`,
/// `for`, `case`, `&&` and `||`, in all but Go also `while` and `?`, in Java also `->`, and in JavaScript and TypeScript
/// also `??`. A `?` of Java directly after `<` or `,` is a wildcard and does not count, and neither does one of TypeScript
/// that makes something optional. It takes no memory.
pub fn complexity(lang: Lang, tokens: &[Spelled]) -> u64
    ensures number { result ≡ spec.complexity lang tokens.now }
    ensures within { result ≤ 1 + length tokens.now }
{
    let mut decisions = 0;
    let mut before: &[u8] = b"";
    for token in tokens {
        if is_decision(lang, before, token) {
            decisions += 1;
        }
        before = token.text.as_bytes();
    }
    1 + decisions
}
