ghost use Rattle.std.specs.Prelude.{◌≡◌, ◌≤◌, ◌-◌, ◌==◌, length, slice_index_or};
ghost use Rattle.cq_base.specs.declared.token.Class.TheVariants.{Punct, Word};
ghost use Rattle.cq_munch.specs.Characters.{characters};
ghost use Rattle.cq_lex_js.specs.Modes as spec;
ghost use Rattle.cq_lex_js.specs.Stack.{WhatIsOpenIsAStack};

use cq_base::Class;
use cq_munch::{Spell, Unit, is_spelled, starts_with};

pub(crate) fn with_token(mode: u64, token: u64) -> u64
    requires { token ≤ 3 }
    ensures { result ≡ spec.with_token mode token }
{
    mode / 4 * 4 + token
}

/// Whether a slash begins a regular expression, and a less-than sign an element of JSX.
pub(crate) fn expects_operand(mode: u64) -> bool
    ensures { result ≡ spec.expects_operand mode }
{
    mode % 4 != 1
}

/// Whether a name is a property's.
pub(crate) fn is_after_point(mode: u64) -> bool
    ensures { result ≡ spec.is_after_point mode }
{
    mode % 4 == 2
}

/// Whether so much is open that nothing more may be.
pub(crate) fn is_full(mode: u64) -> bool
    ensures { result ≡ spec.is_full mode }
{
    mode >= 1_152_921_504_606_846_976
}

fn opened(mode: u64, digit: u64) -> u64
    requires { digit ≤ 3 }
    ensures { result ≡ spec.opened mode digit }
{
    if is_full(mode) {
        mode
    } else {
        (mode / 4 * 4 + digit) * 4
    }
}

fn closed(mode: u64) -> u64
    ensures { result ≡ spec.closed mode }
{
    mode / 16 * 4
}

/// Whether a closing brace ends a substitution.
pub(crate) fn ends_substitution(mode: u64) -> bool
    ensures { result ≡ spec.ends_substitution mode }
{
    mode / 4 % 4 == 1
}

/// Whether the children of an element of JSX are read.
pub(crate) fn is_among_children(mode: u64) -> bool
    ensures { result ≡ spec.is_among_children mode }
{
    mode / 4 % 4 == 2
}

/// Whether a tag of JSX is read.
pub(crate) fn is_in_tag(mode: u64) -> bool
    ensures { result ≡ spec.is_in_tag mode }
{
    mode / 4 % 4 == 3
}

/// Whether a child or a tag of JSX is read.
pub(crate) fn is_in_element(mode: u64) -> bool
    ensures { result ≡ spec.is_in_element mode }
{
    is_among_children(mode) || is_in_tag(mode)
}

fn after_element(mode: u64) -> u64
    ensures { result ≡ spec.after_element mode }
{
    let around = closed(mode);
    if is_in_element(around) {
        return around;
    }
    with_token(around, 1)
}

fn after_tag(mode: u64) -> u64
    ensures { result ≡ spec.after_tag mode }
{
    mode / 16 * 4 * 4 + 2 * 4
}

fn after_sign_of_child(mode: u64, units: &[Unit]) -> u64
    ensures { result ≡ spec.after_child mode Punct (characters units.now) }
{
    if is_spelled(b"{", units) {
        return opened(mode, 0);
    }
    if is_spelled(b"<", units) {
        return opened(mode, 3);
    }
    after_element(mode)
}

fn after_child(mode: u64, class: Class, units: &[Unit]) -> u64
    ensures { result ≡ spec.after_child mode class (characters units.now) }
{
    match class {
        Class::Literal => with_token(mode, 0),
        Class::Punct => after_sign_of_child(mode, units),
        Class::Ident | Class::Word => mode,
    }
}

fn after_sign_of_tag(mode: u64, units: &[Unit]) -> u64
    ensures { result ≡ spec.after_tag_token mode Punct (characters units.now) }
{
    if is_spelled(b"{", units) {
        return opened(mode, 0);
    }
    if is_spelled(b"<", units) {
        return opened(mode, 3);
    }
    if is_spelled(b"/", units) {
        return with_token(mode, 3);
    }
    if is_spelled(b">", units) {
        if mode % 4 == 3 {
            return after_element(mode);
        }
        return after_tag(mode);
    }
    with_token(mode, 0)
}

fn after_tag_token(mode: u64, class: Class, units: &[Unit]) -> u64
    ensures { result ≡ spec.after_tag_token mode class (characters units.now) }
{
    match class {
        Class::Punct => after_sign_of_tag(mode, units),
        Class::Ident | Class::Word | Class::Literal => with_token(mode, 0),
    }
}

fn after_word(mode: u64, word: &[Unit]) -> u64
    ensures { result ≡ spec.after_token mode Word (characters word.now) }
{
    let ends = is_spelled(b"this", word)
        || is_spelled(b"super", word)
        || is_spelled(b"null", word)
        || is_spelled(b"true", word)
        || is_spelled(b"false", word);
    if ends {
        with_token(mode, 1)
    } else {
        with_token(mode, 0)
    }
}

fn ends_with_brace(units: &[Unit]) -> bool
    ensures { result ≡ (slice_index_or (characters units.now) (length (characters units.now) - 1) 0 == 123) }
{
    if units.is_empty() {
        return false;
    }
    units[units.len() - 1].ch == '{'
}

fn after_literal(mode: u64, units: &[Unit]) -> u64
    ensures { result ≡ spec.after_literal mode (characters units.now) }
{
    if ends_with_brace(units) {
        if starts_with('`', units) {
            return opened(mode, 1);
        }
        return with_token(mode, 0);
    }
    if starts_with('}', units) {
        return with_token(closed(mode), 1);
    }
    with_token(mode, 1)
}

pub(crate) fn after_punctuator(mode: u64, units: &[Unit]) -> u64
    ensures { result ≡ spec.after_punctuator mode (characters units.now) }
{
    if is_spelled(b"{", units) {
        return opened(mode, 0);
    }
    if is_spelled(b"}", units) {
        return closed(mode);
    }
    let ends = is_spelled(b")", units)
        || is_spelled(b"]", units)
        || is_spelled(b"++", units)
        || is_spelled(b"--", units);
    if ends {
        return with_token(mode, 1);
    }
    if is_spelled(b".", units) || is_spelled(b"?.", units) {
        return with_token(mode, 2);
    }
    if is_spelled(b"<", units) && expects_operand(mode) {
        return opened(mode, 3);
    }
    with_token(mode, 0)
}

pub(crate) fn after_token(mode: u64, class: Class, units: &[Unit]) -> u64
    ensures { result ≡ spec.after_token mode class (characters units.now) }
{
    match class {
        Class::Ident => with_token(mode, 1),
        Class::Word => after_word(mode, units),
        Class::Literal => after_literal(mode, units),
        Class::Punct => after_punctuator(mode, units),
    }
}

fn after_any(mode: u64, class: Class, units: &[Unit]) -> u64
    ensures { result ≡ spec.after_any mode class (characters units.now) }
{
    if is_among_children(mode) {
        return after_child(mode, class, units);
    }
    if is_in_tag(mode) {
        return after_tag_token(mode, class, units);
    }
    after_token(mode, class, units)
}

/// The mode after an element of the language of these units.
pub(crate) fn mode_behind(mode: u64, spell: Spell, units: &[Unit]) -> u64
    ensures { result ≡ spec.mode_behind mode spell (characters units.now) }
{
    match spell {
        Spell::Blank | Spell::Comment => mode,
        Spell::Token(class) => after_any(mode, class, units),
    }
}

/// What is open is a stack: one is put on and taken off, and no two stacks have one number.
pub fn what_is_open_is_a_stack()
    ensures { WhatIsOpenIsAStack }
{}
