ghost use Rattle.std.specs.Prelude.{◌≡◌, ◌<◌, true, None, Some, length, map, is_some, option_map};
ghost use Rattle.std.specs.List.{list_all, list_any, position_or_len};
ghost use Rattle.std.specs.Str.{bytes_eq, is_utf8};
ghost use Rattle.cq_words.specs.Front.{items_in, look_in, named_in, placed_in, read_in, word_in, IsFront, IsFrontOf};
ghost use Rattle.cq_words.specs.Front as spec;
ghost use Rattle.cq_words.specs.Grammar as grammar;
ghost use Rattle.cq_words.specs.Command.{command_after, command_from, command_of};
ghost use Rattle.cq_words.specs.Table as table;

use crate::numbers::{is_taken, number_within};
use crate::table::{
    Flag, Param, Verb, flag_name, flags_of, options_of, param_name, positionals_of, range_of,
    verb_named,
};
use cq_base::Text;
use std::str;

/// What a word looks like: `--name` or `--name=value`, another that begins with a hyphen, or one that doesn't.
#[derive(Clone, Copy)]
pub(crate) enum Look<'a> {
    Named(&'a [u8], Option<&'a [u8]>),
    Dashed,
    Plain,
}

// The place of the first `=`, or after the last byte if there is none.
fn equals_at(bytes: &[u8]) -> usize
    ensures { result ≡ position_or_len grammar.is_equals bytes.now }
{
    for at in 0..bytes.len() {
        if bytes[at] == b'=' {
            return at;
        }
    }
    bytes.len()
}

fn look_after_two<'a>(rest: &'a [u8]) -> Look<'a>
    ensures { look_in result ≡ grammar.look_after_two rest.entry.now }
{
    if rest.is_empty() {
        return Look::Dashed;
    }
    let at = equals_at(rest);
    if at < rest.len() {
        Look::Named(&rest[..at], Some(&rest[at + 1..]))
    } else {
        Look::Named(rest, None)
    }
}

fn look_of<'a>(word: &'a [u8]) -> Look<'a>
    ensures { look_in result ≡ grammar.look_of word.entry.now }
{
    match word {
        [b'-', b'-', rest @ ..] => look_after_two(rest),
        [b'-', ..] => Look::Dashed,
        _ => Look::Plain,
    }
}

fn has_param(params: &[Param], name: &[u8]) -> bool
    ensures { result ≡ grammar.has_name (map table.param_name params.now) name.now }
{
    for param in params {
        if param_name(*param).as_bytes() == name {
            return true;
        }
    }
    false
}

fn has_flag(flags: &[Flag], name: &[u8]) -> bool
    ensures { result ≡ grammar.has_name (map table.flag_name flags.now) name.now }
{
    for flag in flags {
        if flag_name(*flag).as_bytes() == name {
            return true;
        }
    }
    false
}

/// The words of a command that are left, after this many positionals.
#[derive(Clone, Copy)]
pub(crate) struct Left<'a> {
    pub verb: Verb,
    pub words: &'a [Text],
    pub placed: usize,
}

/// An option with its value, a flag or a positional, and the words after it.
#[derive(Clone, Copy)]
pub(crate) struct Front<'a> {
    pub name: &'a [u8],
    pub value: Option<&'a [u8]>,
    pub left: Left<'a>,
}

fn joined_front<'a>(name: &'a [u8], value: &'a [u8], left: Left<'a>) -> Option<Front<'a>>
    ensures { IsFront result left.entry
        (named_in left.entry name.entry.now (Some value.entry.now)) }
{
    if !has_param(options_of(left.verb), name) {
        return None;
    }
    Some(Front {
        name,
        value: Some(value),
        left,
    })
}

fn is_plain(word: &Text) -> bool
    ensures { result ≡ spec.is_plain (grammar.look_of word.now) }
{
    matches!(look_of(word.as_bytes()), Look::Plain)
}

// The option's value is the next word.
fn spaced_front<'a>(name: &'a [u8], left: Left<'a>) -> Option<Front<'a>>
    ensures { IsFront result left.entry (read_in left.entry (Some name.entry.now)) }
{
    let [value, rest @ ..] = left.words else {
        return None;
    };
    if !is_plain(value) {
        return None;
    }
    Some(Front {
        name,
        value: Some(value.as_bytes()),
        left: Left {
            verb: left.verb,
            words: rest,
            placed: left.placed,
        },
    })
}

fn bare_front<'a>(name: &'a [u8], left: Left<'a>) -> Option<Front<'a>>
    ensures { IsFront result left.entry (named_in left.entry name.entry.now None) }
{
    if has_param(options_of(left.verb), name) {
        return spaced_front(name, left);
    }
    if !has_flag(flags_of(left.verb), name) {
        return None;
    }
    Some(Front {
        name,
        value: None,
        left,
    })
}

fn placed_front<'a>(word: &'a [u8], left: Left<'a>) -> Option<Front<'a>>
    ensures { IsFront result left.entry (placed_in left.entry word.entry.now) }
{
    let places = positionals_of(left.verb);
    if left.placed >= places.len() {
        return None;
    }
    Some(Front {
        name: param_name(places[left.placed]).as_bytes(),
        value: Some(word),
        left: Left {
            verb: left.verb,
            words: left.words,
            placed: left.placed + 1,
        },
    })
}

fn front_behind<'a>(look: Look<'a>, word: &'a [u8], left: Left<'a>) -> Option<Front<'a>>
    ensures { IsFront result left.entry (word_in left.entry word.entry.now (look_in look.entry)) }
{
    match look {
        Look::Named(name, Some(value)) => joined_front(name, value, left),
        Look::Named(name, None) => bare_front(name, left),
        Look::Dashed => None,
        Look::Plain => placed_front(word, left),
    }
}

// The item at the front of the words that are left.
fn front_of<'a>(left: Left<'a>) -> Option<Front<'a>>
    requires { 0 < length left.words.now }
    ensures { IsFrontOf result left.entry }
{
    let [word, rest @ ..] = left.words else {
        return None;
    };
    let behind = Left {
        verb: left.verb,
        words: rest,
        placed: left.placed,
    };
    front_behind(look_of(word.as_bytes()), word.as_bytes(), behind)
}

// Whether the words are items, one after the other.
fn are_items(all: Left<'_>) -> bool
    ensures { result ≡ is_some (read_in all.entry None) }
{
    let mut left = all;
    'items: while !left.words.is_empty() {
        let Some(front) = front_of(left) else {
            return false;
        };
        left = front.left;
    }
    true
}

// Whether an item of the words has the name.
fn has_item(all: Left<'_>, name: &[u8]) -> bool
    requires { is_some (read_in all None) ≡ true }
    ensures { result ≡ list_any (λ other. bytes_eq name.now other.0) (items_in all.entry) }
{
    let mut left = all;
    'items: while !left.words.is_empty() {
        let Some(front) = front_of(left) else {
            return false;
        };
        if name == front.name {
            return true;
        }
        left = front.left;
    }
    false
}

// Whether no two items have one name.
fn are_distinct(all: Left<'_>) -> bool
    requires { is_some (read_in all None) ≡ true }
    ensures { result ≡ grammar.are_distinct (items_in all.entry) }
{
    let mut left = all;
    'items: while !left.words.is_empty() {
        let Some(front) = front_of(left) else {
            return false;
        };
        if has_item(front.left, front.name) {
            return false;
        }
        left = front.left;
    }
    true
}

fn is_within(value: Option<&[u8]>, param: Param) -> bool
    ensures { result ≡ spec.is_within param (option_map (λ v. v.now) value.entry) }
{
    let range = range_of(param);
    match value {
        Some(value) => number_within(range.low, range.high, value).is_some(),
        None => false,
    }
}

fn is_text_taken(value: Option<&[u8]>, param: Param) -> bool
    ensures { result ≡ spec.is_text param (option_map (λ v. v.now) value.entry) }
{
    match value {
        Some(value) => is_taken(param, value),
        None => false,
    }
}

// The first item of this name.
fn item_named<'a>(all: Left<'a>, name: &[u8]) -> Option<Front<'a>>
    requires { is_some (read_in all None) ≡ true }
    ensures { option_map spec.item_in result ≡ grammar.item_of name.now (items_in all.entry) }
{
    let mut left = all;
    'items: while !left.words.is_empty() {
        let Some(front) = front_of(left) else {
            return None;
        };
        if front.name == name {
            return Some(front);
        }
        left = front.left;
    }
    None
}

// Whether the number of this name is in its range, or is optional and absent.
fn is_given(all: Left<'_>, param: Param) -> bool
    requires { is_some (read_in all None) ≡ true }
    ensures { result ≡ is_some (table.number_from param (items_in all.entry)) }
{
    let name = param_name(param).as_bytes();
    match item_named(all, name) {
        Some(front) => is_within(front.value, param),
        None => range_of(param).otherwise.is_some(),
    }
}

// Whether the text of this name is there and is taken.
fn is_text_given(all: Left<'_>, param: Param) -> bool
    requires { is_some (read_in all None) ≡ true }
    ensures { result ≡ is_some (table.text_from param (items_in all.entry)) }
{
    match item_named(all, param_name(param).as_bytes()) {
        Some(front) => is_text_taken(front.value, param),
        None => false,
    }
}

// Whether each of these numbers is given so.
fn are_given(all: Left<'_>, params: &[Param]) -> bool
    requires { is_some (read_in all None) ≡ true }
    ensures { result
        ≡ list_all (λ p. is_some (table.number_from p (items_in all.entry))) params.now }
{
    for param in params {
        if !is_given(all, *param) {
            return false;
        }
    }
    true
}

fn are_places_given(all: Left<'_>) -> bool
    requires { is_some (read_in all None) ≡ true }
    ensures { result ≡ spec.are_places_given all.entry.verb (items_in all.entry) }
{
    match all.verb {
        Verb::Listen | Verb::Serve => is_text_given(all, Param::Address),
        Verb::Export => is_text_given(all, Param::Project),
        _ => are_given(all, positionals_of(all.verb)),
    }
}

fn are_values_within(all: Left<'_>) -> bool
    requires { is_some (read_in all None) ≡ true }
    ensures { result ≡ is_some (command_from all.entry.verb (items_in all.entry)) }
{
    are_given(all, options_of(all.verb)) && are_places_given(all)
}

fn is_text(word: &Text) -> bool
    ensures { result ≡ is_utf8 word.now }
{
    match str::from_utf8(word.as_bytes()) {
        Ok(_) => true,
        Err(_) => false,
    }
}

fn are_texts(words: &[Text]) -> bool
    ensures { result ≡ list_all is_utf8 words.now }
{
    for word in words {
        if !is_text(word) {
            return false;
        }
    }
    true
}

fn are_in_form(verb: Verb, words: &[Text]) -> bool
    ensures { result ≡ is_some (command_after verb words.now) }
{
    if !are_texts(words) {
        return false;
    }
    let all = Left {
        verb,
        words,
        placed: 0,
    };
    if !are_items(all) {
        return false;
    }
    if !are_distinct(all) {
        return false;
    }
    are_values_within(all)
}

/// Whether the words are in form. It takes no memory, and reads each word once for each word.
pub fn is_command(words: &[Text]) -> bool
    ensures { result ≡ is_some (command_of words.now) }
{
    let [word, rest @ ..] = words else {
        return false;
    };
    match verb_named(word.as_bytes()) {
        Some(verb) => are_in_form(verb, rest),
        None => false,
    }
}
