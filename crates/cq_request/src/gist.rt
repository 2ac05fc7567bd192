//! The gist of a line: of the object that it spells, the members that some request has, and the least key that none has.
//! `serde_json` would make a tree of all that a line spells, of up to 175 bytes for each of its own.

ghost use Rattle.std.specs.Prelude.{◌≡◌, ◌<◌, ◌≤◌, length, true, false, Some, IfOk, IfErr, OnOk, option_map, string_bytes};
ghost use Rattle.std.specs.List.{list_all};
ghost use Rattle.json.specs.Json.{members, value};
ghost use Rattle.json.specs.Lex.{tokens};
ghost use Rattle.serde_json.specs.Data.{object};
ghost use Rattle.serde_json.specs.View.{view, members_view};
ghost use Rattle.cq_request.specs.Gist.{IsGistOfLine, SpellsNoObject};
ghost use Rattle.cq_request.specs.Members as spec;
ghost use Rattle.cq_request.specs.Valued.{fits, fit_members, IsJsonFor, IsLeast, IsMemberNoted, IsMemberRead, IsNoObjectText, IsObjectRead, IsTextRead, IsUnfit, token_fits, with_other};

use crate::form::{Form, form_of, rest_of_form};
use crate::listing::list_read;
use crate::member::put_member;
use crate::request::ReadError;
use crate::skipping::check_numbers;
use cq_base::{Memory, Refusal};
use json::{Reader, Scratch, Token};
use serde_json::{Map, Value};
use std::alloc::Global;

// How deep lists and objects may nest in a member of the object.
const DEPTH: usize = 126;

// What was read of an object.
#[derive(Drop)]
struct Gist {
    // The last value of each member that some request has; null if it is not of the form that requests ask for.
    members: Map<String, Value>,
    // The least key that no request has.
    other: Option<String>,
    // Whether a value was passed, so that its numbers are still to be checked.
    has_passed: bool,
}

/// The gist of the object that a line spells. `Json` comes exactly if it spells none. It costs the memory of the strings
/// that it keeps, and one byte for each byte of the line.
pub(crate) fn line_gist(alloc: Global, line: &[u8]) -> Result<Value, ReadError>
    ensures gist { IfOk result (λ v. IsGistOfLine line.now (view v)) }
    ensures refused { IfErr result (IsJsonFor (SpellsNoObject line.now)) }
{
    match simdutf8::compat::from_utf8(line) {
        Ok(text) => text_gist(alloc, text),
        Err(_) => Err(ReadError::Refused(Refusal::Json)),
    }
}

fn text_gist(alloc: Global, text: &str) -> Result<Value, ReadError>
    ensures gist { IfOk result (λ v. IsGistOfLine text.now (view v)) }
    ensures refused { IfErr result (IsJsonFor (SpellsNoObject text.now)) }
{
    let mut scratch = Scratch::new(alloc);
    let gist = text_read(alloc, text, &mut scratch)?;
    check_passed(alloc, gist.has_passed, text, &mut scratch)?;
    Ok(value_of(gist)?)
}

// Checks the numbers of a text, if some of its values were passed: of what is kept, each number has a value.
fn check_passed(
    alloc: Global,
    has_passed: bool,
    text: &str,
    scratch: &mut Scratch,
) -> Result<(), ReadError>
    ensures fit { OnOk result (has_passed ≡ true → list_all token_fits (tokens text.now) ≡ true) }
    ensures refused { IfErr result (IsJsonFor (list_all token_fits (tokens text.now) ≡ false)) }
{
    if has_passed {
        return check_numbers(alloc, text, scratch);
    }
    Ok(())
}

// The members that were kept, and the least other key with null.
fn value_of(gist: Gist) -> Result<Value, Memory>
    ensures { IfOk result (λ v. view v ≡ object
        (with_other (members_view gist.members.entries) (option_map string_bytes gist.other))) }
{
    let Gist {
        mut members,
        other,
        has_passed: _,
    } = gist;
    match other {
        Some(name) => {
            put_member(&mut members, name, Value::Null)?;
            Ok(Value::Object(members))
        }
        None => Ok(Value::Object(members)),
    }
}

fn text_read(alloc: Global, text: &str, scratch: &mut Scratch) -> Result<Gist, ReadError>
    ensures read { IfOk result (λ g. IsTextRead (tokens text.now) (members_view g.members.entries)
        (option_map string_bytes g.other) g.has_passed) }
    ensures refused { IfErr result (IsJsonFor (IsNoObjectText (tokens text.now))) }
{
    let mut reader = Reader::new(text, scratch)?;
    let first = reader.next().ok_or(ReadError::Refused(Refusal::Json))?;
    if !matches!(first, Token::BeginObject) {
        return Err(ReadError::Refused(Refusal::Json));
    }
    let gist = object_read(alloc, &mut reader)?;
    if reader.next().is_some() {
        return Err(ReadError::Refused(Refusal::Json));
    }
    Ok(gist)
}

// The rest of an object that has begun.
fn object_read(alloc: Global, reader: &mut Reader<'_>) -> Result<Gist, ReadError>
    ensures read { IfOk result (λ g. IsObjectRead 126 reader.old reader.new
        (members_view g.members.entries) (option_map string_bytes g.other) g.has_passed) }
    ensures refused { IfErr result (IsJsonFor
        (IsUnfit fit_members (members (value 126) (length reader.old) reader.old))) }
{
    let mut gist = Gist {
        members: Map::new(alloc),
        other: None,
        has_passed: false,
    };
    'members: while let Some(key) = reader.next_key()? {
        note_member(alloc, reader, key, &mut gist)?;
    }
    Ok(gist)
}

// The member of this key, after its key was taken.
fn note_member(
    alloc: Global,
    reader: &mut Reader<'_>,
    key: &str,
    gist: &mut Gist,
) -> Result<(), ReadError>
    ensures read { OnOk result (IsMemberNoted 126 key.now reader.old reader.new
        (members_view gist.old.members.entries) (members_view gist.new.members.entries)
        (option_map string_bytes gist.old.other) (option_map string_bytes gist.new.other)
        gist.old.has_passed gist.new.has_passed) }
    ensures shorter { OnOk result (length reader.new ≤ length reader.old) }
    ensures refused { IfErr result (IsJsonFor (IsUnfit fits (value 126 reader.old))) }
{
    match form_of(key) {
        Some(form) => {
            let name = String::from_str(alloc, key)?;
            let member = member_read(alloc, reader, form, &mut gist.has_passed)?;
            put_member(&mut gist.members, name, member)?;
            Ok(())
        }
        None => {
            note_other(alloc, key, gist)?;
            reader.skip_value(DEPTH)?;
            Ok(())
        }
    }
}

// A key that no request has, and whose value is to be passed.
fn note_other(alloc: Global, key: &str, gist: &mut Gist) -> Result<(), Memory>
    ensures other { OnOk result (option_map string_bytes gist.new.other
        ≡ Some (spec.lesser key.now (option_map string_bytes gist.old.other))) }
    ensures passed { OnOk result (gist.new.has_passed ≡ true) }
    ensures same { gist.new.members ≡ gist.old.members }
{
    gist.has_passed = true;
    if !is_least(key, &gist.other) {
        return Ok(());
    }
    gist.other = Some(String::from_str(alloc, key)?);
    Ok(())
}

fn is_least(key: &str, other: &Option<String>) -> bool
    ensures { IsLeast key.now (option_map string_bytes other.now) result }
{
    match other {
        Some(least) => key < least.as_str(),
        None => true,
    }
}

fn member_read(
    alloc: Global,
    reader: &mut Reader<'_>,
    form: Form,
    has_passed: &mut bool,
) -> Result<Value, ReadError>
    ensures read { IfOk result (λ v. IsMemberRead 126 form reader.old reader.new (view v)
        has_passed.old has_passed.new) }
    ensures shorter { OnOk result (length reader.new < length reader.old) }
    ensures refused { IfErr result (IsJsonFor (IsUnfit fits (value 126 reader.old))) }
{
    let first = reader.next().ok_or(ReadError::Refused(Refusal::Json))?;
    if form == Form::Conditions && matches!(first, Token::BeginArray) {
        return list_read(alloc, reader, DEPTH - 1, has_passed);
    }
    rest_of_form(alloc, reader, first, form, DEPTH, has_passed)
}
