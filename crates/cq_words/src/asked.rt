ghost use Rattle.std.specs.Prelude.{◌≡◌, IfOk, true, option_map};
ghost use Rattle.clap.specs.Words.{app_of, with_rule, is_simple_and_free};
ghost use Rattle.clap.specs.Walk.{texts};
ghost use Rattle.cq_words.specs.Asked as spec;

use crate::table::{
    Flag, Param, Verb, flag_name, flags_of, options_of, param_name, positionals_of, verb_name,
};
use clap::error::ErrorKind;
use clap::{Arg, ArgAction, ArgMatches, Command};
use cq_base::{Memory, Text};
use std::alloc::{AllocError, Global};
use std::str;

/// The word as `clap` takes it, or none if it is not UTF-8, or is just `-` or `--`.
fn text_of_word<'a>(word: &'a Text) -> Option<&'a str>
    ensures { spec.IsHanded word.entry.now result }
{
    let Ok(text) = str::from_utf8(word.as_bytes()) else {
        return None;
    };
    if text == "-" || text == "--" {
        return None;
    }
    Some(text)
}

/// All of them, or none if one is not to be handed on.
pub(crate) fn texts_of<'a>(alloc: Global, words: &'a [Text]) -> Result<Option<Vec<&'a str>>, Memory>
    ensures { IfOk result
        (λ r. option_map (λ v. texts v.items) r ≡ spec.all_handed words.entry.now) }
{
    let mut handed = Vec::new(alloc);
    for word in words {
        let Some(text) = text_of_word(word) else {
            return Ok(None);
        };
        handed.push(text)?;
    }
    Ok(Some(handed))
}

fn with_option<'a>(
    alloc: Global,
    command: Command<'a>,
    name: &'a str,
) -> Result<Command<'a>, AllocError>
    ensures { IfOk result
        (λ c. app_of c ≡ with_rule (app_of command.entry) (spec.option_arg name.entry.now)) }
{
    command.arg(Arg::new(alloc, name).long(name))
}

fn with_flag<'a>(
    alloc: Global,
    command: Command<'a>,
    name: &'a str,
) -> Result<Command<'a>, AllocError>
    ensures { IfOk result
        (λ c. app_of c ≡ with_rule (app_of command.entry) (spec.flag_arg name.entry.now)) }
{
    command.arg(Arg::new(alloc, name).long(name).action(ArgAction::SetTrue))
}

fn bare_command<'a>(alloc: Global, name: &'a str) -> Command<'a>
    ensures { app_of result ≡ spec.bare_app name.entry.now }
{
    Command::new(alloc, name)
        .no_binary_name(true)
        .disable_help_flag(true)
}

fn with_positional<'a>(
    alloc: Global,
    command: Command<'a>,
    name: &'a str,
) -> Result<Command<'a>, AllocError>
    ensures { IfOk result
        (λ c. app_of c ≡ with_rule (app_of command.entry) (spec.positional_arg name.entry.now)) }
{
    command.arg(Arg::new(alloc, name).required(true))
}

fn with_options<'a>(
    alloc: Global,
    bare: Command<'a>,
    params: &[Param],
) -> Result<Command<'a>, AllocError>
    ensures { IfOk result (λ c. app_of c ≡ spec.with_options (app_of bare.entry) params.now) }
{
    let mut command = bare;
    for param in params {
        command = with_option(alloc, command, param_name(*param))?;
    }
    Ok(command)
}

fn with_flags<'a>(
    alloc: Global,
    bare: Command<'a>,
    flags: &[Flag],
) -> Result<Command<'a>, AllocError>
    ensures { IfOk result (λ c. app_of c ≡ spec.with_flags (app_of bare.entry) flags.now) }
{
    let mut command = bare;
    for flag in flags {
        command = with_flag(alloc, command, flag_name(*flag))?;
    }
    Ok(command)
}

fn with_positionals<'a>(
    alloc: Global,
    bare: Command<'a>,
    params: &[Param],
) -> Result<Command<'a>, AllocError>
    ensures { IfOk result (λ c. app_of c ≡ spec.with_positionals (app_of bare.entry) params.now) }
{
    let mut command = bare;
    for param in params {
        command = with_positional(alloc, command, param_name(*param))?;
    }
    Ok(command)
}

/// The simple command of the row.
pub(crate) fn command_asked<'a>(alloc: Global, verb: Verb) -> Result<Command<'a>, AllocError>
    ensures { IfOk result (λ c. app_of c ≡ spec.asked_app verb) }
{
    let name: &'a str = verb_name(verb);
    let bare = bare_command(alloc, name);
    let command = with_options(alloc, bare, options_of(verb))?;
    let command = with_flags(alloc, command, flags_of(verb))?;
    with_positionals(alloc, command, positionals_of(verb))
}

/// What `clap` finds in the words, or none if it refuses them.
pub(crate) fn matches_in<'a>(
    command: Command<'a>,
    words: &'a [&'a str],
) -> Result<Option<ArgMatches<'a>>, Memory>
    requires { is_simple_and_free (app_of command) ≡ true }
    ensures { IfOk result
        (λ r. spec.rows_in r ≡ spec.rows_for (app_of command.entry) (texts words.entry.now)) }
{
    match command.try_get_matches_from(words) {
        Ok(matches) => Ok(Some(matches)),
        Err(error) => {
            if matches!(error.kind(), ErrorKind::OutOfMemory) {
                return Err(Memory);
            }
            Ok(None)
        }
    }
}
