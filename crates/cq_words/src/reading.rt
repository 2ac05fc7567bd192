ghost use Rattle.std.specs.Prelude.{◌≡◌, ◌≤◌, true, is_some, IfOk, IfSome, OnErr, option_copied};
ghost use Rattle.clap.specs.Words.{first_of};
ghost use Rattle.cq_base.specs.Settings.{IsInRange};
ghost use Rattle.cq_words.specs.Asked as spec;
ghost use Rattle.cq_words.specs.Asked.{entries_of};
ghost use Rattle.cq_words.specs.Command.{command_after, command_of, connections_of, default_settings, HasRanges, HasServerRanges};
ghost use Rattle.cq_words.specs.Table as table;
ghost use Rattle.cq_words.specs.declared.table.Verb.TheVariants as verb;

use crate::asked::{command_asked, matches_in, texts_of};
use crate::command::{Command, Export, Listen, Make, Run};
use crate::form::is_command;
use crate::numbers::{number_within, text_taken};
use crate::table::{Flag, Param, Verb, flag_name, param_name, range_of, verb_named};
use clap::ArgMatches;
use cq_base::{Memory, Settings, Text};
use std::alloc::Global;

/// The first value of this name, as text.
fn text_of<'a>(matches: &ArgMatches<'a>, name: &str) -> Option<&'a str>
    ensures { option_copied result ≡ first_of name.now (entries_of matches.now) }
{
    matches.get_str(name)
}

fn number_read(matches: &ArgMatches, param: Param) -> Option<u64>
    ensures value { result ≡ spec.number_read param (entries_of matches.now) }
    ensures most { IfSome result (λ n. n ≤ (table.range_of param).high) }
    ensures least { IfSome result (λ n. (table.range_of param).low ≤ n) }
{
    let range = range_of(param);
    match text_of(matches, param_name(param)) {
        Some(text) => number_within(range.low, range.high, text.as_bytes()),
        None => range.otherwise,
    }
}

fn text_read<'a>(matches: &ArgMatches<'a>, param: Param) -> Option<&'a str>
    ensures { option_copied result ≡ spec.text_read param (entries_of matches.now) }
{
    let text = text_of(matches, param_name(param))?;
    text_taken(param, text)
}

fn default_of(param: Param) -> u64
    ensures { result ≡ table.default_of param }
{
    range_of(param).otherwise.unwrap_or(0)
}

/// The settings if no option and no flag is given.
pub fn default_settings() -> Settings
    ensures settings { result ≡ default_settings }
    ensures in_range { IsInRange result }
{
    Settings {
        chunk: default_of(Param::Chunk) as u32,
        shards: default_of(Param::Shards) as u32,
        key_bits: default_of(Param::KeyBits) as u32,
        ignore_ids: false,
        ignore_lits: false,
        change_limit: default_of(Param::ChangeLimit),
        text_limit: default_of(Param::TextLimit),
        byte_limit: default_of(Param::ByteLimit),
    }
}

fn is_set(matches: &ArgMatches, flag: Flag) -> bool
    ensures { result ≡ spec.flag_read flag (entries_of matches.now) }
{
    match text_of(matches, flag_name(flag)) {
        Some(text) => text == "true",
        None => false,
    }
}

fn settings_read(matches: &ArgMatches) -> Option<Settings>
    ensures settings { result ≡ spec.settings_read (entries_of matches.now) }
    ensures in_range { IfSome result IsInRange }
{
    let chunk = number_read(matches, Param::Chunk)?;
    let shards = number_read(matches, Param::Shards)?;
    let key_bits = number_read(matches, Param::KeyBits)?;
    let change_limit = number_read(matches, Param::ChangeLimit)?;
    let text_limit = number_read(matches, Param::TextLimit)?;
    let byte_limit = number_read(matches, Param::ByteLimit)?;
    Some(Settings {
        chunk: chunk as u32,
        shards: shards as u32,
        key_bits: key_bits as u32,
        ignore_ids: is_set(matches, Flag::IgnoreIds),
        ignore_lits: is_set(matches, Flag::IgnoreLiterals),
        change_limit,
        text_limit,
        byte_limit,
    })
}

fn run_read(matches: &ArgMatches) -> Option<Command>
    ensures command { result ≡ spec.command_read verb.Run (entries_of matches.now) }
    ensures in_range { IfSome result HasRanges }
{
    let settings = settings_read(matches)?;
    let workers = number_read(matches, Param::Workers)?;
    Some(Command::Run(Run {
        settings,
        workers: workers as u32,
    }))
}

// What `listen` and `serve` have in common.
fn server_read(alloc: Global, matches: &ArgMatches) -> Result<Option<Listen>, Memory>
    ensures server { IfOk result (λ r. r ≡ spec.server_read (entries_of matches.now)) }
    ensures in_range { IfOk result (λ r. IfSome r HasServerRanges) }
{
    let Some(settings) = settings_read(matches) else {
        return Ok(None);
    };
    let Some(address) = text_read(matches, Param::Address) else {
        return Ok(None);
    };
    let Some(workers) = number_read(matches, Param::ListenWorkers) else {
        return Ok(None);
    };
    let Some(sessions) = number_read(matches, Param::Sessions) else {
        return Ok(None);
    };
    let Some(connections) = number_read(matches, Param::Connections) else {
        return Ok(None);
    };
    Ok(Some(Listen {
        settings,
        address: Text::from_bytes(alloc, address.as_bytes())?,
        workers: workers as u32,
        sessions: sessions as u32,
        connections: connections as u32,
    }))
}

fn listen_read(alloc: Global, matches: &ArgMatches) -> Result<Option<Command>, Memory>
    ensures command { IfOk result
        (λ r. r ≡ spec.command_read verb.Listen (entries_of matches.now)) }
    ensures in_range { IfOk result (λ r. IfSome r HasRanges) }
{
    match server_read(alloc, matches)? {
        Some(listen) => Ok(Some(Command::Listen(listen))),
        None => Ok(None),
    }
}

fn serve_read(alloc: Global, matches: &ArgMatches) -> Result<Option<Command>, Memory>
    ensures command { IfOk result
        (λ r. r ≡ spec.command_read verb.Serve (entries_of matches.now)) }
    ensures in_range { IfOk result (λ r. IfSome r HasRanges) }
{
    match server_read(alloc, matches)? {
        Some(serve) => Ok(Some(Command::Serve(serve))),
        None => Ok(None),
    }
}

fn drive_read(matches: &ArgMatches) -> Option<Command>
    ensures command { result ≡ spec.command_read verb.Drive (entries_of matches.now) }
    ensures in_range { IfSome result HasRanges }
{
    let settings = settings_read(matches)?;
    Some(Command::Drive(settings))
}

fn export_read(alloc: Global, matches: &ArgMatches) -> Result<Option<Command>, Memory>
    ensures command { IfOk result
        (λ r. r ≡ spec.command_read verb.Export (entries_of matches.now)) }
    ensures in_range { IfOk result (λ r. IfSome r HasRanges) }
{
    let Some(settings) = settings_read(matches) else {
        return Ok(None);
    };
    let Some(project) = text_read(matches, Param::Project) else {
        return Ok(None);
    };
    Ok(Some(Command::Export(Export {
        settings,
        project: Text::from_bytes(alloc, project.as_bytes())?,
    })))
}

fn ask_read(matches: &ArgMatches) -> Option<Command>
    ensures command { result ≡ spec.command_read verb.Ask (entries_of matches.now) }
    ensures in_range { IfSome result HasRanges }
{
    let settings = settings_read(matches)?;
    Some(Command::Ask(settings))
}

fn shorten_read(matches: &ArgMatches) -> Option<Command>
    ensures command { result ≡ spec.command_read verb.Shorten (entries_of matches.now) }
    ensures in_range { IfSome result HasRanges }
{
    let settings = settings_read(matches)?;
    Some(Command::Shorten(settings))
}

fn make_read(matches: &ArgMatches) -> Option<Command>
    ensures command { result ≡ spec.command_read verb.Make (entries_of matches.now) }
    ensures in_range { IfSome result HasRanges }
{
    let number = number_read(matches, Param::Number)?;
    let files = number_read(matches, Param::Files)?;
    Some(Command::Make(Make {
        number,
        files: files as u32,
    }))
}

fn command_read(alloc: Global, verb: Verb, matches: &ArgMatches) -> Result<Option<Command>, Memory>
    ensures command { IfOk result (λ r. r ≡ spec.command_read verb (entries_of matches.now)) }
    ensures in_range { IfOk result (λ r. IfSome r HasRanges) }
{
    match verb {
        Verb::Run => Ok(run_read(matches)),
        Verb::Listen => listen_read(alloc, matches),
        Verb::Serve => serve_read(alloc, matches),
        Verb::Drive => Ok(drive_read(matches)),
        Verb::Make => Ok(make_read(matches)),
        Verb::Export => export_read(alloc, matches),
        Verb::Ask => Ok(ask_read(matches)),
        Verb::Shorten => Ok(shorten_read(matches)),
    }
}

/// What the words after a command's name give.
fn command_after(alloc: Global, verb: Verb, words: &[Text]) -> Result<Option<Command>, Memory>
    ensures command { IfOk result (λ r. r ≡ command_after verb words.now) }
    ensures in_range { IfOk result (λ r. IfSome r HasRanges) }
{
    let Some(texts) = texts_of(alloc, words)? else {
        return Ok(None);
    };
    let command = command_asked(alloc, verb)?;
    let Some(matches) = matches_in(command, texts.as_slice())? else {
        return Ok(None);
    };
    command_read(alloc, verb, &matches)
}

/// What the words ask for if they are valid, and None exactly if they are not.
pub fn read_command(alloc: Global, words: &[Text]) -> Result<Option<Command>, Memory>
    ensures command { IfOk result (λ r. r ≡ command_of words.now) }
    ensures in_range { IfOk result (λ r. IfSome r HasRanges) }
{
    let [word, rest @ ..] = words else {
        return Ok(None);
    };
    match verb_named(word.as_bytes()) {
        Some(verb) => command_after(alloc, verb, rest),
        None => Ok(None),
    }
}

/// After how many connections the doors are to end: the number of `--connections` or its default, and None exactly if
/// the words are not valid words of `listen` or `serve`. It returns None for invalid words whatever memory there is.
pub fn connections(alloc: Global, words: &[Text]) -> Result<Option<u32>, Memory>
    ensures number { IfOk result (λ n. n ≡ connections_of words.now) }
    ensures refused { OnErr result (is_some (command_of words.now) ≡ true) }
{
    if !is_command(words) {
        return Ok(None);
    }
    match read_command(alloc, words)? {
        Some(Command::Listen(listen)) => Ok(Some(listen.connections)),
        Some(Command::Serve(serve)) => Ok(Some(serve.connections)),
        _ => Ok(None),
    }
}
