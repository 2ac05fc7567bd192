//! What each command takes: the names, the ranges and the defaults are here and nowhere else.
ghost use Rattle.std.specs.Prelude.{◌≡◌, ◌≤◌, IfSome};
ghost use Rattle.cq_words.specs.Table as spec;

/// The first word.
#[derive(Clone, Copy, Debug, PartialEq, Eq)]
pub(crate) enum Verb {
    Run,
    Listen,
    Serve,
    Drive,
    Make,
    Export,
    Ask,
    Shorten,
}

/// What words give by an option or as a positional: a number, or the text of an address or of a project's name.
#[derive(Clone, Copy, Debug, PartialEq, Eq)]
pub(crate) enum Param {
    Chunk,
    Shards,
    KeyBits,
    ChangeLimit,
    TextLimit,
    ByteLimit,
    Workers,
    ListenWorkers,
    Sessions,
    Connections,
    Address,
    Project,
    Number,
    Files,
}

/// What words give by being there.
#[derive(Clone, Copy, Debug, PartialEq, Eq)]
pub(crate) enum Flag {
    IgnoreIds,
    IgnoreLiterals,
}

/// The least and the greatest number that is taken (for a text, its number of bytes), and the default; a positional
/// has no default and is required.
#[derive(Clone, Copy, Debug, PartialEq, Eq)]
pub(crate) struct Range {
    pub low: u64,
    pub high: u64,
    pub otherwise: Option<u64>,
}

const RUN_OPTIONS: [Param; 7] = [
    Param::Chunk,
    Param::Shards,
    Param::KeyBits,
    Param::ChangeLimit,
    Param::TextLimit,
    Param::ByteLimit,
    Param::Workers,
];

const LISTEN_OPTIONS: [Param; 9] = [
    Param::Chunk,
    Param::Shards,
    Param::KeyBits,
    Param::ChangeLimit,
    Param::TextLimit,
    Param::ByteLimit,
    Param::ListenWorkers,
    Param::Sessions,
    Param::Connections,
];

const SETTINGS_OPTIONS: [Param; 6] = [
    Param::Chunk,
    Param::Shards,
    Param::KeyBits,
    Param::ChangeLimit,
    Param::TextLimit,
    Param::ByteLimit,
];

const FLAGS: [Flag; 2] = [Flag::IgnoreIds, Flag::IgnoreLiterals];

const LISTEN_POSITIONALS: [Param; 1] = [Param::Address];

const EXPORT_POSITIONALS: [Param; 1] = [Param::Project];

const MAKE_POSITIONALS: [Param; 2] = [Param::Number, Param::Files];

pub(crate) fn verb_named(word: &[u8]) -> Option<Verb>
    ensures { result ≡ spec.verb_named word.now }
{
    if word == b"run".as_slice() {
        return Some(Verb::Run);
    }
    if word == b"listen".as_slice() {
        return Some(Verb::Listen);
    }
    if word == b"serve".as_slice() {
        return Some(Verb::Serve);
    }
    if word == b"drive".as_slice() {
        return Some(Verb::Drive);
    }
    if word == b"make".as_slice() {
        return Some(Verb::Make);
    }
    if word == b"export".as_slice() {
        return Some(Verb::Export);
    }
    if word == b"ask".as_slice() {
        return Some(Verb::Ask);
    }
    if word == b"shorten".as_slice() {
        return Some(Verb::Shorten);
    }
    None
}

pub(crate) fn verb_name(verb: Verb) -> &'static str
    ensures { result.now ≡ spec.verb_name verb }
{
    match verb {
        Verb::Run => "run",
        Verb::Listen => "listen",
        Verb::Serve => "serve",
        Verb::Drive => "drive",
        Verb::Make => "make",
        Verb::Export => "export",
        Verb::Ask => "ask",
        Verb::Shorten => "shorten",
    }
}

pub(crate) fn options_of(verb: Verb) -> &'static [Param]
    ensures { result.now ≡ spec.options_of verb }
{
    match verb {
        Verb::Run => &RUN_OPTIONS,
        Verb::Listen | Verb::Serve => &LISTEN_OPTIONS,
        Verb::Drive | Verb::Export | Verb::Ask | Verb::Shorten => &SETTINGS_OPTIONS,
        Verb::Make => &[],
    }
}

pub(crate) fn flags_of(verb: Verb) -> &'static [Flag]
    ensures { result.now ≡ spec.flags_of verb }
{
    match verb {
        Verb::Run
        | Verb::Listen
        | Verb::Serve
        | Verb::Drive
        | Verb::Export
        | Verb::Ask
        | Verb::Shorten => &FLAGS,
        Verb::Make => &[],
    }
}

/// In the order in which they come.
pub(crate) fn positionals_of(verb: Verb) -> &'static [Param]
    ensures { result.now ≡ spec.positionals_of verb }
{
    match verb {
        Verb::Run | Verb::Drive | Verb::Ask | Verb::Shorten => &[],
        Verb::Listen | Verb::Serve => &LISTEN_POSITIONALS,
        Verb::Make => &MAKE_POSITIONALS,
        Verb::Export => &EXPORT_POSITIONALS,
    }
}

/// The name without the hyphens; of a positional the name by which `clap` knows it.
pub(crate) fn param_name(param: Param) -> &'static str
    ensures { result.now ≡ spec.param_name param }
{
    match param {
        Param::Chunk => "chunk",
        Param::Shards => "shards",
        Param::KeyBits => "key-bits",
        Param::ChangeLimit => "change-limit",
        Param::TextLimit => "text-limit",
        Param::ByteLimit => "byte-limit",
        Param::Workers => "workers",
        Param::ListenWorkers => "workers",
        Param::Sessions => "sessions",
        Param::Connections => "connections",
        Param::Address => "address",
        Param::Project => "project",
        Param::Number => "number",
        Param::Files => "files",
    }
}

pub(crate) fn flag_name(flag: Flag) -> &'static str
    ensures { result.now ≡ spec.flag_name flag }
{
    match flag {
        Flag::IgnoreIds => "ignore-ids",
        Flag::IgnoreLiterals => "ignore-literals",
    }
}

fn option_range(low: u64, high: u64, otherwise: u64) -> Range
    ensures { result ≡ spec.option_range low high otherwise }
{
    Range {
        low,
        high,
        otherwise: Some(otherwise),
    }
}

fn positional_range(low: u64, high: u64) -> Range
    ensures { result ≡ spec.positional_range low high }
{
    Range {
        low,
        high,
        otherwise: None,
    }
}

pub(crate) fn range_of(param: Param) -> Range
    ensures range { result ≡ spec.range_of param }
    ensures most { IfSome result.otherwise (λ n. n ≤ (spec.range_of param).high) }
    ensures least { IfSome result.otherwise (λ n. (spec.range_of param).low ≤ n) }
{
    match param {
        Param::Chunk => option_range(1, 1_000, 20),
        Param::Shards => option_range(1, 64, 16),
        Param::KeyBits => option_range(0, 64, 64),
        Param::ChangeLimit => option_range(1, 262_144, 262_144),
        Param::TextLimit => option_range(1, 67_108_864, 33_554_432),
        Param::ByteLimit => option_range(1, 1_152_921_504_606_846_976, 1_152_921_504_606_846_976),
        Param::Workers => option_range(0, 64, 0),
        Param::ListenWorkers => option_range(0, 64, 4),
        Param::Sessions => option_range(1, 64, 8),
        Param::Connections => option_range(1, 4_294_967_295, 4_294_967_295),
        Param::Address => positional_range(1, 255),
        Param::Project => positional_range(1, 64),
        Param::Number => positional_range(0, 9_999_999_999_999_999_999),
        Param::Files => positional_range(0, 10_000),
    }
}
