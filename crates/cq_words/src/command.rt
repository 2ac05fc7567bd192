use cq_base::{Settings, Text};

/// What the words of `run` give.
#[derive(Clone, Copy, Debug, PartialEq, Eq)]
pub struct Run {
    pub settings: Settings,
    /// Threads that do the work of uploads, beside the session, 0 to 64.
    pub workers: u32,
}

/// What the words of `listen` and `serve` give.
#[derive(Debug, Drop, PartialEq, Eq)]
pub struct Listen {
    pub settings: Settings,
    /// Where to listen, of 1 to 255 bytes. It is not read here.
    pub address: Text,
    /// Threads that do the work of uploads, beside the sessions, 0 to 64.
    pub workers: u32,
    /// Threads that serve a connection each, 1 to 64.
    pub sessions: u32,
    /// Connections after which the doors end, at least 1.
    pub connections: u32,
}

/// What the words of `make` give.
#[derive(Clone, Copy, Debug, PartialEq, Eq)]
pub struct Make {
    /// Which project is made, of at most 19 digits.
    pub number: u64,
    /// How many files it has, 0 to 10,000.
    pub files: u32,
}

/// What the words of `export` give.
#[derive(Debug, Drop, PartialEq, Eq)]
pub struct Export {
    pub settings: Settings,
    /// The project of which a version is written.
    pub project: Text,
}

/// What words in form ask for.
#[derive(Debug, Drop, PartialEq, Eq)]
pub enum Command {
    /// A session over the lines of the input.
    Run(Run),
    /// A session over the lines of each connection to an address.
    Listen(Listen),
    /// The same, by a server that takes its log from the input and continues it in the output.
    Serve(Listen),
    /// The core, stepped by the lines of the input.
    Drive(Settings),
    /// A project that is made, put and listed; no input is read.
    Make(Make),
    /// The version of a project that the changes of the input make, written as its token file.
    Export(Export),
    /// A kept version, which the input begins with, asked by the lines after it.
    Ask(Settings),
    /// The log that the input is, written with only the lines that its last version needs.
    Shorten(Settings),
}
