ghost use Rattle.std.specs.Prelude.{◌≡◌};
ghost use Rattle.std.specs.Arc.{arc_value};

use cq_base::{Lang, Measures, Refusal, Text};
use cq_func::Function;
use cq_measures::Verdict;
use std::alloc::Global;
use std::marker::Model;
use std::sync::Arc;

/// The path of a file, which all rows of a reply share with the file. Contracts see it as the list of its bytes.
#[derive(Drop)]
pub struct SharedPath {
    text: Arc<Text, Global>,
}

impl Model for SharedPath {
    ghost use Rattle.std.specs.Prelude.{List, ℕ};
    ghost use Rattle.std.specs.Arc.{arc_value};

    ghost Value = { List ℕ };

    ghost view = { λ p. arc_value p.text };
}

impl SharedPath {
    pub fn new(text: Arc<Text, Global>) -> SharedPath
        ensures { result ≡ arc_value text }
    {
        SharedPath { text }
    }

    /// Its bytes, which are lent.
    pub fn as_bytes(&self) -> &[u8]
        ensures { result.now ≡ self.now }
    {
        self.text.as_bytes()
    }
}

/// A place of a group: the path of its file, its first token there from 0, and its first and last line from 1.
#[derive(Drop)]
pub struct PlaceRow {
    pub path: SharedPath,
    pub at: u32,
    pub first: u32,
    pub last: u32,
}

/// Places, which contracts see as a list.
#[derive(Drop)]
pub struct PlaceRows {
    rows: Vec<PlaceRow>,
}

impl Model for PlaceRows {
    ghost use Rattle.std.specs.Prelude.{List};
    ghost use Rattle.cq_reply.specs.declared.reply.PlaceRow.{PlaceRow};

    ghost Value = { List PlaceRow };

    ghost view = { λ p. p.rows.items };
}

impl PlaceRows {
    pub fn from_vec(rows: Vec<PlaceRow>) -> PlaceRows
        ensures { result ≡ rows.items }
    {
        PlaceRows { rows }
    }

    pub fn as_slice(&self) -> &[PlaceRow]
        ensures { result.now ≡ self.now }
    {
        self.rows.as_slice()
    }
}

/// A run of tokens that occurs at several places.
#[derive(Drop)]
pub struct GroupRow {
    pub tokens: u32,
    pub places: PlaceRows,
}

/// Groups, which contracts see as a list.
#[derive(Drop)]
pub struct GroupRows {
    rows: Vec<GroupRow>,
}

impl Model for GroupRows {
    ghost use Rattle.std.specs.Prelude.{List};
    ghost use Rattle.cq_reply.specs.declared.reply.GroupRow.{GroupRow};

    ghost Value = { List GroupRow };

    ghost view = { λ g. g.rows.items };
}

impl GroupRows {
    pub fn from_vec(rows: Vec<GroupRow>) -> GroupRows
        ensures { result ≡ rows.items }
    {
        GroupRows { rows }
    }

    pub fn as_slice(&self) -> &[GroupRow]
        ensures { result.now ≡ self.now }
    {
        self.rows.as_slice()
    }
}

/// What the reading of a file's text gave.
#[derive(Clone, Copy, Debug, PartialEq, Eq)]
pub enum Shown {
    /// Its tokens.
    Ok,
    /// There is no element of the language at this byte, from 0.
    Fault(u32),
    /// More tokens than a file may have.
    Large,
}

/// A file of a project: the change that put it, its language, its lines, and how many tokens of it are listed.
#[derive(Drop)]
pub struct FileRow {
    pub path: SharedPath,
    pub change: u64,
    pub lang: Lang,
    pub lines: u64,
    pub shown: Shown,
    pub tokens: u32,
}

/// Files, which contracts see as a list.
#[derive(Drop)]
pub struct FileRows {
    rows: Vec<FileRow>,
}

impl Model for FileRows {
    ghost use Rattle.std.specs.Prelude.{List};
    ghost use Rattle.cq_reply.specs.declared.reply.FileRow.{FileRow};

    ghost Value = { List FileRow };

    ghost view = { λ f. f.rows.items };
}

impl FileRows {
    pub fn from_vec(rows: Vec<FileRow>) -> FileRows
        ensures { result ≡ rows.items }
    {
        FileRows { rows }
    }

    pub fn as_slice(&self) -> &[FileRow]
        ensures { result.now ≡ self.now }
    {
        self.rows.as_slice()
    }
}

/// Functions, which contracts see as a list.
#[derive(Drop)]
pub struct FunctionRows {
    rows: Vec<Function>,
}

impl Model for FunctionRows {
    ghost use Rattle.std.specs.Prelude.{List};
    ghost use Rattle.cq_func.specs.declared.function.Function.{Function};

    ghost Value = { List Function };

    ghost view = { λ f. f.rows.items };
}

impl FunctionRows {
    pub fn from_vec(rows: Vec<Function>) -> FunctionRows
        ensures { result ≡ rows.items }
    {
        FunctionRows { rows }
    }

    pub fn as_slice(&self) -> &[Function]
        ensures { result.now ≡ self.now }
    {
        self.rows.as_slice()
    }
}

/// What a line is answered with.
#[derive(Drop)]
pub enum Reply {
    /// A change was accepted, with its number.
    Change(u64),
    /// The files of a project at a version.
    Files {
        files: FileRows,
        version: u64,
    },
    /// The groups of a project at a version.
    Groups {
        groups: GroupRows,
        version: u64,
    },
    /// The measures of a project, or of one file of it, at a version.
    Measures {
        measures: Measures,
        version: u64,
    },
    /// What the project's gate says of its measures at a version.
    Verdict {
        verdict: Verdict,
        version: u64,
    },
    /// The functions of a file at a version, and the position, from 0, of the first of greatest complexity.
    Functions {
        functions: FunctionRows,
        version: u64,
        worst: Option<u32>,
    },
    /// How many changes are accepted, up to which one all are done, and which version is published.
    State {
        accepted: u64,
        done: u64,
        published: u64,
    },
    /// The line is refused.
    Refused(Refusal),
    /// This change is not done yet.
    Pending(u64),
    /// The line is too long.
    Long,
    /// Memory was refused.
    Memory,
}
