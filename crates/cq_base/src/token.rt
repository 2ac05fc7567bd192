ghost use Rattle.std.specs.Prelude.{◌≡◌};
ghost use Rattle.cq_base.specs.Tables.{class_code, classes, class_coded};

use crate::Text;

/// What kind of token it is.
#[derive(Clone, Copy, Debug, PartialEq, Eq, PartialOrd, Ord)]
pub enum Class {
    /// A name.
    Ident,
    /// A reserved word, or another spelling that no setting ignores.
    Word,
    /// A number, a character or a text.
    Literal,
    /// Punctuation.
    Punct,
}

const CLASSES: [Class; 4] = [Class::Ident, Class::Word, Class::Literal, Class::Punct];

impl Class {
    /// All classes.
    pub fn all() -> &'static [Class]
        ensures { result.now ≡ classes }
    {
        &CLASSES
    }

    /// Its number in keys and in token files.
    pub fn code(&self) -> u8
        ensures { result ≡ class_code self.now }
    {
        match self {
            Class::Ident => 0,
            Class::Word => 1,
            Class::Literal => 2,
            Class::Punct => 3,
        }
    }

    /// The class with this code.
    pub fn of_code(code: u8) -> Option<Class>
        ensures { result ≡ class_coded code }
    {
        Class::all()
            .iter()
            .find(|class| class.code() == code)
            .copied()
    }
}

/// Where a token is: `start` and `len` in bytes from the start of its text, lines from 1. Its last line is that of
/// its last byte.
#[derive(Clone, Copy, Debug, PartialEq, Eq)]
pub struct Token {
    pub class: Class,
    pub start: u32,
    pub len: u32,
    pub first_line: u32,
    pub last_line: u32,
}

/// A token with its spelling after translation.
#[derive(Debug, Drop)]
pub struct Spelled {
    pub token: Token,
    pub text: Text,
}

/// A place of a text from which on tokens are listed, or are not: a comment with CPD-ON or CPD-OFF begins at byte `at`.
#[derive(Clone, Copy, Debug, PartialEq, Eq)]
pub struct Mark {
    pub at: u32,
    pub on: bool,
}
