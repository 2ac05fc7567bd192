ghost use Rattle.std.specs.Prelude.{◌≡◌, IfOk, IsTrue};
ghost use Rattle.cq_scope.specs.Fits as spec;
ghost use Rattle.cq_names.specs.Names.{is_path};
ghost use Rattle.cq_scope.specs.Paths.{path_in};

use crate::parts::parts_fit;
use cq_base::{Memory, Text};
use cq_names::is_path;
use std::alloc::Global;
use std::marker::Model;
use std::str;

// A path has at most 512 characters, and no more parts than that.
const PLACES: usize = 513;

/// A pattern of paths, which has the form of a path. Contracts see it as its bytes.
#[derive(Debug, Drop)]
pub struct Pattern {
    text: Text,
}

impl Model for Pattern {
    ghost use Rattle.std.specs.Prelude.{List, ℕ, IsTrue};
    ghost use Rattle.cq_names.specs.Names.{is_path};

    ghost Value = { List ℕ };

    ghost view = { λ p. p.text };

    ghost invariant = { λ p. IsTrue (is_path p.text) };
}

impl Pattern {
    /// The pattern that a text is, or none if the text isn't a path. It has a copy of the text, and is read in one walk.
    pub fn read(alloc: Global, text: &Text) -> Result<Option<Pattern>, Memory>
        ensures { IfOk result (λ p. p ≡ path_in text.now) }
    {
        if !is_path(text.as_bytes()) {
            return Ok(None);
        }
        let text = text.copied(alloc)?;
        Ok(Some(Pattern { text }))
    }
}

/// Whether a path fits a pattern. What it costs grows with the product of both lengths at most.
pub fn fits(pattern: &Pattern, path: &Text) -> bool
    requires { IsTrue (is_path path.now) }
    ensures { result ≡ spec.fits pattern.now path.now }
{
    let pattern = str::from_utf8(pattern.text.as_bytes()).unwrap();
    let path = str::from_utf8(path.as_bytes()).unwrap();
    let mut row = [false; PLACES];
    let mut places = [false; PLACES];
    parts_fit(pattern, path, &mut row, &mut places)
}
