//! Where a path is likely to be among a project's files. The answer is a guess: the caller looks there first, and
//! elsewhere if the path can't be there.
ghost use Rattle.std.specs.Prelude.{◌≤◌};

use crate::held::Held;
use crate::merging::Named;
use cq_base::{Memory, Text};
use std::alloc::Global;
use std::collections::BTreeMap;
use std::sync::Arc;

// How many bytes of a path are its word.
const BYTES: usize = 8;

// Fewer files than these are searched as fast without words.
const FEW: usize = 64;

// If a batch names fewer than one file in this many, no words are made for all.
const FILES_A_PATH: usize = 16;

/// A word for each file, in path order: eight bytes of its path after the front that all paths shared when the words
/// were made. A search among them reads 8 adjacent bytes a file; one among the files follows three owners a file. If
/// there are not as many words as files, the words are not used.
#[derive(Drop)]
pub struct Guesses {
    skip: usize,
    words: Vec<u64>,
}

impl Guesses {
    /// No words. It takes no memory.
    pub fn new(alloc: Global) -> Guesses {
        Guesses {
            skip: 0,
            words: Vec::new(alloc),
        }
    }

    /// The words of files in path order. It costs a look at each path.
    pub fn of<W>(alloc: Global, files: &[Arc<Held<W>, Global>]) -> Result<Guesses, Memory> {
        let skip = shared_by_all(files);
        let mut words = Vec::with_capacity(alloc, files.len())?;
        for file in files {
            words.push(word_at(file.path.as_bytes(), skip))?;
        }
        Ok(Guesses { skip, words })
    }

    /// The same words once more.
    pub fn copied(&self, alloc: Global) -> Result<Guesses, Memory> {
        let words = Vec::from_slice(alloc, &self.words)?;
        Ok(Guesses {
            skip: self.skip,
            words,
        })
    }

    /// From where up to where a path is likely to be among this many files, or belongs.
    pub fn reach(&self, path: &Text, len: usize) -> (usize, usize)
        ensures { (result.0 ≤ result.1) × (result.1 ≤ len) }
    {
        if self.words.len() != len {
            return (0, len);
        }
        let word = word_at(path.as_bytes(), self.skip);
        let from = self.words.partition_point(|other| *other < word);
        let to = self.words.partition_point(|other| *other <= word).min(len);
        (from.min(to), to)
    }

    /// The words with those of the files that are to be at some paths, in place of those that were there.
    pub fn merged<W>(
        &self,
        alloc: Global,
        paths: &BTreeMap<Arc<Text, Global>, Named<W>>,
    ) -> Result<Guesses, Memory> {
        if self.words.is_empty() {
            return Ok(Guesses::new(alloc));
        }
        let mut words = Vec::with_capacity(alloc, self.words.len().saturating_add(paths.len()))?;
        let mut from = 0;
        for (path, named) in paths.iter() {
            append(&mut words, &self.words, from, named.before)?;
            if named.file.is_some() {
                words.push(word_at(path.as_bytes(), self.skip))?;
            }
            from = named.behind;
        }
        append(&mut words, &self.words, from, self.words.len())?;
        Ok(Guesses {
            skip: self.skip,
            words,
        })
    }

    /// These if they fit the files, of which a batch named this many. Otherwise the words of the files if both the
    /// files and the named ones are many, and none if they are few.
    pub fn fitted<W>(
        self,
        alloc: Global,
        files: &[Arc<Held<W>, Global>],
        named: usize,
    ) -> Result<Guesses, Memory> {
        if files.len() < FEW {
            return Ok(Guesses::new(alloc));
        }
        if self.words.len() == files.len() && self.skip <= shared_by_all(files) {
            return Ok(self);
        }
        if named < files.len() / FILES_A_PATH {
            return Ok(Guesses::new(alloc));
        }
        Guesses::of(alloc, files)
    }
}

// Puts a part of some words after others.
fn append(words: &mut Vec<u64>, old: &[u64], from: usize, to: usize) -> Result<(), Memory> {
    if from <= to && to <= old.len() {
        words.extend_from_slice(&old[from..to])?;
    }
    Ok(())
}

// The bytes of a path from a place on as a number, the first of them the highest; 0 for each that it doesn't have.
fn word_at(path: &[u8], skip: usize) -> u64 {
    let mut word: u64 = 0;
    for i in 0..BYTES {
        let at = skip.saturating_add(i);
        let byte = if at < path.len() { path[at] } else { 0 };
        word = word.wrapping_mul(256).wrapping_add(byte as u64);
    }
    word
}

// With how many bytes all paths begin: in path order those with which the first and the last do.
fn shared_by_all<W>(files: &[Arc<Held<W>, Global>]) -> usize {
    if files.is_empty() {
        return 0;
    }
    shared(
        files[0].path.as_bytes(),
        files[files.len() - 1].path.as_bytes(),
    )
}

// With how many bytes two texts begin.
fn shared(a: &[u8], b: &[u8]) -> usize {
    let len = a.len().min(b.len());
    for i in 0..len {
        if a[i] != b[i] {
            return i;
        }
    }
    len
}
