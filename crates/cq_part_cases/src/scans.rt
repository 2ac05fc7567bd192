ghost use Rattle.std.specs.Prelude.{◌≡◌, ◌^◌, ◌<◌, ◌≤◌, length, IfOk};

use cq_base::{Class, Group, Keys, Lang, Memory, Norm, Place, Steps, Text};
use cq_scan::scan;
use cq_tokens::{FileTokens, PlainFiles, Tokens};
use std::alloc::Global;
use std::marker::Brand;
use std::sync::Arc;
use std::sync::ledger::{Blank, Ledger};

/// A token that is one byte.
pub(crate) fn token(alloc: Global, byte: u8) -> Result<Norm, Memory>
    ensures { IfOk result (λ norm. length norm.text ≡ 1) }
{
    Ok(Norm {
        lang: Lang::Any,
        class: Class::Ident,
        text: Text::from_bytes(alloc, &[byte])?,
    })
}

// A file whose tokens are the bytes of a text.
#[tactic(auto, using(std::proofs::lemmas::List::Sums::sum_by_push))]
fn file_of<L: Ledger>(alloc: Global, text: &[u8]) -> Result<FileTokens<L>, Memory> {
    let mut norms = Vec::new(alloc);
    for b in text {
        if norms.len() < 1000 {
            norms.push(token(alloc, *b)?)?;
        }
    }
    Ok(FileTokens {
        change: 1,
        tokens: Arc::new(alloc, Tokens::new(alloc, &norms)?)?,
        keys: Arc::new(alloc, Keys::from_vec(Vec::new(alloc)))?,
    })
}

fn listed<L: Ledger>(
    alloc: Global,
    texts: &[&[u8]],
    min: u32,
    blank: Blank,
) -> Result<Vec<Group>, Memory>
    requires few { length texts.now < 2 ^ 32 }
    requires some { 1 ≤ min }
    requires name { blank.name ≡ L.name }
    requires parts { blank.parts ≡ L.parts }
{
    let mut files: Vec<FileTokens<L>> = Vec::new(alloc);
    for text in texts {
        if files.len() < 100 {
            files.push(file_of(alloc, text)?)?;
        }
    }
    let mut steps = Steps::new(blank);
    scan(alloc, &PlainFiles::new(&files), min, &mut steps)
}

// The groups of at most 100 texts.
fn groups_of(alloc: Global, texts: &[&[u8]], min: u32) -> Result<Vec<Group>, Memory>
    requires some { 1 ≤ min }
{
    if texts.len() > 100 {
        return Ok(Vec::new(alloc));
    }
    listed::<Brand>(alloc, texts, min, Blank::new(1))
}

// Whether these are one group, of so many tokens at two places.
fn are_one(groups: &[Group], tokens: u32, first: Place, second: Place) -> bool {
    let Some(group) = groups.first() else {
        return false;
    };
    groups.len() == 1
        && group.tokens == tokens
        && group.places.as_slice() == [first, second].as_slice()
}

#[test]
fn groups_are_listed(rt: HostRuntime) -> Result<(), Memory> {
    let groups = groups_of(rt.alloc(), &[b"xabcy".as_slice(), b"abc".as_slice()], 2)?;
    assert!(rt;
        are_one(
            &groups,
            3,
            Place { file: 0, at: 1 },
            Place { file: 1, at: 0 }
        )
    );
    Ok(())
}
