ghost use Rattle.std.specs.Prelude.{◌≡◌, ◌≤◌, ◌<◌, ◌^◌, ◌↔◌, length, vec_len, slice_get, option_map, IsNone, IfOk};
ghost use Rattle.cq_tokens.specs.Packed as spec;

use crate::seen::Seen;
use cq_base::{Class, Lang, Memory, Norm};
use std::alloc::Global;

/// What a token is but for its text, and where that ends among the bytes of all.
#[derive(Clone, Copy)]
pub(crate) struct Mark {
    pub lang: Lang,
    pub class: Class,
    pub end: u32,
}

/// Tokens whose texts are stored one after the other.
#[derive(Drop)]
pub(crate) struct Packed {
    pub marks: Vec<Mark>,
    pub bytes: Vec<u8>,
}

// How many bytes the texts have.
fn size_of(norms: &[Norm]) -> usize
    requires { spec.spelling_bytes norms.now < 2 ^ 32 }
    ensures { result ≡ spec.spelling_bytes norms.now }
{
    let mut size = 0;
    for norm in norms {
        size += norm.text.as_bytes().len();
    }
    size
}

/// These tokens, with copies of their texts.
pub(crate) fn pack(alloc: Global, norms: &[Norm]) -> Result<Packed, Memory>
    requires few { length norms.now < 2 ^ 32 }
    requires short { spec.spelling_bytes norms.now < 2 ^ 32 }
    ensures tokens { IfOk result (λ p. spec.norms_from 0 p.marks.items p.bytes.items ≡ norms.now) }
    ensures ends { IfOk result (λ p. spec.AreEnds 0 p.marks.items (length p.bytes.items)) }
    ensures few { IfOk result (λ p. vec_len p.marks < 2 ^ 32) }
{
    let mut marks = Vec::with_capacity(alloc, norms.len())?;
    let mut bytes = Vec::with_capacity(alloc, size_of(norms))?;
    for norm in norms {
        bytes.extend_from_slice(norm.text.as_bytes())?;
        marks.push(Mark {
            lang: norm.lang,
            class: norm.class,
            end: bytes.len() as u32,
        })?;
    }
    Ok(Packed { marks, bytes })
}

// Where the text of the token at `i` begins.
fn start_at(marks: &[Mark], i: usize) -> u32
    requires { i < length marks.now }
    ensures { result ≡ spec.start_at 0 marks.now i }
{
    if i == 0 { 0 } else { marks[i - 1].end }
}

/// The token at `i`, from 0.
pub(crate) fn seen_at<'a>(marks: &'a [Mark], bytes: &'a [u8], i: usize) -> Option<Seen<'a>>
    requires { spec.AreEnds 0 marks.now (length bytes.now) }
    ensures token { option_map spec.norm_in result
        ≡ slice_get (spec.norms_from 0 marks.now bytes.now) i }
    ensures none { IsNone result ↔ (length marks.now ≤ i) }
{
    if i >= marks.len() {
        return None;
    }
    let start = start_at(marks, i);
    let mark = marks[i];
    Some(Seen {
        lang: mark.lang,
        class: mark.class,
        text: &bytes[start as usize..mark.end as usize],
    })
}
