ghost use Rattle.std.specs.Prelude.{◌≡◌, ◌<◌, ◌++◌, IfOk};
ghost use Rattle.cq_base.specs.Changes.{IsSoundChange};
ghost use Rattle.cq_make.specs.Generator as spec;

use cq_base::{Change, Lang, Memory, Text};
use std::alloc::Global;

/// The name of the project.
pub(crate) const PROJECT: &[u8] = b"made";

// How many lines a file has.
const LINES: u64 = 20;

fn push_line(alloc: Global, bytes: &mut Vec<u8>, k: u64) -> Result<(), Memory>
    ensures { IfOk result (λ _. bytes.new.items ≡ bytes.old.items ++ spec.line_of k) }
{
    let line = format!(in alloc; "n{k} = n{k} + 1\n")?;
    bytes.extend_from_slice(line.as_bytes())?;
    Ok(())
}

fn number_at(number: u64, file: u32, line: u64) -> u64
    requires { line < 20 }
    ensures { result ≡ spec.number_at number file line }
{
    (number % 100 + 10 * file as u64 + line) % 100
}

fn text_of(alloc: Global, number: u64, file: u32) -> Result<Text, Memory>
    ensures { IfOk result (λ t. t ≡ spec.text_of number file) }
{
    let mut bytes = Vec::new(alloc);
    for line in 0..LINES {
        push_line(alloc, &mut bytes, number_at(number, file, line))?;
    }
    Ok(Text::from_vec(bytes))
}

fn digit_of(n: u32) -> u8
    ensures { result ≡ spec.digit_of n }
{
    b'0' + (n % 10) as u8
}

fn path_of(alloc: Global, file: u32) -> Result<Text, Memory>
    ensures { IfOk result (λ t. t ≡ spec.path_of file) }
{
    let bytes = [
        b'f',
        digit_of(file / 10_000),
        digit_of(file / 1_000),
        digit_of(file / 100),
        digit_of(file / 10),
        digit_of(file),
        b'.',
        b't',
        b'x',
        b't',
    ];
    Text::from_bytes(alloc, &bytes)
}

/// The change that puts a file, from 0.
pub(crate) fn put_of(alloc: Global, number: u64, file: u32) -> Result<Change, Memory>
    ensures change { IfOk result (λ change. change ≡ spec.put_of number file) }
    ensures sound { IfOk result IsSoundChange }
{
    Ok(Change::Put {
        project: Text::from_bytes(alloc, PROJECT)?,
        path: path_of(alloc, file)?,
        lang: Lang::Any,
        text: text_of(alloc, number, file)?,
    })
}
