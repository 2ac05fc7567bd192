ghost use Rattle.std.specs.Prelude.{◌≡◌, ◌<◌, ◌^◌, IfOk, Some, length, map, option_copied, All};
ghost use Rattle.std.specs.List.Sorted.{IsStrictlyIncreasing};
ghost use Rattle.std.specs.Arc.{arc_value};
ghost use Rattle.cq_scope.specs.Chosen as spec;

use crate::pattern::{Pattern, fits};
use cq_base::{Memory, Text};
use cq_names::is_path;
use cq_projects::Held;
use std::alloc::Global;
use std::sync::Arc;

fn is_fit(pattern: &Pattern, path: &Text) -> bool
    ensures { result ≡ spec.is_in_scope (Some pattern.now) path.now }
{
    if !is_path(path.as_bytes()) {
        return false;
    }
    fits(pattern, path)
}

// Whether the text is a path that fits the pattern, if there is one.
fn is_in_scope(scope: Option<&Pattern>, path: &Text) -> bool
    ensures { result ≡ spec.is_in_scope (option_copied scope.entry) path.now }
{
    match scope {
        Some(pattern) => is_fit(pattern, path),
        None => true,
    }
}

/// Whether a file's path fits the pattern, if there is one, and a change above `since` put the file. Its path is looked at
/// only if it changed.
pub fn is_chosen<W>(scope: Option<&Pattern>, since: u64, file: &Arc<Held<W>, Global>) -> bool
    ensures { result ≡ spec.is_chosen (option_copied scope.entry) since (arc_value file.now) }
{
    since < file.change && is_in_scope(scope, &file.path)
}

/// The positions of the files whose path fits the pattern, or of all if there is none, and that a change above `since`
/// put. What is not a path fits no pattern. Each file's path is compared once at most.
pub fn choose<W>(
    alloc: Global,
    files: &[Arc<Held<W>, Global>],
    scope: Option<&Pattern>,
    since: u64,
) -> Result<Vec<u32>, Memory>
    requires { length files.now < 2 ^ 32 }
    ensures chosen { IfOk result
        (λ v. v.items ≡ spec.chosen (option_copied scope.entry) since (map arc_value files.now)) }
    ensures ascending { IfOk result (λ v. IsStrictlyIncreasing v.items) }
    ensures inside { IfOk result (λ v. All (λ i. i < length files.now) v.items) }
{
    let mut chosen = Vec::new(alloc);
    for i in 0..files.len() as u32 {
        if is_chosen(scope, since, &files[i as usize]) {
            chosen.push(i)?;
        }
    }
    Ok(chosen)
}
