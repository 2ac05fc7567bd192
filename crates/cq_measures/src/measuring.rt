ghost use Rattle.std.specs.Prelude.{◌≡◌, ◌≤◌, ◌<◌, ◌^◌, length, All, IfOk};
ghost use Rattle.std.specs.List.Sorted.{IsStrictlyIncreasing};
ghost use Rattle.cq_measures.specs.Calls.{AreMeasurable, AreMeasuresBy};
ghost use Rattle.cq_measures.specs.Measures as spec;
ghost use Rattle.cq_measures.specs.Parted.{AreRunsInside, runs_in};

use crate::choosing::{chosen_extents, chosen_files};
use crate::counting::{Tally, count_up};
use crate::extent::FileLines;
use crate::parting::{count_places, parted, runs_of};
use crate::tallying::{added, file_tally, least_files, tallies_of};
use cq_base::{FileCounts, Group, Measures, Memory};
use std::alloc::Global;
use std::thread::Threads;

fn density(duplicated: u64, lines: u64) -> u64
    requires { duplicated ≤ 2 ^ 50 }
    ensures { result ≡ spec.density duplicated lines }
{
    if lines == 0 {
        0
    } else {
        10_000 * duplicated / lines
    }
}

// The counts of all files together.
fn total(files: &[FileLines]) -> FileCounts
    requires few { length files.now ≤ 262144 }
    requires small { All spec.AreSmall (spec.counts_of files.now) }
    ensures { result ≡ spec.total (spec.counts_of files.now) }
{
    let mut all = FileCounts {
        lines: 0,
        ncloc: 0,
        complexity: 0,
    };
    for file in files {
        all.lines += file.counts.lines;
        all.ncloc += file.counts.ncloc;
        all.complexity += file.counts.complexity;
    }
    all
}

// The measures of `files` files with these counts, whose places have these extents.
fn measures_of(files: u64, counts: FileCounts, tally: Tally) -> Measures
    requires { tally.lines ≤ 2 ^ 50 }
    ensures { AreMeasuresBy files counts tally result }
{
    Measures {
        lines: counts.lines,
        ncloc: counts.ncloc,
        files,
        complexity: counts.complexity,
        dup_lines: tally.lines,
        dup_blocks: tally.extents,
        dup_files: tally.files,
        density: density(tally.lines, counts.lines),
    }
}

/// The measures of a project of these files, with the places that groups of their tokens have. The places are parted among
/// the files in one walk, and each file's are counted by itself, in threads if they are many: the result is the same
/// whatever their number. If memory is refused in a thread, it is refused by the call.
pub fn project_measures<R: Threads + Sync>(
    rt: &R,
    alloc: Global,
    files: &[FileLines],
    groups: &[Group],
) -> Result<Measures, Memory>
    requires { AreMeasurable files.now groups.now }
    ensures { IfOk result (λ m. m ≡ spec.measures_of_project files.now groups.now) }
{
    let parts = parted(alloc, files.len(), groups)?;
    let least = least_files(files.len(), count_places(groups));
    let tallies = tallies_of(rt, alloc, files, &parts, least)?;
    let tally = added(&tallies)?;
    Ok(measures_of(files.len() as u64, total(files), tally))
}

/// The measures of the file with this number, with the places that groups of all files' tokens have in it. Nothing of the
/// other files is looked at but the groups' places in them.
pub fn file_measures(
    alloc: Global,
    file: u32,
    lines: &FileLines,
    groups: &[Group],
) -> Result<Measures, Memory>
    requires few { file < 262144 }
    requires inside { AreRunsInside lines.now.spans.now (runs_in file groups.now) }
    ensures { IfOk result (spec.AreOfFile lines.now file groups.now) }
{
    let runs = runs_of(alloc, file, groups)?;
    let tally = file_tally(alloc, file, lines.spans, &runs)?;
    Ok(measures_of(1, lines.counts, tally))
}

/// The measures of only some of the files, which are given by their numbers, ascending, with the places that groups of all
/// files' tokens have in them. Nothing of the other files is looked at but the groups' places in them; of each place it is
/// found by halving whether its file is chosen.
pub fn chosen_measures(
    alloc: Global,
    files: &[FileLines],
    chosen: &[u32],
    groups: &[Group],
) -> Result<Measures, Memory>
    requires measurable { AreMeasurable files.now groups.now }
    requires ascending { IsStrictlyIncreasing chosen.now }
    requires inside { All (λ file. file < length files.now) chosen.now }
    ensures { IfOk result (λ m. m ≡ spec.measures_of_chosen files.now chosen.now groups.now) }
{
    let lines = chosen_files(alloc, files, chosen)?;
    let tally = count_up(chosen_extents(alloc, files, chosen, groups)?);
    Ok(measures_of(chosen.len() as u64, total(&lines), tally))
}
