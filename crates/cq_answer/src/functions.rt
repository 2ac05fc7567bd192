ghost use Rattle.std.specs.Prelude.{◌≡◌, ◌<◌, ◌^◌, ◌==◌, length, IfOk, IfSome};
ghost use Rattle.std.specs.List.{position};
ghost use Rattle.cq_answer.specs.Parts.{IsWithin};
ghost use Rattle.cq_answer.specs.Rows as spec;
ghost use Rattle.cq_answer.specs.Works.{work_in, works_in, facts_in};

use crate::file::work_of;
use crate::part::Part;
use cq_base::Memory;
use cq_func::Function;
use cq_projects::Held;
use cq_reply::FunctionRows;
use cq_work::Work;
use std::alloc::Global;
use std::sync::Arc;
use std::sync::ledger::Ledger;

fn greatest_complexity(functions: &[Function]) -> u32
    ensures { result ≡ spec.greatest_complexity functions.now }
{
    let mut greatest = 0;
    for function in functions {
        greatest = greatest.max(function.complexity);
    }
    greatest
}

// The first function of this complexity.
fn position_of(functions: &[Function], complexity: u32) -> Option<usize>
    ensures position { result ≡ position (λ f. f.complexity == complexity) functions.now }
    ensures within { IfSome result (λ at. at < length functions.now) }
{
    functions.iter().position(|f| f.complexity == complexity)
}

// The position of the first function of greatest complexity.
fn worst_of(functions: &[Function]) -> Option<u32>
    requires { length functions.now < 2 ^ 32 }
    ensures { result ≡ spec.worst_of functions.now }
{
    match position_of(functions, greatest_complexity(functions)) {
        Some(at) => Some(at as u32),
        None => None,
    }
}

fn copied(alloc: Global, function: &Function) -> Result<Function, Memory>
    ensures { IfOk result (λ f. f ≡ function.now) }
{
    Ok(Function {
        name: function.name.copied(alloc)?,
        first: function.first,
        last: function.last,
        complexity: function.complexity,
    })
}

fn all_copied(alloc: Global, functions: &[Function]) -> Result<Vec<Function>, Memory>
    ensures { IfOk result (λ v. v.items ≡ functions.now) }
{
    let mut all = Vec::new(alloc);
    for function in functions {
        all.push(copied(alloc, function)?)?;
    }
    Ok(all)
}

// The functions of a file.
fn functions_of<L: Ledger>(file: &Arc<Held<Work<L>>, Global>) -> &[Function]
    ensures { result.now ≡ (work_in file.now).body.functions.items }
{
    &work_of(file).functions
}

/// The functions of the part of some files, as a reply shows them, and which of them is the worst.
pub(crate) fn functions_in<L: Ledger>(
    alloc: Global,
    files: &[Arc<Held<Work<L>>, Global>],
    part: Part,
) -> Result<(FunctionRows, Option<u32>), Memory>
    requires within { IsWithin (length files.now) part }
    requires few { spec.AreFewFunctions (facts_in (works_in files.now)) }
    ensures functions { IfOk result
        (λ r. r.0 ≡ spec.functions_of (facts_in (works_in files.now)) part) }
    ensures worst { IfOk result
        (λ r. r.1 ≡ spec.worst_of (spec.functions_of (facts_in (works_in files.now)) part)) }
{
    match part {
        Part::Alone(file) => {
            let functions = functions_of(&files[file as usize]);
            let worst = worst_of(functions);
            Ok((FunctionRows::from_vec(all_copied(alloc, functions)?), worst))
        }
        Part::Whole | Part::File(_) | Part::Nothing => {
            Ok((FunctionRows::from_vec(Vec::new(alloc)), None))
        }
    }
}
