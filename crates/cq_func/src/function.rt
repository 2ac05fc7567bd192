ghost use Rattle.std.specs.Prelude.{◌≡◌, ◌≤◌, ◌<◌, IfOk, length};
ghost use Rattle.cq_func.specs.Functions as spec;

use crate::c::c_functions;
use crate::found::Found;
use crate::go::go_functions;
use crate::java::java_functions;
use crate::js::js_functions;
use crate::own::own_decisions;
use crate::ts::ts_functions;
use cq_base::{Lang, Memory, Spelled, Text};
use std::alloc::Global;

/// A function of a file: its name, the line of its name, the last line of its body, and its cyclomatic complexity, which is
/// 1 and the decisions in its body that are in no body of a function inside it.
#[derive(Debug, Drop)]
pub struct Function {
    pub name: Text,
    pub first: u32,
    pub last: u32,
    pub complexity: u32,
}

fn found(alloc: Global, lang: Lang, tokens: &[Spelled]) -> Result<Vec<Found>, Memory>
    requires { length tokens.now ≤ 262144 }
    ensures { IfOk result (λ v. v.items ≡ spec.found lang tokens.now) }
{
    match lang {
        Lang::Any => Ok(Vec::new(alloc)),
        Lang::Go => go_functions(alloc, tokens),
        Lang::C => c_functions(alloc, tokens),
        Lang::Java => java_functions(alloc, tokens),
        Lang::Js => js_functions(alloc, tokens),
        Lang::Ts => ts_functions(alloc, tokens),
    }
}

// The function with the decisions that are its own.
fn described(alloc: Global, tokens: &[Spelled], one: Found, own: u32) -> Result<Function, Memory>
    requires named { one.name < length tokens.now }
    requires closed { one.close < length tokens.now }
    requires few { own ≤ 262144 }
    ensures { IfOk result (λ f. f ≡ spec.described tokens.now one own) }
{
    Ok(Function {
        name: tokens[one.name].text.copied(alloc)?,
        first: tokens[one.name].token.first_line,
        last: tokens[one.close].token.last_line,
        complexity: 1 + own,
    })
}

/// The functions of a text of this language, by the places of their names. It costs a few walks over the tokens, whatever
/// their nesting.
pub fn functions(alloc: Global, lang: Lang, tokens: &[Spelled]) -> Result<Vec<Function>, Memory>
    requires { length tokens.now ≤ 262144 }
    ensures { IfOk result (λ v. v.items ≡ spec.functions lang tokens.now) }
{
    let found = found(alloc, lang, tokens)?;
    let own = own_decisions(alloc, lang, tokens, &found)?;
    let mut functions = Vec::with_capacity(alloc, found.len())?;
    for function in &found {
        functions.push(described(alloc, tokens, *function, own[function.brace])?)?;
    }
    Ok(functions)
}
