ghost use Rattle.std.specs.Prelude.{◌≡◌, ◌++◌, OnOk};
ghost use Rattle.std.specs.Option.{option_to_list};
ghost use Rattle.cq_func.specs.declared.brackets.Kind.TheVariants as kind;
ghost use Rattle.cq_func.specs.Names as spec;
ghost use Rattle.cq_func.specs.Tables as tables;

use crate::brackets::{Kind, partner};
use crate::spelling::stands;
use cq_base::{Lang, Memory, Spelled};

/// Where a function's name is, and where its body begins and ends, as places of tokens.
#[derive(Clone, Copy, Debug, PartialEq, Eq)]
pub(crate) struct Found {
    pub name: usize,
    pub brace: usize,
    pub close: usize,
}

/// The function with this name whose body begins here, if a brace with a partner does.
pub(crate) fn with_body(
    lang: Lang,
    tokens: &[Spelled],
    curly: &[u32],
    name: usize,
    brace: usize,
) -> Option<Found>
    requires { tables.ArePartners lang kind.Curly tokens.now curly.now }
    ensures { result ≡ spec.with_body lang tokens.now name brace }
{
    if !stands(lang, tokens, brace, b"{") {
        return None;
    }
    let close = partner(lang, Kind::Curly, tokens, curly, brace);
    if close < tokens.len() {
        Some(Found { name, brace, close })
    } else {
        None
    }
}

/// One function more, if there is one.
pub(crate) fn keep(found: &mut Vec<Found>, function: Option<Found>) -> Result<(), Memory>
    ensures { OnOk result (found.new.items ≡ found.old.items ++ option_to_list function) }
{
    if let Some(function) = function {
        found.push(function)?;
    }
    Ok(())
}
