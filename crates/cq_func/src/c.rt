ghost use Rattle.std.specs.Prelude.{◌≡◌, ◌≤◌, ◌<◌, IfOk, length};
ghost use Rattle.cq_base.specs.declared.lang.Lang.TheVariants as lang;
ghost use Rattle.cq_func.specs.declared.brackets.Kind.TheVariants as kind;
ghost use Rattle.cq_func.specs.Functions as spec;
ghost use Rattle.cq_func.specs.Levels as level;
ghost use Rattle.cq_func.specs.Names as names;
ghost use Rattle.cq_func.specs.Tables as tables;

use crate::brackets::{Kind, is_even, levels, partner, partners, partners_by, signs};
use crate::found::{Found, keep, with_body};
use crate::spelling::is_called;
use cq_base::{Lang, Memory, Spelled};
use std::alloc::Global;

fn c_function(
    tokens: &[Spelled],
    round: &[u32],
    curly: &[u32],
    levels: &[u32],
    name: usize,
) -> Option<Found>
    requires rounds { tables.ArePartners lang.C kind.Round tokens.now round.now }
    requires curlies { tables.ArePartners lang.C kind.Curly tokens.now curly.now }
    requires counted { level.AreLevels lang.C kind.Curly tokens.now levels.now }
    requires few { length tokens.now ≤ 262144 }
    requires within { name < length tokens.now }
    ensures { result ≡ names.c_function tokens.now name }
{
    if is_called(Lang::C, tokens, name) && is_even(Lang::C, Kind::Curly, tokens, levels, name) {
        let close = partner(Lang::C, Kind::Round, tokens, round, name + 1);
        with_body(Lang::C, tokens, curly, name, close + 1)
    } else {
        None
    }
}

/// The functions of a text of C.
pub(crate) fn c_functions(alloc: Global, tokens: &[Spelled]) -> Result<Vec<Found>, Memory>
    requires { length tokens.now ≤ 262144 }
    ensures { IfOk result (λ v. v.items ≡ spec.found lang.C tokens.now) }
{
    let signs = signs(alloc, Lang::C, tokens)?;
    let round = partners(alloc, Lang::C, Kind::Round, tokens, &signs)?;
    let levels = levels(alloc, Lang::C, Kind::Curly, tokens, &signs)?;
    let curly = partners_by(alloc, Lang::C, Kind::Curly, tokens, &levels)?;
    let mut found = Vec::new(alloc);
    for name in 0..tokens.len() {
        keep(
            &mut found,
            c_function(tokens, &round, &curly, &levels, name),
        )?;
    }
    Ok(found)
}
