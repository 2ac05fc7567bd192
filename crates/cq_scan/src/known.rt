ghost use Rattle.std.specs.Prelude.{◌≡◌, ◌↔◌, ◌+◌, ◌≤◌, length, IsTrue, OnOk, Any, AllPairs, Contains};
ghost use Rattle.cq_base.specs.declared.group.Group.{Group};
ghost use Rattle.cq_clones.specs.Groups.{ComesBefore, file_at, IsPlace};
ghost use Rattle.cq_base.specs.Places.{first_place};
ghost use Rattle.cq_order.specs.Order.{AreOrdered};
ghost use Rattle.cq_tokens.specs.Parts.{tokens_in};
ghost use Rattle.cq_scan.specs.Found.{Adds, AreTied, IsOfWord};

use crate::corpus::stands_at;
use cq_base::{Group, Memory, Place, Steps};
use cq_tokens::{FileList, Files};

// Whether both begin at the same place and are equally long.
fn are_tied(g: &Group, h: &Group) -> bool
    ensures { IsTrue result ↔ AreTied g.now h.now }
{
    g.first_place() == h.first_place() && g.tokens == h.tokens
}

// Whether a group that begins at the same place and is equally long is there.
fn is_listed(groups: &[Group], group: &Group) -> bool
    ensures { IsTrue result ↔ Any (λ g. AreTied g group.now) groups.now }
{
    groups.iter().any(|g| are_tied(g, group))
}

// Whether a group is of the word of `tokens` tokens at `p`.
fn is_of_word<F: Files>(
    files: &FileList<'_, F>,
    p: Place,
    tokens: u32,
    group: &Group,
    steps: &mut Steps<F::Reads>,
) -> bool
    requires p_in { IsPlace (tokens_in files.now) p }
    requires within { p.at + tokens ≤ length (file_at (tokens_in files.now) p.file) }
    requires first { IsPlace (tokens_in files.now) (first_place group.now) }
    ensures { IsTrue result ↔ IsOfWord (tokens_in files.now) p tokens group.now }
{
    group.tokens == tokens && stands_at(files, p, tokens, group.first_place(), steps)
}

/// Whether a group of the word of `tokens` tokens at `p` is there. It reads that word once for each group of its
/// length, up to the first difference.
pub(crate) fn is_known<F: Files>(
    files: &FileList<'_, F>,
    p: Place,
    tokens: u32,
    groups: &[Group],
    steps: &mut Steps<F::Reads>,
) -> bool
    requires p_in { IsPlace (tokens_in files.now) p }
    requires within { p.at + tokens ≤ length (file_at (tokens_in files.now) p.file) }
    requires groups { (g : Group) → Contains groups.now g
        → IsPlace (tokens_in files.now) (first_place g) }
    ensures { IsTrue result ↔ Any (IsOfWord (tokens_in files.now) p tokens) groups.now }
{
    for group in groups {
        if is_of_word(files, p, tokens, group, steps) {
            return true;
        }
    }
    false
}

/// Adds a group unless it is there. What ties with it has to be it.
pub(crate) fn add_once(groups: &mut Vec<Group>, group: Group) -> Result<(), Memory>
    requires ordered { AllPairs (AreOrdered ComesBefore) groups.old.items }
    requires ties { (g : Group) → Contains groups.old.items g → AreTied g group → g ≡ group }
    ensures { OnOk result (Adds (λ g. group ≡ g) groups.old.items groups.new.items) }
{
    if is_listed(groups, &group) {
        return Ok(());
    }
    groups.push(group)?;
    Ok(())
}
