//! Identifiers that name members.
ghost use Rattle.std.specs.Prelude.{◌≡◌, ℕ, Bool, Option, ◌∷◌, ◌++◌, Some, IfOk};
ghost use Rattle.cond_formula.specs.Conditions.{condition_of, value};
ghost use Rattle.c_text.specs.Token.{plain_token};
ghost use Rattle.bindings.specs.Bindings as bindings;
ghost use Rattle.conditional.specs.Entries.{seen, under, first, entries_of, listed};
ghost use Rattle.selections.specs.Selections.{structure_named, with_identifier};
ghost use Rattle.cond_selections.specs.Selected.{structure_number, plain_selection};
ghost use Rattle.cond_selections.specs.Progress.{ShowsStructure, one_selection, Logs};

use crate::entries::{Selection, Structure};
use crate::structures::Structures;
use c_text::Token;
use c_tree::{Terminal, terminal};
use cond_formula::{Formula, NoMemory};
use conditional::{CondList, Guarded, when_some_hold};
use conditional_steps::both_of;
use reduced_conditions::{is_never, without};
use std::alloc::Global;

/// One selection more, where the condition is true.
fn push(when: Formula, selection: Selection, log: &mut CondList<Selection>) -> Result<(), NoMemory>
    ensures { IfOk result (λ _. (on : ℕ → Bool) → seen on (listed plain_selection log.new) ≡ seen on (listed plain_selection log.old) ++ under (value on (condition_of when)) (one_selection (plain_token selection.name) (Some selection.structure))) }
{
    if is_never(&when) {
        return Ok(());
    }
    log.push(when, selection)?;
    Ok(())
}

/// An identifier that selects in the first of these structs that is there.
fn push_first(
    alloc: Global,
    when: &Formula,
    structures: &[Guarded<Structure>],
    name: &Token,
    log: &mut CondList<Selection>,
) -> Result<(), NoMemory>
    ensures { IfOk result (λ _. (on : ℕ → Bool) → seen on (listed plain_selection log.new)
        ≡ seen on (listed plain_selection log.old) ++ under (value on (condition_of when.now)) (one_selection (plain_token name.now) (first (seen on (entries_of structure_number structures.now))))) }
{
    let mut left = when.try_clone(alloc)?;
    for structure in structures {
        let here = both_of(alloc, &left, &structure.when)?;
        let selection = Selection {
            name: name.try_clone(alloc)?,
            structure: structure.what.number,
        };
        push(here, selection, log)?;
        left = without(alloc, left, &structure.when)?;
    }
    Ok(())
}

/// An identifier that selects in this struct, if in any.
fn push_selection(
    alloc: Global,
    when: Formula,
    structures: &Structures,
    name: &Token,
    log: &mut CondList<Selection>,
) -> Result<(), NoMemory>
    ensures { IfOk result (λ _. (on : ℕ → Bool) (owner : Option ℕ) → ShowsStructure on owner structures.now → seen on (listed plain_selection log.new)
        ≡ seen on (listed plain_selection log.old) ++ under (value on (condition_of when)) (one_selection (plain_token name.now) owner)) }
{
    let refused = when_some_hold(alloc, &structures.refused.entries)?;
    let here = without(alloc, when, &refused)?;
    push_first(alloc, &here, &structures.fine.alternatives, name, log)?;
    Ok(())
}

fn is_name(token: &Token) -> bool
    ensures { result ≡ bindings.is_name (plain_token token.now) }
{
    Terminal::Name.is(terminal(token))
}

/// A token of a node that selects in this struct, which it names a member of where the second condition is true.
pub(crate) fn push_token(
    alloc: Global,
    when: &Formula,
    turned: &Formula,
    structures: &Structures,
    token: &Token,
    log: &mut CondList<Selection>,
) -> Result<(), NoMemory>
    ensures { IfOk result (λ _. (on : ℕ → Bool) (owner : Option ℕ) (number : ℕ) → ShowsStructure on owner structures.now
        → Logs (value on (condition_of when.now)) (λ behind. record { number = Some number; text = plain_token token.now } ∷ behind)
        (with_identifier (plain_token token.now) (structure_named owner (value on (condition_of turned.now))))
        (seen on (listed plain_selection log.old)) (seen on (listed plain_selection log.new))) }
{
    if !is_name(token) {
        return Ok(());
    }
    let here = both_of(alloc, when, turned)?;
    push_selection(alloc, here, structures, token, log)?;
    Ok(())
}
