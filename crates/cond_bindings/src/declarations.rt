//! A unit's list of declarations, and tables of the latest of each name.

ghost use Rattle.std.specs.Prelude.{◌≡◌, ◌≤◌, [], ◌∷◌, ◌++◌, length, IfOk, OnOk, OnErr};
ghost use Rattle.core_meaning.specs.Entities.{with_entry};
ghost use Rattle.name_places.specs.Places.{place_of};
ghost use Rattle.cond_bindings.specs.Places.{TableBelow};

use crate::unit_bindings::Declaration;
use cond_formula::{Formula, NoMemory};
use name_places::{enter_place, place_in};
use std::alloc::{AllocError, Global};
use std::collections::HashMap;

/// A place is a `u32`, and so is the count.
const MOST_DECLARATIONS: usize = 4_294_967_294;

/// One more declaration. The answer is its place.
pub fn declare(
    declarations: &mut Vec<Declaration>,
    declaration: Declaration,
) -> Result<u32, NoMemory>
    ensures place { IfOk result (λ place. place ≡ length declarations.old.items) }
    ensures items { OnOk result (declarations.new.items ≡ declarations.old.items ++ declaration ∷ []) }
    ensures err { OnErr result (declarations.new.items ≡ declarations.old.items) }
{
    let count = declarations.len();
    if count >= MOST_DECLARATIONS {
        return Err(AllocError);
    }
    declarations.push(declaration)?;
    Ok(count as u32)
}

/// One more declaration of a name, which hides the one that the table has.
pub fn show(
    alloc: Global,
    declarations: &mut Vec<Declaration>,
    table: &mut HashMap<Vec<u8>, u32>,
    name: &[u8],
    number: u32,
    when: Formula,
) -> Result<(), NoMemory>
    ensures declared { OnOk result (declarations.new.items
        ≡ declarations.old.items ++ record { number = number; when = when; hides = place_of table.old name.now } ∷ []) }
    ensures entered { OnOk result (place_of table.new ≡ with_entry (place_of table.old) name.now (length declarations.old.items)) }
    ensures longer { length declarations.old.items ≤ length declarations.new.items }
    ensures below { TableBelow (length declarations.old.items) (place_of table.old)
        → TableBelow (length declarations.new.items) (place_of table.new) }
{
    let hides = place_in(table, name);
    let declaration = Declaration {
        number,
        when,
        hides,
    };
    let place = declare(declarations, declaration)?;
    enter_place(alloc, table, name, place)?;
    Ok(())
}
