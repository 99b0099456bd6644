//! The names that open blocks declare.

ghost use Rattle.std.specs.Prelude.{◌≡◌, ◌≤◌, [], ◌∷◌, ◌++◌, length, OnOk, OnErr};
ghost use Rattle.cond_bindings.specs.Places.{latest_first, innermost_in, LocalsBelow};

use crate::declarations::declare;
use crate::unit_bindings::Declaration;
use cond_formula::{Formula, NoMemory};
use std::alloc::Global;

/// A name that an open block declares.
#[derive(Drop)]
pub struct LocalName {
    pub name: Vec<u8>,
    /// The place of its declaration.
    pub place: u32,
}

/// The place of the innermost declaration of a name.
pub fn innermost_place(locals: &[LocalName], name: &[u8]) -> Option<u32>
    ensures { result ≡ innermost_in (latest_first locals.now) name.now }
{
    let mut count = locals.len();
    while count > 0 {
        count -= 1;
        let local = &locals[count];
        if name == local.name.as_slice() {
            return Some(local.place);
        }
    }
    None
}

fn enter(
    alloc: Global,
    locals: &mut Vec<LocalName>,
    name: &[u8],
    place: u32,
) -> Result<(), NoMemory>
    ensures ok { OnOk result (latest_first locals.new.items ≡ record { name = name.now; place = place } ∷ latest_first locals.old.items) }
    ensures err { OnErr result (latest_first locals.new.items ≡ latest_first locals.old.items) }
{
    let name = Vec::from_slice(alloc, name)?;
    locals.push(LocalName { name, place })?;
    Ok(())
}

/// One more declaration of a name, which hides the innermost.
pub fn show_local(
    alloc: Global,
    declarations: &mut Vec<Declaration>,
    locals: &mut Vec<LocalName>,
    name: &[u8],
    number: u32,
    when: Formula,
) -> Result<(), NoMemory>
    ensures declared { OnOk result (declarations.new.items
        ≡ declarations.old.items ++ record { number = number; when = when; hides = innermost_in (latest_first locals.old.items) name.now } ∷ []) }
    ensures entered { OnOk result (latest_first locals.new.items
        ≡ record { name = name.now; place = length declarations.old.items } ∷ latest_first locals.old.items) }
    ensures longer { length declarations.old.items ≤ length declarations.new.items }
    ensures below { LocalsBelow (length declarations.old.items) locals.old.items
        → LocalsBelow (length declarations.new.items) locals.new.items }
{
    let hides = innermost_place(locals.as_slice(), name);
    let declaration = Declaration {
        number,
        when,
        hides,
    };
    let place = declare(declarations, declaration)?;
    enter(alloc, locals, name, place)?;
    Ok(())
}
