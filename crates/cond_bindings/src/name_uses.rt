//! Where a name that is used is undeclared, and where it is one of file scope.

ghost use Rattle.std.specs.Prelude.{◌≡◌, ℕ, Bool, not, ◌&&◌, is_none, is_some, IfOk};
ghost use Rattle.cond_formula.specs.Conditions.{condition_of, conditions_of, value, all_true};
ghost use Rattle.core_meaning.specs.Entities.{or_else};
ghost use Rattle.cond_bindings.specs.Bindings.{visible, innermost, first};
ghost use Rattle.cond_bindings.specs.Unseen.{none_there};

use crate::undeclared::without_visible;
use crate::unit_bindings::Declaration;
use cond_formula::{Formula, NoMemory};
use path_conditions::{conjoined, copied};
use std::alloc::Global;

/// What a use of a name sees.
#[derive(Drop)]
pub struct NameUse {
    /// The condition under which no declaration of the name is visible.
    pub undeclared: Formula,
    /// The condition under which it is declared at file scope, and in no open block.
    pub of_file: Formula,
}

/// What a use sees on the path where no block declares the name.
fn use_at_file(
    alloc: Global,
    declarations: &[Declaration],
    file: Option<u32>,
    path: Vec<Formula>,
) -> Result<NameUse, NoMemory>
    ensures undeclared { IfOk result (λ name. (on : ℕ → Bool) → value on (condition_of name.undeclared)
        ≡ (all_true on (conditions_of path.items) && none_there on (visible declarations.now file))) }
    ensures of_file { IfOk result (λ name. (on : ℕ → Bool) → value on (condition_of name.of_file)
        ≡ (all_true on (conditions_of path.items) && not (none_there on (visible declarations.now file)))) }
{
    let here = conjoined(alloc, &path)?;
    match without_visible(alloc, declarations, file, path)? {
        None => Ok(NameUse {
            undeclared: Formula::False,
            of_file: here,
        }),
        Some(left) => {
            let undeclared = conjoined(alloc, &left)?;
            let declared = Formula::not(alloc, undeclared.try_clone(alloc)?)?;
            let of_file = Formula::and(alloc, here, declared)?;
            Ok(NameUse {
                undeclared,
                of_file,
            })
        }
    }
}

/// What a use on the path sees of a name, of which the latest declarations in open blocks and at file scope have these places.
pub fn name_use(
    alloc: Global,
    declarations: &[Declaration],
    block: Option<u32>,
    file: Option<u32>,
    path: &[Formula],
) -> Result<NameUse, NoMemory>
    ensures undeclared { IfOk result (λ name. (on : ℕ → Bool) → value on (condition_of name.undeclared)
        ≡ (all_true on (conditions_of path.now)
        && is_none (or_else (innermost on (visible declarations.now block)) (first on (visible declarations.now file))))) }
    ensures of_file { IfOk result (λ name. (on : ℕ → Bool) → value on (condition_of name.of_file)
        ≡ (all_true on (conditions_of path.now)
        && (not (is_some (innermost on (visible declarations.now block))) && is_some (first on (visible declarations.now file))))) }
{
    let path = copied(alloc, path)?;
    match without_visible(alloc, declarations, block, path)? {
        None => Ok(NameUse {
            undeclared: Formula::False,
            of_file: Formula::False,
        }),
        Some(left) => use_at_file(alloc, declarations, file, left),
    }
}
