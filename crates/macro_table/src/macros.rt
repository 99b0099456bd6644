//! The macros of a project with features.
ghost use Rattle.std.specs.Prelude.{◌≡◌, ◌&&◌, ◌||◌, List, Bool, is_some, IfOk};
ghost use Rattle.std.specs.Str.{bytes_eq};
ghost use Rattle.cond_formula.specs.Features.{has};
ghost use Rattle.cond_formula.specs.Conditions.{condition_of, value};
ghost use Rattle.macro_table.specs.Features.{is_on_feature, macros_at};

use crate::table::MacroTable;
use cond_formula::{Formula, NoMemory};
use std::alloc::Global;

/// The names that stand for something at a place of a text: the macros that are defined, and the features that are on,
/// which are replaced by `1`.
#[derive(Clone, Copy)]
pub struct Macros<'a> {
    /// The project's features in their order.
    pub features: &'a [String],
    pub table: &'a MacroTable,
}

// One more feature of this name.
fn with_feature(alloc: Global, on: Formula, number: usize) -> Result<Formula, NoMemory>
    ensures { IfOk result (λ f. (c : List Bool) → value (has c) (condition_of f) ≡ (value (has c) (condition_of on) || has c number)) }
{
    if number < 128 {
        let either = Formula::or(alloc, on, Formula::Var(number as u8))?;
        return Ok(either);
    }
    Ok(on)
}

// One more feature, if it has this name.
fn with_named(
    alloc: Global,
    on: Formula,
    number: usize,
    feature: &[u8],
    name: &[u8],
) -> Result<Formula, NoMemory>
    ensures { IfOk result (λ f. (c : List Bool) → value (has c) (condition_of f) ≡ (value (has c) (condition_of on) || (bytes_eq name.now feature.now && has c number))) }
{
    if name == feature {
        let either = with_feature(alloc, on, number)?;
        return Ok(either);
    }
    Ok(on)
}

impl Macros<'_> {
    /// The condition under which the name is that of a feature that is on.
    pub fn when_feature(&self, alloc: Global, name: &[u8]) -> Result<Formula, NoMemory>
        ensures { IfOk result (λ f. (c : List Bool) → value (has c) (condition_of f) ≡ is_on_feature (has c) self.now name.now) }
    {
        let mut on = Formula::False;
        for (number, feature) in self.features.iter().enumerate() {
            on = with_named(alloc, on, number, feature.as_bytes(), name)?;
        }
        Ok(on)
    }

    /// The condition under which a name is that of a macro or of a feature that is on.
    pub fn when_defined(&self, alloc: Global, name: &[u8]) -> Result<Formula, NoMemory>
        ensures { IfOk result (λ f. (c : List Bool) → value (has c) (condition_of f) ≡ is_some (macros_at (has c) self.now name.now)) }
    {
        let feature = self.when_feature(alloc, name)?;
        let defined = self.table.when_defined(alloc, name)?;
        let either = Formula::or(alloc, feature, defined)?;
        Ok(either)
    }
}
