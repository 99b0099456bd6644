//! What is asked of the occurrences of a class.

ghost use Rattle.std.specs.Prelude.{◌≡◌, ℕ, Bool, IfOk};
ghost use Rattle.cond_formula.specs.Conditions.{condition_of, value};
ghost use Rattle.c_text.specs.Token.{plain_token};
ghost use Rattle.cond_pairings.specs.Pairs.{pairs_seen};
ghost use Rattle.class_occurrences.specs.Occurring as spec;
ghost use Rattle.class_occurrences.specs.Occurring.{some_passes, comes_from_macro_body, is_fixed_of};

use crate::occurrences::{OccurrenceTest, UnitPairs, where_passed};
use c_text::{FileToken, Place, Token};
use changed_forests::copies_any;
use cond_formula::{Formula, NoMemory};
use std::alloc::Global;

/// Whether tokens there stand in a `#define` line.
fn is_macro_body(place: Place) -> bool
    ensures { result ≡ spec.is_macro_body place }
{
    match place {
        Place::MacroBody => true,
        Place::Text | Place::MacroArgument => false,
    }
}

/// An identifier of the class comes out of the body of a macro.
#[derive(Clone, Copy)]
struct FromMacroBody<'a> {
    class: &'a [FileToken],
}

impl OccurrenceTest for FromMacroBody<'_> {
    ghost passes = { λ self. comes_from_macro_body self.class.now };

    fn passes(&self, identifier: &Token, _declared_by: &Token) -> bool {
        is_macro_body(identifier.origin.place) && copies_any(identifier, self.class)
    }
}

/// Whether the occurrence has its name for good: it is `main`, or it or what declares it stands in a built-in header.
fn is_fixed(identifier: &Token, declared_by: &Token) -> bool
    ensures { result ≡ spec.is_fixed (record { identifier = plain_token identifier.now; declared_by = plain_token declared_by.now }) }
{
    identifier.text.as_slice() == b"main".as_slice()
        || !identifier.origin.editable()
        || !declared_by.origin.editable()
}

/// An identifier of the class is fixed.
#[derive(Clone, Copy)]
struct Fixed<'a> {
    class: &'a [FileToken],
}

impl OccurrenceTest for Fixed<'_> {
    ghost passes = { λ self. is_fixed_of self.class.now };

    fn passes(&self, identifier: &Token, declared_by: &Token) -> bool {
        is_fixed(identifier, declared_by) && copies_any(identifier, self.class)
    }
}

/// Where an identifier of the unit that copies a token of the class comes out of the body of a macro (6.10.3).
pub fn where_from_macro_body(
    alloc: Global,
    unit: &UnitPairs<'_>,
    class: &[FileToken],
) -> Result<Formula, NoMemory>
    ensures { IfOk result (λ f. (on : ℕ → Bool) → value on (condition_of f) ≡ some_passes (comes_from_macro_body class.now) unit.now.tokens.now (pairs_seen on unit.now.pairs.now)) }
{
    where_passed(alloc, unit, &FromMacroBody { class })
}

/// Where an identifier of the unit that copies a token of the class is `main`, or it or what declares it stands in a built-in header (5.1.2.2.1).
pub fn where_fixed(
    alloc: Global,
    unit: &UnitPairs<'_>,
    class: &[FileToken],
) -> Result<Formula, NoMemory>
    ensures { IfOk result (λ f. (on : ℕ → Bool) → value on (condition_of f) ≡ some_passes (is_fixed_of class.now) unit.now.tokens.now (pairs_seen on unit.now.pairs.now)) }
{
    where_passed(alloc, unit, &Fixed { class })
}
