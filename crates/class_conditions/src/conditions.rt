//! The occurrences of a class in the units of a project.

ghost use Rattle.std.specs.Prelude.{◌≡◌, ℕ, Bool, IfOk};
ghost use Rattle.cond_formula.specs.Conditions.{condition_of, value};
ghost use Rattle.cond_pairings.specs.Pairs.{pairs_seen};
ghost use Rattle.class_occurrences.specs.Occurring.{Occurring, some_passes, comes_from_macro_body, is_fixed_of};
ghost use Rattle.class_conditions.specs.Told.{some_unit_passes};

use c_text::FileToken;
use class_occurrences::{UnitPairs, where_fixed, where_from_macro_body};
use cond_formula::{Formula, NoMemory};
use cond_tokens::CondStream;
use conditional_steps::never;
use reduced_conditions::either;
use std::alloc::Global;
use told_occurrences::ToldUnit;

/// A test of the occurrences of a unit.
trait UnitTest {
    ghost passes: { Self → Occurring → Bool };

    /// Where one passes.
    fn where_passed(&self, alloc: Global, unit: &UnitPairs<'_>) -> Result<Formula, NoMemory>
        ensures { IfOk result (λ f. (on : ℕ → Bool) → value on (condition_of f) ≡ some_passes (passes self.now) unit.now.tokens.now (pairs_seen on unit.now.pairs.now)) };
}

/// An identifier of the class comes out of the body of a macro.
#[derive(Clone, Copy)]
struct FromMacroBody<'a> {
    class: &'a [FileToken],
}

impl UnitTest for FromMacroBody<'_> {
    ghost passes = { λ self. comes_from_macro_body self.class.now };

    fn where_passed(&self, alloc: Global, unit: &UnitPairs<'_>) -> Result<Formula, NoMemory> {
        where_from_macro_body(alloc, unit, self.class)
    }
}

/// An identifier of the class is fixed.
#[derive(Clone, Copy)]
struct Fixed<'a> {
    class: &'a [FileToken],
}

impl UnitTest for Fixed<'_> {
    ghost passes = { λ self. is_fixed_of self.class.now };

    fn where_passed(&self, alloc: Global, unit: &UnitPairs<'_>) -> Result<Formula, NoMemory> {
        where_fixed(alloc, unit, self.class)
    }
}

/// Where an occurrence that is told of one unit passes.
fn where_unit_passes<T: UnitTest>(
    alloc: Global,
    stream: &CondStream,
    told: &ToldUnit,
    test: &T,
) -> Result<Formula, NoMemory>
    ensures { IfOk result (λ f. (on : ℕ → Bool) → value on (condition_of f) ≡ some_passes (T.passes test.now) stream.now.tokens.items (pairs_seen on told.now.pairs.items)) }
{
    let unit = UnitPairs {
        tokens: &stream.tokens,
        pairs: &told.pairs,
    };
    test.where_passed(alloc, &unit)
}

/// Where one passes that is told of some unit.
fn where_told_passes<T: UnitTest>(
    alloc: Global,
    streams: &[CondStream],
    told: &[ToldUnit],
    test: &T,
) -> Result<Formula, NoMemory>
    ensures { IfOk result (λ f. (on : ℕ → Bool) → value on (condition_of f) ≡ some_unit_passes on (T.passes test.now) streams.now told.now) }
{
    let mut passed = never()?;
    let count = streams.len().min(told.len());
    for i in 0..count {
        let here = where_unit_passes(alloc, &streams[i], &told[i], test)?;
        passed = either(alloc, passed, here)?;
    }
    Ok(passed)
}

/// Where an identifier of the class comes out of the body of a macro, in some unit that has a stream and is told of (6.10.3).
pub fn where_in_macro_body(
    alloc: Global,
    streams: &[CondStream],
    told: &[ToldUnit],
    class: &[FileToken],
) -> Result<Formula, NoMemory>
    ensures { IfOk result (λ f. (on : ℕ → Bool) → value on (condition_of f) ≡ some_unit_passes on (comes_from_macro_body class.now) streams.now told.now) }
{
    where_told_passes(alloc, streams, told, &FromMacroBody { class })
}

/// Where an identifier of the class is `main`, or it or what declares it stands in a built-in header, in some such unit (5.1.2.2.1).
pub fn where_fixed_in(
    alloc: Global,
    streams: &[CondStream],
    told: &[ToldUnit],
    class: &[FileToken],
) -> Result<Formula, NoMemory>
    ensures { IfOk result (λ f. (on : ℕ → Bool) → value on (condition_of f) ≡ some_unit_passes on (is_fixed_of class.now) streams.now told.now) }
{
    where_told_passes(alloc, streams, told, &Fixed { class })
}
