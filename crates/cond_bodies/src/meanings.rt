//! What a name stands for in all configurations.
ghost use Rattle.std.specs.Prelude.{◌≡◌, ℕ, Bool, Some, ◌++◌, map, IsTrue, IfOk, OnOk};
ghost use Rattle.c_text.specs.Token.{plain_token};
ghost use Rattle.c_text.specs.PlainMacros.{plain_macro};
ghost use Rattle.cond_formula.specs.Conditions.{condition_of, value};
ghost use Rattle.conditional.specs.Entries.{entries_of, seen, some_holds, under};

use c_text::{Macro, Token};
use cond_formula::{Formula, NoMemory};
use conditional::Guarded;
use reduced_conditions::{either, is_never};
use std::alloc::Global;

/// A function-like macro.
#[derive(Clone, Copy)]
pub struct Function<'t> {
    pub params: &'t [Vec<u8>],
    pub body: &'t [Token],
}

/// What a name stands for, under conditions that exclude each other.
#[derive(Drop)]
pub struct Meanings<'t> {
    /// Where it is a feature that is on.
    pub feature: Formula,
    pub objects: Vec<Guarded<&'t [Token]>>,
    pub functions: Vec<Guarded<Function<'t>>>,
}

impl<'t> Meanings<'t> {
    ghost use Rattle.macro_table.specs.MacroTables.{macro_meaning};
    ghost use Rattle.std.specs.Prelude.{Option, is_some};
    ghost use Rattle.c_text.specs.Macros as spec;
    ghost use Rattle.cond_bodies.specs.CondMeanings.{plain_function, object_of, function_of, HasNothing, Means};

    /// One more macro under its condition.
    pub fn add(&mut self, when: Formula, given: &'t Macro) -> Result<(), NoMemory>
        ensures feature { self.new.feature ≡ self.old.feature }
        ensures objects { OnOk result ((on : ℕ → Bool) → seen on (entries_of (λ b. map plain_token b.now) self.new.objects.items) ≡ seen on (entries_of (λ b. map plain_token b.now) self.old.objects.items) ++ under (value on (condition_of when)) (object_of (Some (macro_meaning (plain_macro given.now))))) }
        ensures functions { OnOk result ((on : ℕ → Bool) → seen on (entries_of plain_function self.new.functions.items) ≡ seen on (entries_of plain_function self.old.functions.items) ++ under (value on (condition_of when)) (function_of (Some (macro_meaning (plain_macro given.now))))) }
    {
        let body = given.body.as_slice();
        match &given.params {
            None => self.objects.push(Guarded { when, what: body })?,
            Some(params) => {
                let what = Function {
                    params: params.as_slice(),
                    body,
                };
                self.functions.push(Guarded { when, what })?;
            }
        }
        Ok(())
    }

    /// Where the name is a macro's or a feature's.
    pub fn when_any(&self, alloc: Global) -> Result<Formula, NoMemory>
        ensures { IfOk result (λ f. (on : ℕ → Bool) (meaning : Option spec.Meaning) → Means on meaning self.now → value on (condition_of f) ≡ is_some meaning) }
    {
        let objects = when_some(alloc, self.objects.as_slice())?;
        let functions = when_some(alloc, self.functions.as_slice())?;
        let some = either(alloc, objects, functions)?;
        let some = either(alloc, some, self.feature.try_clone(alloc)?)?;
        Ok(some)
    }

    /// Whether the name is no macro's and no feature's in any configuration, as far as the conditions show.
    pub fn is_nothing(&self) -> bool
        ensures { IsTrue result → (on : ℕ → Bool) → HasNothing on self.now }
    {
        self.objects.is_empty() && self.functions.is_empty() && is_never(&self.feature)
    }
}

/// Where one of the entries holds.
pub fn when_some<T>(alloc: Global, entries: &[Guarded<T>]) -> Result<Formula, NoMemory>
    ensures { IfOk result (λ f. (on : ℕ → Bool) → value on (condition_of f) ≡ some_holds on (entries_of (λ x. x) entries.now)) }
{
    let mut some = Formula::False;
    for entry in entries {
        some = either(alloc, some, entry.when.try_clone(alloc)?)?;
    }
    Ok(some)
}
