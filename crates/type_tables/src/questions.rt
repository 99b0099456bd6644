//! What is asked of tables: conditions under which something is declared or complete.
ghost use Rattle.std.specs.Prelude.{◌≡◌, ℕ, Bool, true, false, List, ◌∷◌, reverse, IfOk};
ghost use Rattle.cond_formula.specs.Conditions.{condition_of, value};
ghost use Rattle.type_tables.specs.Tables.{local_named, is_in_block};
ghost use Rattle.type_tables.specs.Seen.{locals_in};
ghost use Rattle.type_tables.specs.declared.entries.LocalName.{LocalName};
ghost use Rattle.c_types.specs.Types.{plain_type};
ghost use Rattle.core_meaning.specs.Constancy.{capped};
ghost use Rattle.cond_sums.specs.Sums.{sum_at};
ghost use Rattle.operand_types.specs.OperandTypes as operands;

use crate::entries::{CondName, LocalName};
use crate::tables::Tables;
use c_types::CType;
use cond_formula::{Formula, NoMemory};
use cond_sums::CondSum;
use reduced_conditions::{either, without};
use std::alloc::Global;

/// A condition that is never true.
#[tactic(auto, using(cond_formula::specs::ConditionLaws::formula_kinds))]
fn never() -> Result<Formula, NoMemory>
    ensures { IfOk result (λ f. (on : ℕ → Bool) → value on (condition_of f) ≡ false) }
{
    Ok(Formula::False)
}

/// A condition that is always true.
#[tactic(auto, using(cond_formula::specs::ConditionLaws::formula_kinds))]
fn always() -> Result<Formula, NoMemory>
    ensures { IfOk result (λ f. (on : ℕ → Bool) → value on (condition_of f) ≡ true) }
{
    Ok(Formula::True)
}

/// No scalars.
fn none(alloc: Global) -> Result<CondSum, NoMemory>
    ensures { IfOk result (λ s. (on : ℕ → Bool) → sum_at on s ≡ 0) }
{
    Ok(CondSum::nothing(alloc))
}

/// One scalar.
fn one_scalar(alloc: Global) -> Result<CondSum, NoMemory>
    ensures { IfOk result (λ s. (on : ℕ → Bool) → capped (sum_at on s) ≡ 1) }
{
    let one = CondSum::number(alloc, 1)?;
    Ok(one)
}

/// The struct that a type is made of, if there is one.
#[tactic(auto, using(c_types::specs::TypeLaws::type_kinds))]
fn struct_in(ty: &CType) -> Option<u32>
    ensures { result ≡ operands.struct_in (plain_type ty.now) }
{
    match ty {
        CType::Pointer(target) => struct_in(target),
        CType::Array(element, _) => struct_in(element),
        CType::Struct(number) => Some(*number),
        CType::Void
        | CType::Char
        | CType::UChar
        | CType::Int
        | CType::UInt
        | CType::Long
        | CType::ULong => None,
    }
}

/// Where the innermost local of a name is declared in the block at this depth, with one more local.
fn with_local(
    alloc: Global,
    found: Formula,
    local: &LocalName,
    name: &[u8],
    depth: u32,
) -> Result<Formula, NoMemory>
    ensures { IfOk result (λ f. (on : ℕ → Bool) (outer : List LocalName) → value on (condition_of found) ≡ is_in_block depth (local_named (locals_in on outer) name.now)
        → value on (condition_of f) ≡ is_in_block depth (local_named (locals_in on (local.now ∷ outer)) name.now)) }
{
    if name != local.name.as_slice() {
        return Ok(found);
    }
    if local.depth == depth {
        return either(alloc, found, local.when.try_clone(alloc)?);
    }
    without(alloc, found, &local.when)
}

/// Where the innermost local of a name is declared in the block at this depth.
#[tactic(auto, using(cond_formula::specs::ConditionLaws::formula_kinds))]
fn where_in_block(
    alloc: Global,
    locals: &[LocalName],
    name: &[u8],
    depth: u32,
) -> Result<Formula, NoMemory>
    ensures { IfOk result (λ f. (on : ℕ → Bool) → value on (condition_of f) ≡ is_in_block depth (local_named (locals_in on (reverse locals.now)) name.now)) }
{
    let mut found = Formula::False;
    for local in locals {
        found = with_local(alloc, found, local, name, depth)?;
    }
    Ok(found)
}

impl Tables {
    ghost use Rattle.std.specs.Prelude.{◌≡◌, ℕ, Bool, None, IfOk, IfSome, IfNone};
    ghost use Rattle.conditional.specs.Entries.{seen, first, listed};
    ghost use Rattle.cond_formula.specs.Conditions.{condition_of, value};
    ghost use Rattle.c_types.specs.Types.{plain_type};
    ghost use Rattle.operand_types.specs.OperandTypes as operands;
    ghost use Rattle.core_meaning.specs.Constancy.{capped};
    ghost use Rattle.cond_sums.specs.Sums.{sum_at};
    ghost use Rattle.type_tables.specs.Tables.{local_named, is_in_block, is_complete_type, is_complete_in, scalars_in, is_small};
    ghost use Rattle.type_tables.specs.Forms.{file_name_form};
    ghost use Rattle.type_tables.specs.Seen.{seen_tables};
    ghost use Rattle.type_tables.specs.Questions.{where_declared};

    /// The number of the struct with this tag, which is visible where that struct is declared.
    pub fn tagged(&self, tag: &[u8]) -> Option<u32>
        ensures { (on : ℕ → Bool) → (seen_tables on self.now).tags tag.now ≡ where_declared (seen_tables on self.now) result }
    {
        self.found(tag)
    }

    /// What a name of file scope stands for, if it is declared in any configuration.
    pub fn named(&self, name: &[u8]) -> Option<&CondName>
        ensures some { IfSome result (λ n. (on : ℕ → Bool) → (seen_tables on self.now).names name.now ≡ first (seen on (listed file_name_form n.now.meanings))) }
        ensures none { IfNone result ((on : ℕ → Bool) → (seen_tables on self.now).names name.now ≡ None) }
    {
        let place = self.name_found(name)?;
        self.declared.get(place as usize)
    }

    /// Where a struct is declared.
    pub fn where_declared(&self, alloc: Global, number: u32) -> Result<Formula, NoMemory>
        ensures { IfOk result (λ f. (on : ℕ → Bool) → value on (condition_of f) ≡ (seen_tables on self.now).declared number) }
    {
        match self.structs.get(number as usize) {
            Some(s) => s.declared.try_clone(alloc),
            None => never(),
        }
    }

    /// Where a type is complete (6.2.5).
    #[tactic(auto, using(c_types::specs::TypeLaws::type_kinds, cond_formula::specs::ConditionLaws::formula_kinds))]
    pub fn where_complete(&self, alloc: Global, ty: &CType) -> Result<Formula, NoMemory>
        ensures { IfOk result (λ f. (on : ℕ → Bool) → value on (condition_of f) ≡ is_complete_type (seen_tables on self.now) (plain_type ty.now)) }
    {
        match ty {
            CType::Void => Ok(Formula::False),
            CType::Struct(number) => self.where_struct_complete(alloc, *number),
            CType::Char
            | CType::UChar
            | CType::Int
            | CType::UInt
            | CType::Long
            | CType::ULong
            | CType::Pointer(_)
            | CType::Array(..) => Ok(Formula::True),
        }
    }

    /// Where a struct is complete.
    fn where_struct_complete(&self, alloc: Global, number: u32) -> Result<Formula, NoMemory>
        ensures { IfOk result (λ f. (on : ℕ → Bool) → value on (condition_of f) ≡ (seen_tables on self.now).complete number) }
    {
        match self.structs.get(number as usize) {
            Some(s) => s.complete.try_clone(alloc),
            None => never(),
        }
    }

    /// Where the struct that a type is made of is complete; everywhere, if it is made of none.
    pub fn where_struct_in_complete(&self, alloc: Global, ty: &CType) -> Result<Formula, NoMemory>
        ensures { IfOk result (λ f. (on : ℕ → Bool) → value on (condition_of f) ≡ is_complete_in (seen_tables on self.now) (operands.struct_in (plain_type ty.now))) }
    {
        match struct_in(ty) {
            Some(number) => self.where_struct_complete(alloc, number),
            None => always(),
        }
    }

    /// How many scalars a struct has.
    fn struct_scalars(&self, alloc: Global, number: u32) -> Result<CondSum, NoMemory>
        ensures { IfOk result (λ s. (on : ℕ → Bool) → capped (sum_at on s) ≡ (seen_tables on self.now).scalars number) }
    {
        match self.structs.get(number as usize) {
            Some(s) => s.scalars.try_clone(alloc),
            None => none(alloc),
        }
    }

    /// How many scalars an object of a type has.
    #[tactic(auto, using(c_types::specs::TypeLaws::type_kinds))]
    pub fn scalars_of(&self, alloc: Global, ty: &CType) -> Result<CondSum, NoMemory>
        ensures { IfOk result (λ s. (on : ℕ → Bool) → capped (sum_at on s) ≡ scalars_in (seen_tables on self.now) (plain_type ty.now)) }
    {
        match ty {
            CType::Array(element, count) => {
                let one = self.scalars_of(alloc, element)?;
                let all = one.times(alloc, *count)?;
                Ok(all)
            }
            CType::Struct(number) => self.struct_scalars(alloc, *number),
            CType::Void
            | CType::Char
            | CType::UChar
            | CType::Int
            | CType::UInt
            | CType::Long
            | CType::ULong
            | CType::Pointer(_) => one_scalar(alloc),
        }
    }

    /// Where an object of a type has no more scalars than an object may have.
    pub fn where_small(&self, alloc: Global, ty: &CType) -> Result<Formula, NoMemory>
        ensures { IfOk result (λ f. (on : ℕ → Bool) → value on (condition_of f) ≡ is_small (seen_tables on self.now) (plain_type ty.now)) }
    {
        let scalars = self.scalars_of(alloc, ty)?;
        let small = scalars.where_small(alloc)?;
        Ok(small)
    }

    /// Where the innermost block declares this name.
    pub fn where_local(&self, alloc: Global, name: &[u8]) -> Result<Formula, NoMemory>
        ensures { IfOk result (λ f. (on : ℕ → Bool) → value on (condition_of f) ≡ is_in_block (seen_tables on self.now).depth (local_named (seen_tables on self.now).locals name.now)) }
    {
        where_in_block(alloc, &self.locals, name, self.depth)
    }
}
