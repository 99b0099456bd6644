//! Calls of functions (6.5.2.2).
ghost use Rattle.std.specs.Prelude.{◌≡◌, ℕ, Bool, List, Some, IsTrue, IfOk};
ghost use Rattle.cond_formula.specs.Features.{has};
ghost use Rattle.cond_formula.specs.Conditions.{condition_of, value};
ghost use Rattle.c_types.specs.Types.{PlainType, plain_type};
ghost use Rattle.choice_trees.specs.ChoiceTrees.{semicolon};
ghost use Rattle.conditional.specs.Entries as entries;
ghost use Rattle.conditional.specs.Judgements.{bind};
ghost use Rattle.operand_types.specs.Operators.{fitted_type};
ghost use Rattle.operand_rules.specs.PlainOperandTypes.{reason};
ghost use Rattle.cond_operands.specs.Operands.{Judged, ShowsOperand};
ghost use Rattle.expression_types.specs.Reading as spec;
ghost use Rattle.expression_types.specs.Reading.{Read, is_result};
ghost use Rattle.cond_nodes.specs.Reads.{ShowsEach};
ghost use Rattle.type_tables.specs.Forms.{declared_type_form};
ghost use Rattle.type_tables.specs.Tables.{value_of, callable_in, no_signature};
ghost use Rattle.type_tables.specs.Seen.{seen_tables, signature_of};
ghost use Rattle.known_tables.specs.Calls.{refusal_in, callable_of};

use crate::operands::{operand_of_type, refuse};
use c_types::CType;
use cond_formula::{Formula, NoMemory, Oracle};
use cond_operands::{Operands, fitted};
use conditional::{CondList, Guarded, Outcomes};
use matched_lists::{Longer, Matching, match_lists};
use operand_rules::{Category, Refused};
use plain_scope::is_void;
use std::alloc::Global;
use type_tables::{CondSignature, DeclaredType, Tables};

/// The same operand.
fn copied(alloc: Global, a: &Operands) -> Result<Operands, NoMemory>
    ensures { IfOk result (λ z. (on : ℕ → Bool) (x : Judged) → ShowsOperand on x a.now → ShowsOperand on x z) }
{
    let mut all = Outcomes::nothing(alloc);
    all.place_under(alloc, &Formula::True, a)?;
    Ok(all)
}

/// Why an argument doesn't fit its parameter, where it doesn't.
fn misfits(
    alloc: Global,
    parameter: &CType,
    argument: &Operands,
) -> Result<CondList<Refused>, NoMemory>
    ensures { IfOk result (λ z. (on : ℕ → Bool) (x : Judged) → ShowsOperand on x argument.now
        → entries.first (entries.seen on (entries.listed reason z)) ≡ refusal_in (bind x (fitted_type semicolon (plain_type parameter.now)))) }
{
    let tests = fitted(alloc, parameter, copied(alloc, argument)?)?;
    let Outcomes { fine: _, refused } = tests;
    Ok(refused)
}

/// Arguments that have to fit parameters.
#[derive(Clone, Copy)]
struct Fitting;

impl Matching<DeclaredType, Operands, Refused> for Fitting {
    ghost First = { PlainType };

    ghost Second = { Read };

    ghost first = { λ self c parameter ty. declared_type_form parameter ≡ ty };

    ghost second = { λ self c argument read. ShowsOperand (has c) read.outcome argument };

    ghost answers = { λ self c ty read z. entries.first (entries.seen (has c) (entries.listed reason z)) ≡ refusal_in (bind read.outcome (fitted_type semicolon ty)) };

    fn refusals<O: Oracle>(
        &self,
        alloc: Global,
        _oracle: &mut O,
        a: &DeclaredType,
        b: &Operands,
    ) -> Result<CondList<Refused>, NoMemory> {
        misfits(alloc, &a.ty, b)
    }
}

/// Where a function may return a type: where it is void or complete.
#[tactic(auto, using(cond_formula::specs::ConditionLaws::formula_kinds))]
fn where_returned(alloc: Global, tables: &Tables, ty: &CType) -> Result<Formula, NoMemory>
    ensures { IfOk result (λ f. (on : ℕ → Bool) → value on (condition_of f) ≡ is_result (value_of (seen_tables on tables.now) (plain_type ty.now))) }
{
    if is_void(ty) {
        return Ok(Formula::True);
    }
    tables.where_complete(alloc, ty)
}

/// What a call of the function of a declaration gives.
fn call<O: Oracle>(
    alloc: Global,
    oracle: &mut O,
    tables: &Tables,
    signature: &CondSignature,
    arguments: &[Guarded<Operands>],
) -> Result<Operands, NoMemory>
    ensures kept { O.admits oracle.new ≡ O.admits oracle.old }
    ensures shows { IfOk result (λ z. (c : List Bool) (reads : List Read) → IsTrue (value (has c) (O.admits oracle.old)) → ShowsEach (has c) reads arguments.now
        → ShowsOperand (has c) (spec.called (Some (callable_of (seen_tables (has c) tables.now) (signature_of (has c) (Some signature.now)))) reads) z) }
{
    let longer = Longer {
        first: Some(Refused),
        second: Some(Refused),
    };
    let parameters = &signature.parameters.entries;
    let mut refused = match_lists(alloc, &Fitting, oracle, &longer, parameters, arguments)?;
    let returned = where_returned(alloc, tables, &signature.result)?;
    let elsewhere = Formula::not(alloc, returned)?;
    refuse(&mut refused, elsewhere)?;
    let fine = operand_of_type(alloc, tables, &signature.result, Category::Value)?;
    Ok(Outcomes { fine, refused })
}

/// What a call of a declaration by its number gives.
pub(crate) fn called<O: Oracle>(
    alloc: Global,
    oracle: &mut O,
    tables: &Tables,
    number: u32,
    arguments: &[Guarded<Operands>],
) -> Result<Operands, NoMemory>
    ensures kept { O.admits oracle.new ≡ O.admits oracle.old }
    ensures shows { IfOk result (λ z. (c : List Bool) (reads : List Read) → IsTrue (value (has c) (O.admits oracle.old)) → ShowsEach (has c) reads arguments.now
        → ShowsOperand (has c) (spec.called (Some (callable_in (seen_tables (has c) tables.now) number)) reads) z) }
{
    match tables.signatures.get(number as usize) {
        Some(signature) => call(alloc, oracle, tables, signature, arguments),
        None => call_of_none(alloc, oracle, tables, arguments),
    }
}

/// What a call gives by a number that no declaration has: nothing, without arguments.
#[tactic(auto, using(c_types::specs::TypeLaws::type_kinds))]
fn call_of_none<O: Oracle>(
    alloc: Global,
    oracle: &mut O,
    tables: &Tables,
    arguments: &[Guarded<Operands>],
) -> Result<Operands, NoMemory>
    ensures kept { O.admits oracle.new ≡ O.admits oracle.old }
    ensures shows { IfOk result (λ z. (c : List Bool) (reads : List Read) → IsTrue (value (has c) (O.admits oracle.old)) → ShowsEach (has c) reads arguments.now
        → ShowsOperand (has c) (spec.called (Some (callable_of (seen_tables (has c) tables.now) no_signature)) reads) z) }
{
    let none = CondSignature {
        result: CType::Void,
        parameters: CondList::empty(alloc),
    };
    call(alloc, oracle, tables, &none, arguments)
}
