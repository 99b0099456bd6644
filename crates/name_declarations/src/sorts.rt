//! Whether two declarations make the same of a name (6.2.7, 6.7).
ghost use Rattle.std.specs.Prelude.{◌≡◌, ℕ, Bool, not, List, Some, IsTrue, IfOk};
ghost use Rattle.cond_formula.specs.Features.{has};
ghost use Rattle.cond_formula.specs.Conditions.{condition_of, value};
ghost use Rattle.conditional.specs.Entries.{seen, listed, first};
ghost use Rattle.c_types.specs.Types.{PlainType, plain_type};
ghost use Rattle.core_meaning.specs.Entities.{function};
ghost use Rattle.core_meaning.specs.Typing.{same_type};
ghost use Rattle.core_meaning.specs.UnitNames.{same_types, same_sort};
ghost use Rattle.operand_rules.specs.PlainOperandTypes.{reason};
ghost use Rattle.type_tables.specs.Forms.{declared_type_form, sort_form};
ghost use Rattle.type_tables.specs.Seen.{seen_tables, signature_of};
ghost use Rattle.name_declarations.specs.Conflicts.{unless_same, is_same_sort};

use c_types::CType;
use cond_formula::{Formula, NoMemory, Oracle};
use conditional::{CondList, when_some_hold};
use matched_lists::{Longer, Matching, match_lists};
use operand_rules::Refused;
use plain_scope::{is_void, same_type};
use std::alloc::Global;
use type_tables::{CondSignature, DeclaredType, Sort, Tables};

/// Types of parameters that have to be the same.
#[derive(Clone, Copy)]
struct SameTypes;

impl Matching<DeclaredType, DeclaredType, Refused> for SameTypes {
    ghost First = { PlainType };

    ghost Second = { PlainType };

    ghost first = { λ self c parameter ty. declared_type_form parameter ≡ ty };

    ghost second = { λ self c parameter ty. declared_type_form parameter ≡ ty };

    ghost answers = { λ self c a b z. first (seen (has c) (listed reason z)) ≡ unless_same (same_type a b) };

    #[tactic(auto, using(cond_formula::specs::ConditionLaws::formula_kinds))]
    fn refusals<O: Oracle>(
        &self,
        alloc: Global,
        _oracle: &mut O,
        a: &DeclaredType,
        b: &DeclaredType,
    ) -> Result<CondList<Refused>, NoMemory> {
        let mut refused = CondList::empty(alloc);
        if !same_type(&a.ty, &b.ty) {
            refused.push(Formula::True, Refused)?;
        }
        Ok(refused)
    }
}

/// Where two lists of parameters aren't of the same types, one by one.
fn where_parameters_differ<O: Oracle>(
    alloc: Global,
    oracle: &mut O,
    a: &CondList<DeclaredType>,
    b: &CondList<DeclaredType>,
) -> Result<Formula, NoMemory>
    ensures kept { O.admits oracle.new ≡ O.admits oracle.old }
    ensures exact { IfOk result (λ f. (c : List Bool) → IsTrue (value (has c) (O.admits oracle.old))
        → value (has c) (condition_of f) ≡ not (same_types (seen (has c) (listed declared_type_form a.now)) (seen (has c) (listed declared_type_form b.now)))) }
{
    let longer = Longer {
        first: Some(Refused),
        second: Some(Refused),
    };
    let refused = match_lists(alloc, &SameTypes, oracle, &longer, &a.entries, &b.entries)?;
    when_some_hold(alloc, &refused.entries)
}

/// Where two functions differ, in what they return or in their parameters.
#[tactic(auto, using(cond_formula::specs::ConditionLaws::formula_kinds))]
fn where_signatures_differ<O: Oracle>(
    alloc: Global,
    oracle: &mut O,
    f: &CondSignature,
    g: &CondSignature,
) -> Result<Formula, NoMemory>
    ensures kept { O.admits oracle.new ≡ O.admits oracle.old }
    ensures exact { IfOk result (λ formula. (c : List Bool) → IsTrue (value (has c) (O.admits oracle.old))
        → value (has c) (condition_of formula) ≡ not (same_sort (function (signature_of (has c) (Some f.now))) (function (signature_of (has c) (Some g.now))))) }
{
    if !same_type(&f.result, &g.result) {
        return Ok(Formula::True);
    }
    where_parameters_differ(alloc, oracle, &f.parameters, &g.parameters)
}

/// Where the functions of two declarations differ.
fn where_functions_differ<O: Oracle>(
    alloc: Global,
    oracle: &mut O,
    tables: &Tables,
    number: u32,
    other: u32,
) -> Result<Formula, NoMemory>
    ensures kept { O.admits oracle.new ≡ O.admits oracle.old }
    ensures exact { IfOk result (λ f. (c : List Bool) → IsTrue (value (has c) (O.admits oracle.old))
        → value (has c) (condition_of f) ≡ not (same_sort (function ((seen_tables (has c) tables.now).signatures number)) (function ((seen_tables (has c) tables.now).signatures other)))) }
{
    let none = CondSignature::none(alloc);
    let f = tables.signature_or(number, &none);
    let g = tables.signature_or(other, &none);
    where_signatures_differ(alloc, oracle, f, g)
}

/// Whether the function of a declaration returns this type.
pub(crate) fn function_returns(tables: &Tables, number: u32, returns: &CType) -> bool
    ensures { (on : ℕ → Bool) → result ≡ same_type ((seen_tables on tables.now).signatures number).result (plain_type returns.now) }
{
    match tables.signatures.get(number as usize) {
        Some(signature) => same_type(&signature.result, returns),
        None => is_void(returns),
    }
}

/// Where two sorts of names aren't the same.
#[tactic(auto, using(cond_formula::specs::ConditionLaws::formula_kinds))]
pub(crate) fn where_sorts_differ<O: Oracle>(
    alloc: Global,
    oracle: &mut O,
    tables: &Tables,
    a: &Sort,
    b: &Sort,
) -> Result<Formula, NoMemory>
    ensures kept { O.admits oracle.new ≡ O.admits oracle.old }
    ensures exact { IfOk result (λ f. (c : List Bool) → IsTrue (value (has c) (O.admits oracle.old))
        → value (has c) (condition_of f) ≡ not (is_same_sort (seen_tables (has c) tables.now).signatures (sort_form a.now) (sort_form b.now))) }
{
    match (a, b) {
        (Sort::Object(ty), Sort::Object(other)) => {
            if same_type(ty, other) {
                Ok(Formula::False)
            } else {
                Ok(Formula::True)
            }
        }
        (Sort::Function(number), Sort::Function(other)) => {
            where_functions_differ(alloc, oracle, tables, *number, *other)
        }
        (Sort::Object(_), Sort::Function(_)) | (Sort::Function(_), Sort::Object(_)) => {
            Ok(Formula::True)
        }
    }
}
