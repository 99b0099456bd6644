//! Where declarations of a name in several units agree (6.2.7).
ghost use Rattle.std.specs.Prelude.{◌≡◌, ◌↔◌, Bool, not, List, Some, IsTrue, IfOk};
ghost use Rattle.cond_formula.specs.Features.{has};
ghost use Rattle.cond_formula.specs.Conditions.{condition_of, value};
ghost use Rattle.conditional.specs.Entries.{seen, listed, first};
ghost use Rattle.c_types.specs.Types.{PlainType};
ghost use Rattle.operand_rules.specs.PlainOperandTypes.{reason};
ghost use Rattle.type_tables.specs.Tables.{sort_in};
ghost use Rattle.type_tables.specs.Forms.{declared_type_form, sort_form};
ghost use Rattle.type_tables.specs.Seen.{seen_tables, signature_of};
ghost use Rattle.cond_compatible.specs.Depths.{types_agree, parameters_agree, signatures_agree, sorts_agree, unless_agreed};
ghost use Rattle.cond_compatible.specs.SeenTags.{said_alike, Tells};
ghost use Rattle.cond_compatible.specs.SeenSorts.{SeenSortsAgree};

use crate::alike::AlikeStructs;
use crate::types::where_types_agree;
use cond_formula::{Formula, NoMemory, Oracle};
use conditional::{CondList, when_some_hold};
use matched_lists::{Longer, Matching, match_lists};
use operand_rules::Refused;
use reduced_conditions::without;
use std::alloc::Global;
use type_tables::{CondSignature, DeclaredType, Sort, Tables};

impl Matching<DeclaredType, DeclaredType, Refused> for AlikeStructs {
    ghost First = { PlainType };

    ghost Second = { PlainType };

    ghost first = { λ self c parameter ty. declared_type_form parameter ≡ ty };

    ghost second = { λ self c parameter ty. declared_type_form parameter ≡ ty };

    ghost answers = { λ self c a b z. first (seen (has c) (listed reason z)) ≡ unless_agreed (types_agree (said_alike (has c) self) a b) };

    fn refusals<O: Oracle>(
        &self,
        alloc: Global,
        _oracle: &mut O,
        a: &DeclaredType,
        b: &DeclaredType,
    ) -> Result<CondList<Refused>, NoMemory> {
        let mut refused = CondList::empty(alloc);
        let agreed = where_types_agree(alloc, self, &a.ty, &b.ty)?;
        refused.push(Formula::not(alloc, agreed)?, Refused)?;
        Ok(refused)
    }
}

/// Where the parameters of two functions don't agree, one by one.
fn where_parameters_differ<O: Oracle>(
    alloc: Global,
    oracle: &mut O,
    alike: &AlikeStructs,
    a: &CondList<DeclaredType>,
    b: &CondList<DeclaredType>,
) -> Result<Formula, NoMemory>
    ensures kept { O.admits oracle.new ≡ O.admits oracle.old }
    ensures exact { IfOk result (λ f. (c : List Bool) → IsTrue (value (has c) (O.admits oracle.old))
        → value (has c) (condition_of f)
        ≡ not (parameters_agree (said_alike (has c) alike.now) (seen (has c) (listed declared_type_form a.now)) (seen (has c) (listed declared_type_form b.now)))) }
{
    let longer = Longer {
        first: Some(Refused),
        second: Some(Refused),
    };
    let refused = match_lists(alloc, alike, oracle, &longer, &a.entries, &b.entries)?;
    when_some_hold(alloc, &refused.entries)
}

/// Where two functions agree, in what they return and in their parameters.
pub fn where_signatures_agree<O: Oracle>(
    alloc: Global,
    oracle: &mut O,
    alike: &AlikeStructs,
    f: &CondSignature,
    g: &CondSignature,
) -> Result<Formula, NoMemory>
    ensures kept { O.admits oracle.new ≡ O.admits oracle.old }
    ensures exact { IfOk result (λ formula. (c : List Bool) → IsTrue (value (has c) (O.admits oracle.old))
        → value (has c) (condition_of formula) ≡ signatures_agree (said_alike (has c) alike.now) (signature_of (has c) (Some f.now)) (signature_of (has c) (Some g.now))) }
{
    let results = where_types_agree(alloc, alike, &f.result, &g.result)?;
    let differ = where_parameters_differ(alloc, oracle, alike, &f.parameters, &g.parameters)?;
    without(alloc, results, &differ)
}

/// Where the functions of two declarations agree.
fn where_functions_agree<O: Oracle>(
    alloc: Global,
    oracle: &mut O,
    tables: &Tables,
    alike: &AlikeStructs,
    number: u32,
    other: u32,
) -> Result<Formula, NoMemory>
    ensures kept { O.admits oracle.new ≡ O.admits oracle.old }
    ensures exact { IfOk result (λ f. (c : List Bool) → IsTrue (value (has c) (O.admits oracle.old))
        → value (has c) (condition_of f)
        ≡ signatures_agree (said_alike (has c) alike.now) ((seen_tables (has c) tables.now).signatures number) ((seen_tables (has c) tables.now).signatures other)) }
{
    let none = CondSignature::none(alloc);
    let f = tables.signature_or(number, &none);
    let g = tables.signature_or(other, &none);
    where_signatures_agree(alloc, oracle, alike, f, g)
}

/// Where two sorts of names agree by structs that are alike.
#[tactic(auto, using(cond_formula::specs::ConditionLaws::formula_kinds))]
pub fn where_alike_sorts_agree<O: Oracle>(
    alloc: Global,
    oracle: &mut O,
    tables: &Tables,
    alike: &AlikeStructs,
    a: &Sort,
    b: &Sort,
) -> Result<Formula, NoMemory>
    ensures kept { O.admits oracle.new ≡ O.admits oracle.old }
    ensures exact { IfOk result (λ f. (c : List Bool) → IsTrue (value (has c) (O.admits oracle.old))
        → value (has c) (condition_of f)
        ≡ sorts_agree (said_alike (has c) alike.now) (sort_in (seen_tables (has c) tables.now).signatures (sort_form a.now)) (sort_in (seen_tables (has c) tables.now).signatures (sort_form b.now))) }
{
    match (a, b) {
        (Sort::Object(ty), Sort::Object(other)) => where_types_agree(alloc, alike, ty, other),
        (Sort::Function(number), Sort::Function(other)) => {
            where_functions_agree(alloc, oracle, tables, alike, *number, *other)
        }
        (Sort::Object(_), Sort::Function(_)) | (Sort::Function(_), Sort::Object(_)) => {
            Ok(Formula::False)
        }
    }
}

/// Where two declarations agree in what they make of a name: both an object or both a function, with compatible types.
pub fn where_sorts_agree<O: Oracle>(
    alloc: Global,
    oracle: &mut O,
    tables: &Tables,
    alike: &AlikeStructs,
    a: &Sort,
    b: &Sort,
) -> Result<Formula, NoMemory>
    requires { Tells (O.admits oracle.old) tables.now alike.now }
    ensures kept { O.admits oracle.new ≡ O.admits oracle.old }
    ensures exact { IfOk result (λ f. (c : List Bool) → IsTrue (value (has c) (O.admits oracle.old))
        → IsTrue (value (has c) (condition_of f)) ↔ SeenSortsAgree (has c) tables.now (sort_form a.now) (sort_form b.now)) }
{
    where_alike_sorts_agree(alloc, oracle, tables, alike, a, b)
}
