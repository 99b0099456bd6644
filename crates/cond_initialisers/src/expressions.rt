//! What is asked of expressions.
ghost use Rattle.std.specs.Prelude.{◌≡◌, ℕ, Bool, true, List, IsTrue, IfOk};
ghost use Rattle.cond_formula.specs.Features.{has};
ghost use Rattle.cond_formula.specs.Conditions.{Condition, condition_of, value};
ghost use Rattle.c_types.specs.Types.{plain_type};
ghost use Rattle.core_meaning.specs.Constancy.{is_character_type};
ghost use Rattle.choice_trees.specs.ChoiceTrees.{plain_item, item_at};
ghost use Rattle.cond_initialisers.specs.Refusals as spec;
ghost use Rattle.cond_initialisers.specs.Refusals.{Asked};

use c_types::CType;
use choice_trees::Item;
use cond_formula::{Formula, NoMemory, Oracle};
use std::alloc::Global;

/// Where expressions are refused as initialisers.
pub trait Expressions {
    ghost admits: { Self → Condition };

    ghost asked: { Self → List Bool → Asked };

    /// Where an expression is refused for a type, if it isn't texts that an array is made of.
    fn where_unfit<O: Oracle>(
        &self,
        alloc: Global,
        oracle: &mut O,
        ty: &CType,
        item: &Item,
    ) -> Result<Formula, NoMemory>
        ensures kept { O.admits oracle.new ≡ O.admits oracle.old }
        ensures same { IfOk result (λ f. (c : List Bool) → IsTrue (value (has c) (admits self.now)) → IsTrue (value (has c) (O.admits oracle.old))
            → value (has c) (condition_of f) ≡ (asked self.now c).unfit (item_at (has c) (plain_item item.now)) (plain_type ty.now)) };

    /// Where an array of so many characters has no room for texts in a row.
    fn where_without_room<O: Oracle>(
        &self,
        alloc: Global,
        oracle: &mut O,
        count: u32,
        item: &Item,
    ) -> Result<Formula, NoMemory>
        ensures kept { O.admits oracle.new ≡ O.admits oracle.old }
        ensures same { IfOk result (λ f. (c : List Bool) → IsTrue (value (has c) (admits self.now)) → IsTrue (value (has c) (O.admits oracle.old))
            → value (has c) (condition_of f) ≡ (asked self.now c).without_room (item_at (has c) (plain_item item.now)) count) };
}

#[tactic(auto, using(c_types::specs::TypeLaws::type_kinds))]
fn is_character(ty: &CType) -> bool
    ensures { result ≡ is_character_type (plain_type ty.now) }
{
    match ty {
        CType::Char | CType::UChar => true,
        CType::Void
        | CType::Int
        | CType::UInt
        | CType::Long
        | CType::ULong
        | CType::Pointer(_)
        | CType::Array(..)
        | CType::Struct(_) => false,
    }
}

#[tactic(auto, using(cond_formula::specs::ConditionLaws::formula_kinds))]
fn always() -> Result<Formula, NoMemory>
    ensures { IfOk result (λ f. (on : ℕ → Bool) → value on (condition_of f) ≡ true) }
{
    Ok(Formula::True)
}

/// Where texts are refused for an array.
fn where_text_refused<K: Expressions, O: Oracle>(
    alloc: Global,
    oracle: &mut O,
    known: &K,
    element: &CType,
    count: u32,
    item: &Item,
) -> Result<Formula, NoMemory>
    ensures kept { O.admits oracle.new ≡ O.admits oracle.old }
    ensures same { IfOk result (λ f. (c : List Bool) → IsTrue (value (has c) (K.admits known.now)) → IsTrue (value (has c) (O.admits oracle.old))
        → value (has c) (condition_of f) ≡ spec.text_in_array (K.asked known.now c) (item_at (has c) (plain_item item.now)) (plain_type element.now) count) }
{
    if is_character(element) {
        known.where_without_room(alloc, oracle, count, item)
    } else {
        always()
    }
}

/// Where texts in a row are refused for a type.
#[tactic(auto, using(c_types::specs::TypeLaws::type_kinds))]
pub(crate) fn where_texts<K: Expressions, O: Oracle>(
    alloc: Global,
    oracle: &mut O,
    known: &K,
    ty: &CType,
    item: &Item,
) -> Result<Formula, NoMemory>
    ensures kept { O.admits oracle.new ≡ O.admits oracle.old }
    ensures same { IfOk result (λ f. (c : List Bool) → IsTrue (value (has c) (K.admits known.now)) → IsTrue (value (has c) (O.admits oracle.old))
        → value (has c) (condition_of f) ≡ spec.as_text (K.asked known.now c) (item_at (has c) (plain_item item.now)) (plain_type ty.now)) }
{
    match ty {
        CType::Array(element, count) => {
            where_text_refused(alloc, oracle, known, element, *count, item)
        }
        CType::Void
        | CType::Char
        | CType::UChar
        | CType::Int
        | CType::UInt
        | CType::Long
        | CType::ULong
        | CType::Pointer(_)
        | CType::Struct(_) => known.where_unfit(alloc, oracle, ty, item),
    }
}

/// Where an expression that is no text is refused for a type.
#[tactic(auto, using(c_types::specs::TypeLaws::type_kinds))]
pub(crate) fn where_alone<K: Expressions, O: Oracle>(
    alloc: Global,
    oracle: &mut O,
    known: &K,
    ty: &CType,
    item: &Item,
) -> Result<Formula, NoMemory>
    ensures kept { O.admits oracle.new ≡ O.admits oracle.old }
    ensures same { IfOk result (λ f. (c : List Bool) → IsTrue (value (has c) (K.admits known.now)) → IsTrue (value (has c) (O.admits oracle.old))
        → value (has c) (condition_of f) ≡ spec.alone (K.asked known.now c) (item_at (has c) (plain_item item.now)) (plain_type ty.now)) }
{
    match ty {
        CType::Array(..) => always(),
        CType::Void
        | CType::Char
        | CType::UChar
        | CType::Int
        | CType::UInt
        | CType::Long
        | CType::ULong
        | CType::Pointer(_)
        | CType::Struct(_) => known.where_unfit(alloc, oracle, ty, item),
    }
}
