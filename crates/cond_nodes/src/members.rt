//! Members of structs (6.5.2.3).
ghost use Rattle.std.specs.Prelude.{◌≡◌, Bool, List, codes, IsTrue, IfOk, if◌then◌else◌};
ghost use Rattle.std.specs.Str.{bytes_eq};
ghost use Rattle.cond_formula.specs.Features.{has};
ghost use Rattle.cond_formula.specs.Conditions.{value};
ghost use Rattle.conditional.specs.Judgements.{fine, bind};
ghost use Rattle.c_text.specs.Token.{plain_token};
ghost use Rattle.c_types.specs.Types.{plain_type};
ghost use Rattle.choice_trees.specs.ChoiceTrees.{semicolon};
ghost use Rattle.operand_types.specs.Operators.{loaded_type};
ghost use Rattle.operand_rules.specs.PlainOperandTypes.{plain_category, plain_operand_type};
ghost use Rattle.cond_operands.specs.Operands.{Judged, ShowsOperand};
ghost use Rattle.expression_types.specs.Reading as spec;

use crate::knowledge::Knowledge;
use crate::leading::{Leading, bound, led_or_refused};
use crate::operands::refused_everywhere;
use c_text::Token;
use c_types::CType;
use cond_formula::{NoMemory, Oracle};
use cond_operands::{Operands, loaded};
use conditional::{Outcomes, Plain};
use operand_rules::{Category, OperandType};
use std::alloc::Global;

/// The member of an operand of a category.
#[derive(Clone, Copy)]
struct OfCategory {
    category: Category,
}

impl Leading<OperandType> for OfCategory {
    ghost leads = { λ self c m z. ShowsOperand (has c) (fine (record (plain_operand_type m) { category = plain_category self.category })) z };

    fn lead<O: Oracle>(
        &self,
        alloc: Global,
        _oracle: &mut O,
        m: &OperandType,
    ) -> Result<Operands, NoMemory> {
        let mut member = m.try_clone(alloc)?;
        member.category = self.category;
        let one = Outcomes::one(alloc, member)?;
        Ok(one)
    }
}

/// The member of a struct that is complete.
fn member_of_struct<K: Knowledge, O: Oracle>(
    alloc: Global,
    known: &K,
    oracle: &mut O,
    category: Category,
    number: u32,
    name: &[u8],
) -> Result<Operands, NoMemory>
    ensures kept { O.admits oracle.new ≡ O.admits oracle.old }
    ensures shows { IfOk result (λ z. (c : List Bool) → IsTrue (value (has c) (K.admits known.now)) → IsTrue (value (has c) (O.admits oracle.old))
        → ShowsOperand (has c) (spec.member_of_category (plain_category category) ((K.known known.now c).members number name.now)) z) }
{
    let members = known.member(alloc, number, name)?;
    led_or_refused(alloc, &OfCategory { category }, oracle, &members)
}

/// The member of a struct, if it is one that is complete.
fn member_if_complete<K: Knowledge, O: Oracle>(
    alloc: Global,
    known: &K,
    oracle: &mut O,
    is_complete: bool,
    category: Category,
    number: u32,
    name: &[u8],
) -> Result<Operands, NoMemory>
    ensures kept { O.admits oracle.new ≡ O.admits oracle.old }
    ensures shows { IfOk result (λ z. (c : List Bool) → IsTrue (value (has c) (K.admits known.now)) → IsTrue (value (has c) (O.admits oracle.old))
        → ShowsOperand (has c) (if is_complete then spec.member_of_category (plain_category category) ((K.known known.now c).members number name.now) else spec.no_outcome) z) }
{
    if is_complete {
        member_of_struct(alloc, known, oracle, category, number, name)
    } else {
        refused_everywhere(alloc)
    }
}

/// The member of a type, if it is a struct that is complete.
#[tactic(auto, using(c_types::specs::TypeLaws::type_kinds))]
fn member_in<K: Knowledge, O: Oracle>(
    alloc: Global,
    known: &K,
    oracle: &mut O,
    o: &OperandType,
    category: Category,
    ty: &CType,
    name: &[u8],
) -> Result<Operands, NoMemory>
    ensures kept { O.admits oracle.new ≡ O.admits oracle.old }
    ensures shows { IfOk result (λ z. (c : List Bool) → IsTrue (value (has c) (K.admits known.now)) → IsTrue (value (has c) (O.admits oracle.old))
        → ShowsOperand (has c) (spec.member_in (K.known known.now c) (plain_operand_type o.now) (plain_category category) (plain_type ty.now) name.now) z) }
{
    match ty {
        CType::Struct(number) => {
            let is_complete = o.has_complete_struct;
            member_if_complete(alloc, known, oracle, is_complete, category, *number, name)
        }
        CType::Void
        | CType::Char
        | CType::UChar
        | CType::Int
        | CType::UInt
        | CType::Long
        | CType::ULong
        | CType::Pointer(_)
        | CType::Array(..) => refused_everywhere(alloc),
    }
}

/// The member of what a pointer points at.
#[tactic(auto, using(c_types::specs::TypeLaws::type_kinds))]
fn member_of_target<K: Knowledge, O: Oracle>(
    alloc: Global,
    known: &K,
    oracle: &mut O,
    o: &OperandType,
    name: &[u8],
) -> Result<Operands, NoMemory>
    ensures kept { O.admits oracle.new ≡ O.admits oracle.old }
    ensures shows { IfOk result (λ z. (c : List Bool) → IsTrue (value (has c) (K.admits known.now)) → IsTrue (value (has c) (O.admits oracle.old))
        → ShowsOperand (has c) (spec.member_of_target (K.known known.now c) (plain_operand_type o.now) (plain_operand_type o.now).ty name.now) z) }
{
    match &o.ty {
        CType::Pointer(target) => {
            member_in(
                alloc,
                known,
                oracle,
                o,
                Category::Object(true),
                target,
                name,
            )
        }
        CType::Void
        | CType::Char
        | CType::UChar
        | CType::Int
        | CType::UInt
        | CType::Long
        | CType::ULong
        | CType::Struct(_)
        | CType::Array(..) => refused_everywhere(alloc),
    }
}

/// A struct that is no object has members that aren't assigned to.
fn category_of_members(category: Category) -> Category
    ensures { plain_category result ≡ spec.category_of_members (plain_category category) }
{
    match category {
        Category::Value => Category::Object(false),
        Category::Object(free) => Category::Object(free),
    }
}

/// `.` and a name behind an operand.
#[derive(Drop)]
struct OwnMember<'k, K> {
    known: &'k K,
    name: &'k [u8],
}

impl<'k, K: Knowledge> Leading<OperandType> for OwnMember<'k, K> {
    ghost leads = { λ self c o z. IsTrue (value (has c) (K.admits self.known.now))
        → ShowsOperand (has c) (spec.member_in (K.known self.known.now c) (plain_operand_type o) (spec.category_of_members (plain_operand_type o).category) (plain_operand_type o).ty self.name.now) z };

    fn lead<O: Oracle>(
        &self,
        alloc: Global,
        oracle: &mut O,
        o: &OperandType,
    ) -> Result<Operands, NoMemory> {
        let category = category_of_members(o.category);
        let member = member_in(alloc, self.known, oracle, o, category, &o.ty, self.name)?;
        Ok(member)
    }
}

/// `->` and a name behind a value.
#[derive(Drop)]
struct TargetMember<'k, K> {
    known: &'k K,
    name: &'k [u8],
}

impl<'k, K: Knowledge> Leading<OperandType> for TargetMember<'k, K> {
    ghost leads = { λ self c o z. IsTrue (value (has c) (K.admits self.known.now))
        → ShowsOperand (has c) (spec.member_of_target (K.known self.known.now c) (plain_operand_type o) (plain_operand_type o).ty self.name.now) z };

    fn lead<O: Oracle>(
        &self,
        alloc: Global,
        oracle: &mut O,
        o: &OperandType,
    ) -> Result<Operands, NoMemory> {
        let member = member_of_target(alloc, self.known, oracle, o, self.name)?;
        Ok(member)
    }
}

/// A member of an operand.
fn own_member<K: Knowledge, O: Oracle>(
    alloc: Global,
    known: &K,
    oracle: &mut O,
    name: &[u8],
    a: Operands,
) -> Result<Operands, NoMemory>
    ensures kept { O.admits oracle.new ≡ O.admits oracle.old }
    ensures shows { IfOk result (λ z. (c : List Bool) (x : Judged) → IsTrue (value (has c) (K.admits known.now)) → IsTrue (value (has c) (O.admits oracle.old))
        → ShowsOperand (has c) x a → ShowsOperand (has c) (bind x (λ o. spec.member_in (K.known known.now c) o (spec.category_of_members o.category) o.ty name.now)) z) }
{
    bound(alloc, &OwnMember { known, name }, oracle, a)
}

/// A member of what an operand points at.
fn target_member<K: Knowledge, O: Oracle>(
    alloc: Global,
    known: &K,
    oracle: &mut O,
    name: &[u8],
    a: Operands,
) -> Result<Operands, NoMemory>
    ensures kept { O.admits oracle.new ≡ O.admits oracle.old }
    ensures shows { IfOk result (λ z. (c : List Bool) (x : Judged) → IsTrue (value (has c) (K.admits known.now)) → IsTrue (value (has c) (O.admits oracle.old))
        → ShowsOperand (has c) x a → ShowsOperand (has c) (bind (bind x (loaded_type semicolon)) (λ v. spec.member_of_target (K.known known.now c) v v.ty name.now)) z) }
{
    let x = loaded(alloc, a)?;
    bound(alloc, &TargetMember { known, name }, oracle, x)
}

/// Whether a sign is `.`.
fn is_dot(select: &Token) -> bool
    ensures { result ≡ bytes_eq (plain_token select.now).text (codes ".") }
{
    select.text.as_slice() == b".".as_slice()
}

/// A member of an operand by `.` or `->`.
pub(crate) fn selected<K: Knowledge, O: Oracle>(
    alloc: Global,
    known: &K,
    oracle: &mut O,
    select: &Token,
    name: &Token,
    a: Operands,
) -> Result<Operands, NoMemory>
    ensures kept { O.admits oracle.new ≡ O.admits oracle.old }
    ensures shows { IfOk result (λ z. (c : List Bool) (x : Judged) → IsTrue (value (has c) (K.admits known.now)) → IsTrue (value (has c) (O.admits oracle.old))
        → ShowsOperand (has c) x a → ShowsOperand (has c) (bind x (spec.selected (K.known known.now c) (plain_token select.now) (plain_token name.now).text)) z) }
{
    if is_dot(select) {
        own_member(alloc, known, oracle, &name.text, a)
    } else {
        target_member(alloc, known, oracle, &name.text, a)
    }
}
