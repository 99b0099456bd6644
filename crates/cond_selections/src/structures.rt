//! The structs in which selections select.
ghost use Rattle.std.specs.Prelude.{◌≡◌, ℕ, Bool, List, codes, None, IsTrue, IfOk};
ghost use Rattle.std.specs.Str.{bytes_eq};
ghost use Rattle.cond_formula.specs.Features.{has};
ghost use Rattle.cond_formula.specs.Conditions.{value};
ghost use Rattle.c_text.specs.Token.{plain_token};
ghost use Rattle.c_types.specs.Types.{plain_type};
ghost use Rattle.c_tree.specs.declared.kinds.Kind.TheVariants as k;
ghost use Rattle.c_tree.specs.Trees.{PlainTrees, leaf, more, none};
ghost use Rattle.conditional.specs.Judgements.{checked};
ghost use Rattle.choice_trees.specs.ChoiceTrees.{plain_item, plain_choices, item_at, parts_at};
ghost use Rattle.choice_variants.specs.Variants.{part_at, before};
ghost use Rattle.operand_rules.specs.PlainOperandTypes.{reason};
ghost use Rattle.cond_operands.specs.Operands.{Judged, ShowsOperand};
ghost use Rattle.selections.specs.Selections as spec;
ghost use Rattle.cond_selections.specs.Selected.{structure_number};
ghost use Rattle.cond_selections.specs.Progress as progress;
ghost use Rattle.cond_selections.specs.Progress.{or_refused, ShowsStructure};

use crate::entries::Structure;
use c_text::Token;
use c_tree::Kind;
use c_types::CType;
use choice_trees::{Choice, Item};
use choice_variants::{Part, variants};
use cond_formula::{Formula, NoMemory, Oracle};
use cond_nodes::Knowledge;
use cond_operands::{Operands, loaded};
use cond_typing::read_expression;
use conditional::{Judgement, Outcomes, judged};
use operand_rules::{OperandType, Refused};
use std::alloc::Global;

/// The struct in which something selects, or a refusal where it selects in none.
pub(crate) type Structures = Outcomes<Structure, Refused>;

#[tactic(auto, using(c_types::specs::TypeLaws::type_kinds))]
fn structure_of_type(ty: &CType) -> Result<Structure, Refused>
    ensures { checked structure_number reason result ≡ or_refused (spec.structure_of_type (plain_type ty.now)) }
{
    match ty {
        CType::Struct(number) => Ok(Structure { number: *number }),
        CType::Void
        | CType::Char
        | CType::UChar
        | CType::Int
        | CType::UInt
        | CType::Long
        | CType::ULong
        | CType::Pointer(_)
        | CType::Array(..) => Err(Refused),
    }
}

#[tactic(auto, using(c_types::specs::TypeLaws::type_kinds))]
fn structure_pointed_at(ty: &CType) -> Result<Structure, Refused>
    ensures { checked structure_number reason result ≡ or_refused (spec.structure_pointed_at (plain_type ty.now)) }
{
    match ty {
        CType::Pointer(target) => structure_of_type(target),
        CType::Void
        | CType::Char
        | CType::UChar
        | CType::Int
        | CType::UInt
        | CType::Long
        | CType::ULong
        | CType::Struct(_)
        | CType::Array(..) => Err(Refused),
    }
}

/// The struct that an operand is.
#[derive(Clone, Copy)]
struct Own;

impl Judgement<OperandType, Structure, Refused> for Own {
    ghost answers = { λ _ a r. checked structure_number reason r ≡ or_refused (spec.structure_of_type (plain_type a.ty)) };

    fn judge(
        &self,
        _alloc: Global,
        a: &OperandType,
    ) -> Result<Result<Structure, Refused>, NoMemory> {
        Ok(structure_of_type(&a.ty))
    }
}

/// The struct that a value points at.
#[derive(Clone, Copy)]
struct Target;

impl Judgement<OperandType, Structure, Refused> for Target {
    ghost answers = { λ _ a r. checked structure_number reason r ≡ or_refused (spec.structure_pointed_at (plain_type a.ty)) };

    fn judge(
        &self,
        _alloc: Global,
        a: &OperandType,
    ) -> Result<Result<Structure, Refused>, NoMemory> {
        Ok(structure_pointed_at(&a.ty))
    }
}

/// Whether a sign is `.`.
fn is_dot(select: &Token) -> bool
    ensures { result ≡ bytes_eq (plain_token select.now).text (codes ".") }
{
    select.text.as_slice() == b".".as_slice()
}

/// The struct in which `.` or `->` selects behind an operand.
fn structure_behind(
    alloc: Global,
    select: &Token,
    operand: Operands,
) -> Result<Structures, NoMemory>
    ensures { IfOk result (λ z. (on : ℕ → Bool) (x : Judged) → ShowsOperand on x operand → ShowsStructure on (spec.structure_behind (plain_token select.now) x) z) }
{
    if is_dot(select) {
        judged(alloc, &Own, operand)
    } else {
        let value = loaded(alloc, operand)?;
        judged(alloc, &Target, value)
    }
}

/// None in any configuration.
pub(crate) fn no_structure(alloc: Global) -> Result<Structures, NoMemory>
    ensures { IfOk result (λ z. (on : ℕ → Bool) → ShowsStructure on None z) }
{
    let mut all = Outcomes::nothing(alloc);
    all.place(alloc, Formula::True, Err(Refused))?;
    Ok(all)
}

/// The struct in which a token selects behind a part.
fn structure_by_token<K: Knowledge, O: Oracle>(
    alloc: Global,
    known: &K,
    oracle: &mut O,
    operand: &Part,
    select: &Token,
) -> Result<Structures, NoMemory>
    ensures kept { O.admits oracle.new ≡ O.admits oracle.old }
    ensures shows { IfOk result (λ z. (c : List Bool) (rest : PlainTrees) → IsTrue (value (has c) (K.admits known.now)) → IsTrue (value (has c) (O.admits oracle.old))
        → ShowsStructure (has c) (spec.structure_of_selection (K.known known.now c) (more (part_at (has c) operand.now) (more (leaf (plain_token select.now)) rest))) z) }
{
    match operand {
        Part::Item(item) => {
            let read = read_expression(alloc, known, oracle, item)?;
            structure_behind(alloc, select, read.outcomes)
        }
        Part::NoStatement => no_structure(alloc),
    }
}

/// The struct in which an item selects behind a part, if it is a token.
#[tactic(auto, using(choice_trees::specs::ItemLaws::item_kinds))]
fn structure_by_item<K: Knowledge, O: Oracle>(
    alloc: Global,
    known: &K,
    oracle: &mut O,
    operand: &Part,
    select: &Item,
) -> Result<Structures, NoMemory>
    ensures kept { O.admits oracle.new ≡ O.admits oracle.old }
    ensures shows { IfOk result (λ z. (c : List Bool) (rest : PlainTrees) → IsTrue (value (has c) (K.admits known.now)) → IsTrue (value (has c) (O.admits oracle.old))
        → ShowsStructure (has c) (spec.structure_of_selection (K.known known.now c) (more (part_at (has c) operand.now) (more (item_at (has c) (plain_item select.now)) rest))) z) }
{
    match select {
        Item::Leaf(_, token) => structure_by_token(alloc, known, oracle, operand, token),
        Item::Node(..) => no_structure(alloc),
    }
}

/// The struct in which a part selects behind another.
fn structure_by_part<K: Knowledge, O: Oracle>(
    alloc: Global,
    known: &K,
    oracle: &mut O,
    operand: &Part,
    select: &Part,
) -> Result<Structures, NoMemory>
    ensures kept { O.admits oracle.new ≡ O.admits oracle.old }
    ensures shows { IfOk result (λ z. (c : List Bool) (rest : PlainTrees) → IsTrue (value (has c) (K.admits known.now)) → IsTrue (value (has c) (O.admits oracle.old))
        → ShowsStructure (has c) (spec.structure_of_selection (K.known known.now c) (more (part_at (has c) operand.now) (more (part_at (has c) select.now) rest))) z) }
{
    match select {
        Part::Item(item) => structure_by_item(alloc, known, oracle, operand, item),
        Part::NoStatement => no_structure(alloc),
    }
}

/// The struct in which a selection with these parts selects.
fn structure_of_parts<K: Knowledge, O: Oracle>(
    alloc: Global,
    known: &K,
    oracle: &mut O,
    parts: &[Part],
) -> Result<Structures, NoMemory>
    ensures kept { O.admits oracle.new ≡ O.admits oracle.old }
    ensures shows { IfOk result (λ z. (c : List Bool) → IsTrue (value (has c) (K.admits known.now)) → IsTrue (value (has c) (O.admits oracle.old))
        → ShowsStructure (has c) (spec.structure_of_selection (K.known known.now c) (before (has c) parts.now none)) z) }
{
    if parts.len() < 2 {
        no_structure(alloc)
    } else {
        structure_by_part(alloc, known, oracle, &parts[0], &parts[1])
    }
}

/// The struct in which a selection selects, variant by variant.
fn structure_of_selection<K: Knowledge, O: Oracle>(
    alloc: Global,
    known: &K,
    oracle: &mut O,
    parts: &[Choice<Item>],
) -> Result<Structures, NoMemory>
    ensures kept { O.admits oracle.new ≡ O.admits oracle.old }
    ensures shows { IfOk result (λ z. (c : List Bool) → IsTrue (value (has c) (K.admits known.now)) → IsTrue (value (has c) (O.admits oracle.old))
        → ShowsStructure (has c) (spec.structure_of_selection (K.known known.now c) (parts_at (has c) k.Selection 0 (plain_choices parts.now))) z) }
{
    let variants = variants(alloc, Kind::Selection, parts, oracle)?;
    let mut all = Outcomes::nothing(alloc);
    for variant in &variants {
        let structure = structure_of_parts(alloc, known, oracle, &variant.parts)?;
        all.place_under(alloc, &variant.when, &structure)?;
    }
    Ok(all)
}

fn is_selection(kind: Kind) -> bool
    ensures { result ≡ progress.is_selection kind }
{
    match kind {
        Kind::Selection => true,
        _ => false,
    }
}

/// The struct in which a node selects, if it is a selection.
pub(crate) fn structure_of_node<K: Knowledge, O: Oracle>(
    alloc: Global,
    known: &K,
    oracle: &mut O,
    kind: Kind,
    parts: &[Choice<Item>],
) -> Result<Structures, NoMemory>
    ensures kept { O.admits oracle.new ≡ O.admits oracle.old }
    ensures shows { IfOk result (λ z. (c : List Bool) → IsTrue (value (has c) (K.admits known.now)) → IsTrue (value (has c) (O.admits oracle.old))
        → ShowsStructure (has c) (spec.structure_of_node (K.known known.now c) kind (parts_at (has c) kind 0 (plain_choices parts.now))) z) }
{
    if is_selection(kind) {
        structure_of_selection(alloc, known, oracle, parts)
    } else {
        no_structure(alloc)
    }
}
