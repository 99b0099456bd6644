//! Texts in a row in all configurations: an array by its length, and not by which of the texts are there (ISO/IEC 9899:2011, 6.4.5, 6.5.1).
ghost use Rattle.std.specs.Prelude.{◌≡◌, ℕ, Bool, true, false, List, IsTrue, IfOk, Ok};
ghost use Rattle.cond_formula.specs.Features.{has};
ghost use Rattle.cond_formula.specs.Conditions.{value};
ghost use Rattle.c_tree.specs.Trees.{node, none};
ghost use Rattle.c_tree.specs.declared.kinds.Kind.TheVariants as k;
ghost use Rattle.conditional.specs.Entries.{alternatives, Stands};
ghost use Rattle.conditional.specs.Judgements.{checked, fine, Shows};
ghost use Rattle.choice_trees.specs.ChoiceTrees.{plain_branches, plain_choices, with_part, branch_at, parts_at};
ghost use Rattle.operand_rules.specs.PlainOperandTypes.{judgement, reason};
ghost use Rattle.expression_types.specs.Known.{Callable, Known};
ghost use Rattle.expression_types.specs.Reading.{read_expression};
ghost use Rattle.cond_nodes.specs.Reads.{ShowsRead};
ghost use Rattle.cond_typing.specs.Texts as spec;
ghost use Rattle.cond_typing.specs.Texts.{Length, same_length, array_of_length, row_length};
ghost use Rattle.cond_typing.specs.declared.lengths.TextLength.TheVariants.{Bytes};

use crate::lengths::{TextLength, joined, length};
use c_tree::Kind;
use c_types::CType;
use choice_trees::{Choice, Item};
use choice_variants::variants;
use cond_formula::{NoMemory, Oracle};
use cond_nodes::CondRead;
use cond_operands::Operands;
use conditional::{CondList, CondValue, Judgement, Operator, Outcomes, crossed, judged};
use operand_rules::{Category, OperandType, Refused};
use std::alloc::{AllocError, Global};
use std::slice;

/// Texts, and texts behind them.
#[derive(Clone, Copy)]
struct Joining;

impl Operator<TextLength, TextLength, TextLength, Refused> for Joining {
    ghost answers = { λ _ a b r. checked same_length reason r ≡ fine (spec.joined a b) };

    fn apply(
        &self,
        _alloc: Global,
        a: &TextLength,
        b: &TextLength,
    ) -> Result<Result<TextLength, Refused>, NoMemory> {
        let both = joined(*a, *b)?;
        Ok(Ok(both))
    }
}

/// An array of characters with a zero behind the text.
#[tactic(auto, using(c_types::specs::TypeLaws::type_kinds))]
fn array_of(alloc: Global, bytes: u32) -> Result<OperandType, NoMemory>
    ensures { IfOk result (λ o. judgement (Ok o) ≡ array_of_length (Bytes bytes)) }
{
    let count = bytes.checked_add(1).ok_or(AllocError)?;
    let element = Box::new(alloc, CType::Char)?;
    Ok(OperandType {
        ty: CType::Array(element, count),
        category: Category::Object(true),
        is_null: false,
        has_complete_struct: true,
    })
}

/// What texts of a length are.
#[derive(Clone, Copy)]
struct Typing;

impl Judgement<TextLength, OperandType, Refused> for Typing {
    ghost answers = { λ _ a r. judgement r ≡ array_of_length a };

    fn judge(
        &self,
        alloc: Global,
        a: &TextLength,
    ) -> Result<Result<OperandType, Refused>, NoMemory> {
        match *a {
            TextLength::Bytes(bytes) => {
                let ty = array_of(alloc, bytes)?;
                Ok(Ok(ty))
            }
            TextLength::NoText | TextLength::Unreadable => Ok(Err(Refused)),
        }
    }
}

/// The length of the text that is one of these alternatives.
fn choice_length<O: Oracle>(
    alloc: Global,
    oracle: &mut O,
    choice: &Choice<Item>,
) -> Result<CondValue<TextLength>, NoMemory>
    ensures kept { O.admits oracle.new ≡ O.admits oracle.old }
    ensures stands { IfOk result (λ z. (c : List Bool) → IsTrue (value (has c) (O.admits oracle.old))
        → Stands (has c) (row_length (with_part false (branch_at (has c) (plain_branches choice.now.branches.items)) none)) (alternatives same_length z)) }
{
    let variants = variants(alloc, Kind::Texts, slice::from_ref(choice), oracle)?;
    let mut all = CondValue::nothing(alloc);
    for variant in &variants {
        let when = variant.when.try_clone(alloc)?;
        all.place(alloc, when, length(alloc, &variant.parts)?)?;
    }
    Ok(all)
}

/// One text more.
fn joined_lengths<O: Oracle>(
    alloc: Global,
    oracle: &mut O,
    before: Outcomes<TextLength, Refused>,
    next: CondValue<TextLength>,
) -> Result<Outcomes<TextLength, Refused>, NoMemory>
    ensures kept { O.admits oracle.new ≡ O.admits oracle.old }
    ensures shows { IfOk result (λ z. (c : List Bool) (m n : Length) → IsTrue (value (has c) (O.admits oracle.old)) → Shows same_length reason (has c) true (fine m) before
        → Stands (has c) n (alternatives same_length next) → Shows same_length reason (has c) true (fine (spec.joined m n)) z) }
{
    let next = Outcomes {
        fine: next,
        refused: CondList::empty(alloc),
    };
    crossed(alloc, &Joining, oracle, before, next)
}

/// The lengths of texts in a row.
fn row_lengths<O: Oracle>(
    alloc: Global,
    oracle: &mut O,
    parts: &[Choice<Item>],
) -> Result<Outcomes<TextLength, Refused>, NoMemory>
    ensures kept { O.admits oracle.new ≡ O.admits oracle.old }
    ensures shows { IfOk result (λ z. (c : List Bool) → IsTrue (value (has c) (O.admits oracle.old))
        → Shows same_length reason (has c) true (fine (row_length (parts_at (has c) k.Texts 0 (plain_choices parts.now)))) z) }
{
    let mut all = Outcomes::one(alloc, TextLength::NoText)?;
    for part in parts {
        let next = choice_length(alloc, oracle, part)?;
        all = joined_lengths(alloc, oracle, all, next)?;
    }
    Ok(all)
}

/// What texts in a row are.
pub(crate) fn texts<O: Oracle>(
    alloc: Global,
    oracle: &mut O,
    parts: &[Choice<Item>],
) -> Result<CondRead, NoMemory>
    ensures kept { O.admits oracle.new ≡ O.admits oracle.old }
    ensures shows { IfOk result (λ z. (c : List Bool) (callable : ℕ → Callable) (known : Known) → IsTrue (value (has c) (O.admits oracle.old))
        → ShowsRead (has c) callable (read_expression known (node k.Texts (parts_at (has c) k.Texts 0 (plain_choices parts.now)))) z) }
{
    let lengths = row_lengths(alloc, oracle, parts)?;
    let outcomes = judged(alloc, &Typing, lengths)?;
    Ok(CondRead {
        outcomes,
        callee: CondValue::nothing(alloc),
    })
}
