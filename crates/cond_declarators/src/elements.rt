//! Numbers of elements of arrays, by their sizes or else by their initialisers (6.7.6.2, 6.7.9).
ghost use Rattle.std.specs.Prelude.{◌≡◌, ℕ, Bool, List, Option, IsTrue, IfOk, option_map, Result};
ghost use Rattle.cond_formula.specs.Features.{has};
ghost use Rattle.cond_formula.specs.Conditions.{value};
ghost use Rattle.conditional.specs.Judgements.{fine, checked};
ghost use Rattle.c_text.specs.Token.{PlainToken};
ghost use Rattle.c_types.specs.Types.{PlainType};
ghost use Rattle.c_tree.specs.Trees.{plain_tree};
ghost use Rattle.choice_trees.specs.ChoiceTrees.{plain_item, item_at};
ghost use Rattle.core_meaning.specs.Constancy.{is_character_type};
ghost use Rattle.core_meaning.specs.Declarations as spec;
ghost use Rattle.core_meaning.specs.Entities.{Scope};
ghost use Rattle.operand_types.specs.OperandTypes.{outcome_as};
ghost use Rattle.operand_rules.specs.PlainOperandTypes.{reason};
ghost use Rattle.cond_sizes.specs.Sizes.{plain_count, given, ShowsCount};
ghost use Rattle.cond_declarators.specs.Elements.{within_limit};

use crate::shown::{everywhere, refused_everywhere};
use c_tree::Tree;
use choice_trees::Item;
use cond_formula::{Formula, NoMemory, Oracle};
use cond_sizes::{Count, count_of_tree, counts_by_initialiser};
use conditional::{CondList, Judgement, Outcomes, judged, when_some_hold};
use operand_rules::Refused;
use plain_declarators::has_no_size;
use plain_expressions::MOST_ELEMENTS;
use std::alloc::Global;

/// At most as many elements as an array may have.
#[derive(Clone, Copy)]
struct WithinLimit;

impl Judgement<Count, Count, Refused> for WithinLimit {
    ghost answers = { λ _ a r. checked plain_count reason r ≡ within_limit (plain_count a) };

    fn judge(&self, _alloc: Global, a: &Count) -> Result<Result<Count, Refused>, NoMemory> {
        if a.elements <= MOST_ELEMENTS {
            Ok(Ok(*a))
        } else {
            Ok(Err(Refused))
        }
    }
}

/// The numbers without the refusals.
fn without_refusals(alloc: Global, numbers: Outcomes<Count, Refused>) -> Outcomes<Count, Refused>
    ensures { (on : ℕ → Bool) (n : ℕ) → ShowsCount on (fine n) numbers → ShowsCount on (fine n) result }
{
    let Outcomes { fine, refused: _ } = numbers;
    Outcomes {
        fine,
        refused: CondList::empty(alloc),
    }
}

/// The numbers that initialisers give, and 1 where they give none.
fn counts_or_one<O: Oracle>(
    alloc: Global,
    oracle: &mut O,
    numbers: Outcomes<Count, Refused>,
) -> Result<Outcomes<Count, Refused>, NoMemory>
    ensures kept { O.admits oracle.new ≡ O.admits oracle.old }
    ensures shows { IfOk result (λ all. (c : List Bool) (o : Option ℕ) → IsTrue (value (has c) (O.admits oracle.old))
        → ShowsCount (has c) (given o) numbers → ShowsCount (has c) (fine (spec.count_or_one o)) all) }
{
    let none = when_some_hold(alloc, &numbers.refused.entries)?;
    let some = Formula::not(alloc, none.try_clone(alloc)?)?;
    let counts = without_refusals(alloc, numbers);
    let mut all = Outcomes::nothing(alloc);
    all.place_under(alloc, &some, &counts)?;
    all.place_possible(alloc, oracle, none, Ok(Count { elements: 1 }))?;
    Ok(all)
}

/// How many elements an initialiser gives, which is refused where there is none.
fn counts_without_size<O: Oracle>(
    alloc: Global,
    oracle: &mut O,
    of_characters: bool,
    initialiser: Option<&Item>,
) -> Result<Outcomes<Count, Refused>, NoMemory>
    ensures kept { O.admits oracle.new ≡ O.admits oracle.old }
    ensures shows { IfOk result (λ all. (c : List Bool) (element : PlainType) (name : PlainToken) → IsTrue (value (has c) (O.admits oracle.old)) → is_character_type element ≡ of_characters
        → ShowsCount (has c) (outcome_as (λ (n : ℕ). n) (spec.count_without_size element name (option_map (λ item. item_at (has c) (plain_item item.now)) initialiser.entry))) all) }
{
    let Some(initialiser) = initialiser else {
        let none = refused_everywhere(alloc)?;
        return Ok(none);
    };
    let numbers = counts_by_initialiser(alloc, oracle, of_characters, initialiser)?;
    let counts = counts_or_one(alloc, oracle, numbers)?;
    let limited = judged(alloc, &WithinLimit, counts)?;
    Ok(limited)
}

/// The size of an array, which is the same in each configuration.
fn counts_of_size(alloc: Global, size: Option<&Tree>) -> Result<Outcomes<Count, Refused>, NoMemory>
    ensures { IfOk result (λ all. (on : ℕ → Bool) (scope : Scope) (name : PlainToken)
        → ShowsCount on (outcome_as (λ (n : ℕ). n) (spec.count_of_size scope name (option_map (λ t. plain_tree t.now) size.entry))) all) }
{
    let Some(size) = size else {
        let none = refused_everywhere(alloc)?;
        return Ok(none);
    };
    let count = count_of_tree(alloc, size)?;
    let counts = everywhere(alloc, count)?;
    Ok(counts)
}

/// How many elements an array has: without a size, as many as its initialiser gives.
pub(crate) fn element_counts<O: Oracle>(
    alloc: Global,
    oracle: &mut O,
    of_characters: bool,
    size: Option<&Tree>,
    initialiser: Option<&Item>,
) -> Result<Outcomes<Count, Refused>, NoMemory>
    ensures kept { O.admits oracle.new ≡ O.admits oracle.old }
    ensures shows { IfOk result (λ all. (c : List Bool) (scope : Scope) (element : PlainType) (name : PlainToken) → IsTrue (value (has c) (O.admits oracle.old)) → is_character_type element ≡ of_characters
        → ShowsCount (has c) (outcome_as (λ (n : ℕ). n) (spec.element_count scope element name (option_map (λ t. plain_tree t.now) size.entry) (option_map (λ item. item_at (has c) (plain_item item.now)) initialiser.entry))) all) }
{
    if has_no_size(size) {
        let counts = counts_without_size(alloc, oracle, of_characters, initialiser)?;
        Ok(counts)
    } else {
        let counts = counts_of_size(alloc, size)?;
        Ok(counts)
    }
}
