//! What the parts of a node come to together, in all configurations. They are taken by halves, so that each condition stands in few others.
ghost use Rattle.std.specs.Prelude.{◌≡◌, ℕ, ◌+◌, ◌<◌, ◌^◌, Bool, None, List, length, IsTrue, IfOk, Result};
ghost use Rattle.cond_formula.specs.Features.{has};
ghost use Rattle.cond_formula.specs.Conditions.{condition_of, value};
ghost use Rattle.conditional.specs.Judgements.{fine, checked, Judges};
ghost use Rattle.c_tree.specs.Trees.{PlainTree};
ghost use Rattle.choice_trees.specs.ChoiceTrees as trees;
ghost use Rattle.choice_trees.specs.ChoiceTrees.{plain_item, plain_branches, plain_choices, item_at, branch_at, parts_at};
ghost use Rattle.operand_rules.specs.PlainOperandTypes.{reason};
ghost use Rattle.cond_sizes.specs.Sizes.{plain_count, ShowsCount};
ghost use Rattle.cond_sizes.specs.Totals.{Measured, total, of_part};

use crate::elements::Count;
use c_tree::Kind;
use choice_trees::{Choice, Item, needs_statement};
use choice_variants::may_hold;
use cond_formula::{Formula, NoMemory, Oracle};
use conditional::{Operator, Outcomes, crossed};
use operand_rules::Refused;
use reduced_conditions::{both_of, without};
use std::alloc::{AllocError, Global};

/// What a part comes to.
pub(crate) trait Measure {
    ghost measure: { Self → PlainTree → Measured };

    fn of_item(&self, alloc: Global, item: &Item) -> Result<Result<Count, Refused>, NoMemory>
        ensures { IfOk result (λ r. (on : ℕ → Bool) → checked plain_count reason r ≡ measure self.now (item_at on (plain_item item.now))) };

    /// What the `;` comes to that stands for a statement.
    fn of_no_statement(&self) -> Result<Count, Refused>
        ensures { checked plain_count reason result ≡ measure self.now trees.no_statement };
}

/// The sum of two numbers; want of memory where it is 2^32 or more.
#[derive(Clone, Copy)]
struct Sum;

impl Operator<Count, Count, Count, Refused> for Sum {
    ghost answers = { λ _ a b r. checked plain_count reason r ≡ fine (plain_count a + plain_count b) };

    fn apply(
        &self,
        _alloc: Global,
        a: &Count,
        b: &Count,
    ) -> Result<Result<Count, Refused>, NoMemory> {
        match a.elements.checked_add(b.elements) {
            Some(elements) => Ok(Ok(Count { elements })),
            None => Err(AllocError),
        }
    }
}

/// One more number, if there may be configurations in which the condition is true.
fn place_possible<O: Oracle>(
    alloc: Global,
    oracle: &mut O,
    all: &mut Outcomes<Count, Refused>,
    when: Formula,
    what: Result<Count, Refused>,
) -> Result<(), NoMemory>
    ensures kept { O.admits oracle.new ≡ O.admits oracle.old }
    ensures judges { IfOk result (λ _. (c : List Bool) → IsTrue (value (has c) (O.admits oracle.old))
        → Judges plain_count reason (has c) (condition_of when) (checked plain_count reason what) all.old all.new) }
{
    if !may_hold(&when, oracle) {
        return Ok(());
    }
    all.place(alloc, when, what)?;
    Ok(())
}

/// What stands for a part of which no alternative holds.
fn of_no_part<M: Measure>(measure: &M, needed: bool) -> Result<Count, Refused>
    ensures { checked plain_count reason result ≡ of_part (M.measure measure.now) needed None }
{
    if needed {
        measure.of_no_statement()
    } else {
        Ok(Count { elements: 0 })
    }
}

/// What a part comes to.
fn part_total<M: Measure, O: Oracle>(
    alloc: Global,
    oracle: &mut O,
    measure: &M,
    needed: bool,
    part: &Choice<Item>,
) -> Result<Outcomes<Count, Refused>, NoMemory>
    ensures kept { O.admits oracle.new ≡ O.admits oracle.old }
    ensures shows { IfOk result (λ all. (c : List Bool) → IsTrue (value (has c) (O.admits oracle.old))
        → ShowsCount (has c) (of_part (M.measure measure.now) needed (branch_at (has c) (plain_branches part.now.branches.items))) all) }
{
    let mut all = Outcomes::nothing(alloc);
    let mut left = Formula::True;
    for (when, item) in &part.branches {
        let here = both_of(alloc, &left, when)?;
        let what = measure.of_item(alloc, item)?;
        place_possible(alloc, oracle, &mut all, here, what)?;
        left = without(alloc, left, when)?;
    }
    let what = of_no_part(measure, needed);
    place_possible(alloc, oracle, &mut all, left, what)?;
    Ok(all)
}

/// What parts come to, of which the first has this place in the node.
pub(crate) fn totals<M: Measure, O: Oracle>(
    alloc: Global,
    oracle: &mut O,
    measure: &M,
    kind: Kind,
    place: usize,
    parts: &[Choice<Item>],
) -> Result<Outcomes<Count, Refused>, NoMemory>
    requires { place + length parts.now < 2 ^ 64 }
    ensures kept { O.admits oracle.new ≡ O.admits oracle.old }
    ensures shows { IfOk result (λ all. (c : List Bool) → IsTrue (value (has c) (O.admits oracle.old))
        → ShowsCount (has c) (total (M.measure measure.now) (parts_at (has c) kind place (plain_choices parts.now))) all) }
{
    if parts.is_empty() {
        let none = Outcomes::one(alloc, Count { elements: 0 })?;
        return Ok(none);
    }
    if parts.len() == 1 {
        let needed = needs_statement(kind, place);
        let one = part_total(alloc, oracle, measure, needed, &parts[0])?;
        return Ok(one);
    }
    let (front, back) = parts.split_at(parts.len() / 2);
    let first = totals(alloc, oracle, measure, kind, place, front)?;
    let second = totals(alloc, oracle, measure, kind, place + front.len(), back)?;
    let both = crossed(alloc, &Sum, oracle, first, second)?;
    Ok(both)
}
