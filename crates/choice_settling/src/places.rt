//! Parts that are left out, and nodes that are whole.

ghost use Rattle.std.specs.Prelude.{◌≡◌, ℕ, Bool, [], IsTrue, IfOk, IfSome, IsNone};
ghost use Rattle.cond_formula.specs.Conditions.{conditions_of, all_true};
ghost use Rattle.grammar_moves.specs.PlainPlaces.{plain_place};
ghost use Rattle.choice_states.specs.Seen.{Parts, seen_in};
ghost use Rattle.choice_states.specs.Parts.{parts_fit};
ghost use Rattle.choice_states.specs.Lists as lists;
ghost use Rattle.choice_states.specs.States.{closed, standing};
ghost use Rattle.choice_settling.specs.Steps.{SameElsewhere, ClosesAlike};
ghost use Rattle.choice_settling.specs.Around.{IsListAround, IsNoListAround};
ghost use Rattle.choice_settling.specs.LeftOut.{LeavesOut, LeftOut};

use c_tree::Kind;
use choice_states::{Closing, State, around, behind_left_out, ending, push_nothing};
use choice_trees::{Choice, Item};
use cond_formula::{Formula, NoMemory};
use grammar_moves::Place;
use std::alloc::Global;

/// The place around a list that has begun only if it has parts, by the place before an entry and the place behind the list, if it is in
/// a node.
pub fn around_here(before: Place, outer: Option<Place>) -> Option<Place>
    ensures some { IfSome result (IsListAround before outer) }
    ensures none { IsNone result → IsNoListAround before outer }
{
    match outer {
        Some(behind) => around(before, behind),
        None => None,
    }
}

/// So many parts are left out, as some token does. Behind them is the place.
pub fn left_out(
    alloc: Global,
    place: Place,
    count: usize,
    parts: &mut Vec<Choice<Item>>,
    here: &[Formula],
) -> Result<Place, NoMemory>
    ensures behind { IfOk result (λ behind. plain_place behind ≡ lists.left_out count (plain_place place)) }
    ensures elsewhere { IfOk result (λ behind. SameElsewhere here.now parts.old.items parts.new.items) }
    ensures left_out { IfOk result (λ behind. LeavesOut count (plain_place place) → (on : ℕ → Bool) → IsTrue (all_true on (conditions_of here.now))
        → IsTrue (parts_fit (plain_place place) (seen_in on parts.old.items)) → LeftOut count (plain_place place) (seen_in on parts.old.items) (seen_in on parts.new.items)) }
{
    for read in 0..count {
        push_nothing(parts, alloc, here, behind_left_out(place, read + 1))?;
    }
    Ok(behind_left_out(place, count))
}

/// The node is whole, as one of a kind or as its one part.
#[tactic(auto, using(choice_states::specs::StateLaws::state_kinds))]
pub fn whole(kind: Option<Kind>, ended: Place) -> State
    ensures { (on : ℕ → Bool) (parts : Parts) → ClosesAlike (closed kind (plain_place ended) parts) (standing result on parts) }
{
    State::Closed(Closing {
        kind,
        ended: ending(ended),
        waited_for: false,
    })
}
