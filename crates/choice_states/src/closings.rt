//! What becomes of a node when it is known what stands behind its parts.

ghost use Rattle.std.specs.Prelude.{◌≡◌, ℕ, Bool, false, [], Some, IsTrue, IfOk, if◌then◌else◌};
ghost use Rattle.cond_formula.specs.Conditions.{condition_of, value};
ghost use Rattle.grammar_moves.specs.PlainPlaces.{plain_place};
ghost use Rattle.choice_states.specs.Seen.{node_seen, Parts, choice_seen, seen_in};
ghost use Rattle.choice_states.specs.Parts.{values, parts_are_whole};
ghost use Rattle.choice_states.specs.States.{at_place, within, made, closed, as_part, open_node, standing, becoming, owes, Finishes, MayStay};

use crate::copies::{parts_elsewhere, parts_where};
use crate::parts::{as_one, certain};
use crate::states::{After, Closing, State};
use c_tree::Kind;
use choice_trees::{Choice, Item};
use cond_formula::{Formula, NoMemory};
use grammar_moves::Place;
use std::alloc::Global;

/// Whether some alternative is still in the node.
#[tactic(auto, using(crate::specs::StateLaws::state_kinds))]
fn needs_parts(state: &State) -> bool
    ensures { result ≡ false → (on : ℕ → Bool) (parts others : Parts) → standing state.now on parts ≡ standing state.now on others }
{
    match state {
        State::Dead => false,
        State::At(..) => true,
        State::In(..) => true,
        State::Closed(_) => true,
        State::Unbegun(..) => false,
        State::Taken(..) => true,
        State::Split(_, first, second) => needs_parts(first) || needs_parts(second),
    }
}

/// Whether every alternative leaves the node.
fn leaves(state: &State) -> bool {
    match state {
        State::Closed(_) => true,
        State::Unbegun(..) => true,
        State::Split(_, first, second) => leaves(first) && leaves(second),
        _ => false,
    }
}

/// Whether some alternative has to leave the node at once.
#[tactic(auto, using(crate::specs::StateLaws::state_kinds, crate::specs::StateLaws::owed_kinds, crate::proofs::Finishing::may_stay_inside))]
fn must_leave(state: &State) -> bool
    ensures { result ≡ false → (on : ℕ → Bool) (parts : Parts) → MayStay (standing state.now on parts) (owes state.now on) }
{
    match state {
        State::Closed(closing) => closing.waited_for,
        State::Unbegun(_, waits) => *waits,
        State::Taken(..) => true,
        State::Split(_, first, second) => must_leave(first) || must_leave(second),
        State::In(..) => false,
        State::At(..) => false,
        State::Dead => false,
    }
}

/// A whole node of a kind.
#[tactic(auto, using(choice_trees::specs::ItemLaws::item_kinds))]
fn whole_node(alloc: Global, parts: Vec<Choice<Item>>, kind: Kind) -> Result<Choice<Item>, NoMemory>
    ensures { IfOk result (λ part. (on : ℕ → Bool) → IsTrue (parts_are_whole (Some kind) (seen_in on parts.items))
        → choice_seen on part ≡ Some (node_seen kind (values (seen_in on parts.items)))) }
{
    let part = certain(alloc, Item::Node(kind, parts))?;
    Ok(part)
}

/// A whole node of a kind, or the one part.
fn whole_part(
    alloc: Global,
    parts: Vec<Choice<Item>>,
    kind: Option<Kind>,
) -> Result<Choice<Item>, NoMemory>
    ensures { IfOk result (λ part. (on : ℕ → Bool) → IsTrue (parts_are_whole kind (seen_in on parts.items)) → choice_seen on part ≡ made kind (values (seen_in on parts.items))) }
{
    match kind {
        Some(kind) => {
            let part = whole_node(alloc, parts, kind)?;
            Ok(part)
        }
        None => {
            let part = as_one(alloc, parts)?;
            Ok(part)
        }
    }
}

/// A whole node, as a part of the one around it.
#[tactic(auto, using(crate::specs::StateLaws::after_kinds))]
fn whole(alloc: Global, parts: Vec<Choice<Item>>, closing: Closing) -> Result<After, NoMemory>
    ensures { IfOk result (λ after. (on : ℕ → Bool) → IsTrue (closed closing.kind (plain_place closing.ended) (seen_in on parts.items)).fits
        → becoming after on ≡ as_part (closed closing.kind (plain_place closing.ended) (seen_in on parts.items))) }
{
    let part = whole_part(alloc, parts, closing.kind)?;
    Ok(After::Whole(part, closing.ended))
}

/// A node whose first parts are these, in one without parts, behind which is this place.
#[tactic(auto, using(crate::specs::StateLaws::state_kinds, crate::specs::StateLaws::after_kinds))]
fn begun_with(
    alloc: Global,
    parts: Vec<Choice<Item>>,
    behind: Place,
    second: Place,
) -> Result<After, NoMemory>
    ensures { IfOk result (λ after. (on : ℕ → Bool)
        → becoming after on ≡ open_node (within (plain_place behind) (at_place (plain_place second) (seen_in on parts.items)) [])) }
{
    let inner = State::At(second, true);
    let outer = State::In(behind, parts, Box::new(alloc, inner)?);
    Ok(After::Open(Vec::new(alloc), Box::new(alloc, outer)?))
}

/// The parts where the formula is true, and elsewhere, for the two alternatives, as far as they need them.
fn divided(
    alloc: Global,
    parts: Vec<Choice<Item>>,
    f: &Formula,
    first: &State,
    second: &State,
) -> Result<(Vec<Choice<Item>>, Vec<Choice<Item>>), NoMemory>
    ensures first { IfOk result (λ both. (on : ℕ → Bool) → IsTrue (value on (condition_of f.now))
        → standing first.now on (seen_in on both.0.items) ≡ standing first.now on (seen_in on parts.items)) }
    ensures second { IfOk result (λ both. (on : ℕ → Bool) → value on (condition_of f.now) ≡ false
        → standing second.now on (seen_in on both.1.items) ≡ standing second.now on (seen_in on parts.items)) }
{
    if !needs_parts(second) {
        return Ok((parts, Vec::new(alloc)));
    }
    if !needs_parts(first) {
        return Ok((Vec::new(alloc), parts));
    }
    let ours = parts_where(alloc, &parts, f)?;
    let theirs = parts_elsewhere(alloc, parts, f)?;
    Ok((ours, theirs))
}

/// One stays in the node for now.
#[tactic(auto, using(crate::specs::StateLaws::after_kinds))]
fn open(alloc: Global, parts: Vec<Choice<Item>>, state: State) -> Result<After, NoMemory>
    ensures { IfOk result (λ after. (on : ℕ → Bool) → becoming after on ≡ open_node (standing state on (seen_in on parts.items))) }
{
    Ok(After::Open(parts, Box::new(alloc, state)?))
}

/// Whether all of two alternatives may stay in the node for now.
fn may_stay(first: &State, second: &State) -> bool
    ensures first { IsTrue result → (on : ℕ → Bool) (parts : Parts) → MayStay (standing first.now on parts) (owes first.now on) }
    ensures second { IsTrue result → (on : ℕ → Bool) (parts : Parts) → MayStay (standing second.now on parts) (owes second.now on) }
{
    if leaves(first) && leaves(second) {
        return false;
    }
    !must_leave(first) && !must_leave(second)
}

/// Where the formula is true the one, elsewhere the other.
#[tactic(auto, using(crate::specs::StateLaws::after_kinds))]
fn split_after(alloc: Global, f: Formula, first: After, second: After) -> Result<After, NoMemory>
    ensures { IfOk result (λ after. (on : ℕ → Bool) → becoming after on ≡ (if value on (condition_of f) then becoming first on else becoming second on)) }
{
    Ok(After::Split(f, Box::new(alloc, first)?, Box::new(alloc, second)?))
}

/// What becomes of a node with these parts.
#[tactic(auto, using(crate::specs::StateLaws::state_kinds, crate::specs::StateLaws::after_kinds, crate::specs::StateLaws::owed_kinds))]
pub fn finished(alloc: Global, state: State, parts: Vec<Choice<Item>>) -> Result<After, NoMemory>
    ensures { IfOk result (λ after. (on : ℕ → Bool) → IsTrue (standing state on (seen_in on parts.items)).fits
        → Finishes (standing state on (seen_in on parts.items)) (owes state on) (becoming after on)) }
{
    match state {
        State::Dead => Ok(After::Dead),
        State::Closed(closing) => whole(alloc, parts, closing),
        State::Unbegun(around, _) => Ok(After::Unbegun(around)),
        State::Taken(behind, second) => begun_with(alloc, parts, behind, second),
        State::Split(f, first, second) => {
            if may_stay(&first, &second) {
                return open(alloc, parts, State::Split(f, first, second));
            }
            let (ours, theirs) = divided(alloc, parts, &f, &first, &second)?;
            let first = finished(alloc, Box::into_inner(first), ours)?;
            let second = finished(alloc, Box::into_inner(second), theirs)?;
            split_after(alloc, f, first, second)
        }
        State::At(place, new) => open(alloc, parts, State::At(place, new)),
        State::In(place, inner, rest) => open(alloc, parts, State::In(place, inner, rest)),
    }
}
