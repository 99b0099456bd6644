//! Before a token: nodes that are whole whatever comes next, and lists that begin or don't.

ghost use Rattle.std.specs.Prelude.{◌≡◌, ℕ, Bool, List, [], Option, Some, None, IsTrue, IfOk};
ghost use Rattle.cond_formula.specs.Conditions.{conditions_of, all_true};
ghost use Rattle.grammar_moves.specs.declared.places.Place.{Place as Spot};
ghost use Rattle.grammar_moves.specs.PlainPlaces.{plain_place};
ghost use Rattle.choice_lookahead.specs.Ahead.{next_kind};
ghost use Rattle.choice_trees.specs.declared.trees.Choice.{Choice};
ghost use Rattle.choice_trees.specs.declared.trees.Item.{Item};
ghost use Rattle.choice_states.specs.Seen.{seen_in};
ghost use Rattle.choice_states.specs.States.{at_place, within, becoming};
ghost use Rattle.choice_settling.specs.Steps.{stood, SameElsewhere, IsSound, HasBegun, Settles, SettlesSo};
ghost use Rattle.choice_settling.specs.Around.{IsListAround};

use crate::alternatives::{is_inside, left};
use crate::places::{around_here, left_out, whole};
use choice_lookahead::{begins_nothing, next_ending};
use choice_states::{After, State, joined, list_at, push, some_are_there};
use choice_trees::{Choice, Item};
use cond_formula::{Formula, NoMemory};
use cond_tokens::CondToken;
use grammar_moves::{Place, back};
use path_conditions::{follows, is_excluded, with, without};
use std::alloc::Global;

/// The tokens ahead, and where the first is there, or the end of the text.
#[derive(Clone, Copy)]
pub struct Ahead<'a> {
    pub alloc: Global,
    pub tokens: &'a [CondToken],
    pub when: &'a Formula,
}

/// What becomes of a state in a node with these parts, behind which is a place in the node around it.
pub fn settled(
    state: State,
    parts: &mut Vec<Choice<Item>>,
    outer: Option<Place>,
    path: &[Formula],
    here: &[Formula],
    ahead: Ahead,
) -> Result<State, NoMemory>
    ensures elsewhere { IfOk result (λ new. SameElsewhere here.now parts.old.items parts.new.items) }
    ensures settled { IfOk result (λ new. SettlesSo path.now here.now outer ahead.entry.tokens.now (stood state parts.old.items) (stood new parts.new.items)) }
{
    let alloc = ahead.alloc;
    match state {
        State::Split(f, first, second) => {
            let first_path = with(alloc, path, &f)?;
            let first_here = with(alloc, here, &f)?;
            let first = Box::into_inner(first);
            let first = settled(first, parts, outer, &first_path, &first_here, ahead)?;
            let second_path = without(alloc, path, &f)?;
            let second_here = without(alloc, here, &f)?;
            let second = Box::into_inner(second);
            let second = settled(second, parts, outer, &second_path, &second_here, ahead)?;
            joined(alloc, f, first, second)
        }
        State::In(place, inner, rest) => {
            let mut inner = inner;
            let nowhere = Vec::new(alloc);
            let rest = Box::into_inner(rest);
            let rest = settled(rest, &mut inner, Some(place), path, &nowhere, ahead)?;
            if is_inside(&rest) {
                return Ok(State::In(place, inner, Box::new(alloc, rest)?));
            }
            let after = left(alloc, rest, inner, path, ahead.when)?;
            settled_after(after, place, parts, outer, path, here, ahead)
        }
        State::At(place, new) => settled_at(place, new, parts, outer, path, here, ahead),
        other => Ok(other),
    }
}

/// What becomes of a part, behind which is this place, is known: what becomes of the node.
pub fn settled_after(
    after: After,
    place: Place,
    parts: &mut Vec<Choice<Item>>,
    outer: Option<Place>,
    path: &[Formula],
    here: &[Formula],
    ahead: Ahead,
) -> Result<State, NoMemory>
    ensures elsewhere { IfOk result (λ new. SameElsewhere here.now parts.old.items parts.new.items) }
    ensures settled { IfOk result (λ new. SettlesSo path.now here.now outer ahead.entry.tokens.now (λ on. within (plain_place place) (becoming after on) (seen_in on parts.old.items)) (stood new parts.new.items)) }
{
    let alloc = ahead.alloc;
    match after {
        After::Dead => Ok(State::Dead),
        After::Open(inner, rest) => Ok(State::In(place, inner, rest)),
        After::Whole(part, ended) => {
            let behind = back(place, ended);
            push(parts, alloc, here, behind, part)?;
            foreseen(behind, parts, outer, path, here, ahead)
        }
        After::Unbegun(around) => foreseen(around, parts, outer, path, here, ahead),
        After::Split(f, first, second) => {
            let first_path = with(alloc, path, &f)?;
            let first_here = with(alloc, here, &f)?;
            let first = Box::into_inner(first);
            let first = settled_after(first, place, parts, outer, &first_path, &first_here, ahead)?;
            let second_path = without(alloc, path, &f)?;
            let second_here = without(alloc, here, &f)?;
            let second = Box::into_inner(second);
            let second = settled_after(
                second,
                place,
                parts,
                outer,
                &second_path,
                &second_here,
                ahead,
            )?;
            joined(alloc, f, first, second)
        }
    }
}

fn settled_at(
    place: Place,
    new: bool,
    parts: &mut Vec<Choice<Item>>,
    outer: Option<Place>,
    path: &[Formula],
    here: &[Formula],
    ahead: Ahead,
) -> Result<State, NoMemory>
    ensures elsewhere { IfOk result (λ new. SameElsewhere here.now parts.old.items parts.new.items) }
    ensures settled { IfOk result (λ new. SettlesSo path.now here.now outer ahead.entry.tokens.now (λ on. at_place (plain_place place) (seen_in on parts.old.items)) (stood new parts.new.items)) }
{
    if new {
        foreseen(place, parts, outer, path, here, ahead)
    } else {
        Ok(State::At(place, false))
    }
}

/// What becomes of a place, by all tokens that may come next. A node that is in no other isn't ended before the token that ends it: none is behind
/// it, so where that token isn't there nothing could go on.
fn foreseen(
    place: Place,
    parts: &mut Vec<Choice<Item>>,
    outer: Option<Place>,
    path: &[Formula],
    here: &[Formula],
    ahead: Ahead,
) -> Result<State, NoMemory>
    ensures elsewhere { IfOk result (λ new. SameElsewhere here.now parts.old.items parts.new.items) }
    ensures settled { IfOk result (λ new. SettlesSo path.now here.now outer ahead.entry.tokens.now (λ on. at_place (plain_place place) (seen_in on parts.old.items)) (stood new parts.new.items)) }
{
    match outer {
        Some(behind) => foreseen_inside(place, behind, parts, path, here, ahead),
        None => Ok(State::At(place, false)),
    }
}

/// In a node in another, in which this place is behind it.
fn foreseen_inside(
    place: Place,
    behind: Place,
    parts: &mut Vec<Choice<Item>>,
    path: &[Formula],
    here: &[Formula],
    ahead: Ahead,
) -> Result<State, NoMemory>
    ensures elsewhere { IfOk result (λ new. SameElsewhere here.now parts.old.items parts.new.items) }
    ensures settled { IfOk result (λ new. SettlesSo path.now here.now (Some behind) ahead.entry.tokens.now (λ on. at_place (plain_place place) (seen_in on parts.old.items)) (stood new parts.new.items)) }
{
    if let Some(around) = around_here(place, Some(behind)) {
        return foreseen_in_list(place, around, parts, path, here, ahead);
    }
    match list_at(place) {
        Some((behind, before)) => foreseen_before_list(place, behind, before, path, ahead),
        None => foreseen_end(place, parts, path, here, ahead),
    }
}

/// In a list that has begun only if it has parts.
fn foreseen_in_list(
    place: Place,
    around: Place,
    parts: &mut Vec<Choice<Item>>,
    path: &[Formula],
    here: &[Formula],
    ahead: Ahead,
) -> Result<State, NoMemory>
    ensures elsewhere { IfOk result (λ new. SameElsewhere here.now parts.old.items parts.new.items) }
    ensures settled { IfOk result (λ new. (outer : Option Spot) → IsListAround place outer around → SettlesSo path.now here.now outer ahead.entry.tokens.now (λ on. at_place (plain_place place) (seen_in on parts.old.items)) (stood new parts.new.items)) }
{
    let alloc = ahead.alloc;
    if !begins_nothing(alloc, path, place, ahead.tokens)? {
        return Ok(State::At(place, false));
    }
    let some = some_are_there(alloc, path, parts)?;
    if is_excluded(&some, path) {
        return Ok(State::Unbegun(around, false));
    }
    let begun = foreseen_end(place, parts, path, here, ahead)?;
    if follows(&some, path) {
        return Ok(begun);
    }
    joined(alloc, some, begun, State::Unbegun(around, false))
}

/// Where a list may begin: in the list before its first entry, unless no token that may come next begins one.
fn foreseen_before_list(
    place: Place,
    behind: Place,
    before: Place,
    path: &[Formula],
    ahead: Ahead,
) -> Result<State, NoMemory>
    ensures { IfOk result (λ new. IsListAround before (Some behind) place → (outer : Option Spot) (parts : List (Choice Item)) → SettlesSo path.now [] outer ahead.entry.tokens.now (λ on. at_place (plain_place place) (seen_in on parts)) (stood new parts)) }
{
    let alloc = ahead.alloc;
    if begins_nothing(alloc, path, before, ahead.tokens)? {
        return Ok(State::At(place, false));
    }
    let rest = Box::new(alloc, State::At(before, false))?;
    Ok(State::In(behind, Vec::new(alloc), rest))
}

/// The node is whole, if each token that may come next ends it in the same way.
fn foreseen_end(
    place: Place,
    parts: &mut Vec<Choice<Item>>,
    path: &[Formula],
    here: &[Formula],
    ahead: Ahead,
) -> Result<State, NoMemory>
    ensures elsewhere { IfOk result (λ new. SameElsewhere here.now parts.old.items parts.new.items) }
    ensures settled { IfOk result (λ new. (outer : Option Spot) → (outer ≡ None → ⊥) → (on : ℕ → Bool) → IsTrue (all_true on (conditions_of path.now)) → IsTrue (all_true on (conditions_of here.now))
        → HasBegun outer (plain_place place) (seen_in on parts.old.items) → IsSound (at_place (plain_place place) (seen_in on parts.old.items))
        → Settles outer (next_kind on ahead.entry.tokens.now) (at_place (plain_place place) (seen_in on parts.old.items)) (stood new parts.new.items on)) }
{
    let alloc = ahead.alloc;
    match next_ending(alloc, path, place, ahead.tokens)? {
        Some(ending) => {
            let ended = left_out(alloc, place, ending.skipped, parts, here)?;
            Ok(whole(ending.kind, ended))
        }
        None => Ok(State::At(place, false)),
    }
}
