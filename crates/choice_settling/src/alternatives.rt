//! Alternatives that leave a node for a token.

ghost use Rattle.std.specs.Prelude.{◌≡◌, ℕ, Bool, true, false, IfOk};
ghost use Rattle.choice_states.specs.Alike.{StandAlike};
ghost use Rattle.choice_states.specs.States.{becoming};
ghost use Rattle.choice_settling.specs.Steps.{stood};
ghost use Rattle.choice_settling.specs.Leaving.{NoneLeaves, EachOwes, IsLeft, StaysInside};

use choice_states::{After, Closing, State, finished};
use choice_trees::{Choice, Item};
use cond_formula::{Formula, NoMemory};
use path_conditions::{is_excluded, with, without};
use std::alloc::Global;

/// Whether some alternative leaves the node.
#[tactic(auto, using(choice_states::specs::StateLaws::state_kinds))]
fn some_leave(state: &State) -> bool
    ensures { result ≡ false → NoneLeaves state.now }
{
    match state {
        State::Closed(_) => true,
        State::Unbegun(..) => true,
        State::Split(_, first, second) => some_leave(first) || some_leave(second),
        State::Dead => false,
        State::At(..) => false,
        State::In(..) => false,
        State::Taken(..) => false,
    }
}

/// Whether one stands at a place of the node or in a part of it, so that it stays as it is: most nodes round a place do, and needn't be looked
/// at again.
pub fn is_inside(state: &State) -> bool
    ensures { result ≡ true → StaysInside state.now }
{
    match state {
        State::At(..) => true,
        State::In(..) => true,
        State::Dead => false,
        State::Closed(_) => false,
        State::Unbegun(..) => false,
        State::Taken(..) => false,
        State::Split(..) => false,
    }
}

/// Alternatives that leave the node do so at once where the condition may be true on the path.
#[tactic(auto, using(choice_states::specs::StateLaws::state_kinds, choice_states::specs::StateLaws::owed_kinds))]
fn each_waited_for(
    alloc: Global,
    state: State,
    path: &[Formula],
    when: &Formula,
) -> Result<State, NoMemory>
    ensures alike { IfOk result (λ new. StandAlike new state) }
    ensures owed { IfOk result (EachOwes path.now when.now state) }
{
    match state {
        State::Closed(closing) => Ok(State::Closed(Closing {
            kind: closing.kind,
            ended: closing.ended,
            waited_for: !is_excluded(when, path),
        })),
        State::Unbegun(around, _) => Ok(State::Unbegun(around, !is_excluded(when, path))),
        State::Split(f, first, second) => {
            let first_path = with(alloc, path, &f)?;
            let first = each_waited_for(alloc, Box::into_inner(first), &first_path, when)?;
            let second_path = without(alloc, path, &f)?;
            let second = each_waited_for(alloc, Box::into_inner(second), &second_path, when)?;
            Ok(State::Split(f, Box::new(alloc, first)?, Box::new(alloc, second)?))
        }
        State::Dead => Ok(State::Dead),
        State::At(place, new) => Ok(State::At(place, new)),
        State::In(place, parts, rest) => Ok(State::In(place, parts, rest)),
        State::Taken(behind, second) => Ok(State::Taken(behind, second)),
    }
}

/// Alternatives that leave the node do so at once where the condition may be true on the path.
pub fn waited_for(
    alloc: Global,
    state: State,
    path: &[Formula],
    when: &Formula,
) -> Result<State, NoMemory>
    ensures alike { IfOk result (λ new. StandAlike new state) }
    ensures owed { IfOk result (EachOwes path.now when.now state) }
{
    if some_leave(&state) {
        each_waited_for(alloc, state, path, when)
    } else {
        Ok(state)
    }
}

/// What becomes of a node with these parts, which is left where it may be and the condition may be true on the path.
pub fn left(
    alloc: Global,
    state: State,
    parts: Vec<Choice<Item>>,
    path: &[Formula],
    when: &Formula,
) -> Result<After, NoMemory>
    ensures { IfOk result (λ after. (on : ℕ → Bool) → IsLeft path.now when.now on (stood state parts.items on) (becoming after on)) }
{
    let state = waited_for(alloc, state, path, when)?;
    finished(alloc, state, parts)
}
