//! A token is read where it is there.

ghost use Rattle.std.specs.Prelude.{◌≡◌, ℕ, Bool, true, false, not, ◌&&◌, [], ◌∷◌, ◌++◌, Option, Some, None, IsTrue, IfOk, OnOk, IfSome};
ghost use Rattle.cond_formula.specs.Conditions.{Condition, condition_of, conditions_of, value, all_true};
ghost use Rattle.path_conditions.specs.Presences.{IsPresence};
ghost use Rattle.c_tree.specs.Places.{Place as PlainPlace, shifts, move};
ghost use Rattle.grammar_moves.specs.declared.places.Place.{Place as Spot};
ghost use Rattle.grammar_moves.specs.PlainPlaces.{plain_place, plain_around};
ghost use Rattle.grammar_moves.specs.PlainMoves.{begun_by};
ghost use Rattle.choice_states.specs.Seen.{Parts, seen_in};
ghost use Rattle.choice_states.specs.Parts.{part_count, parts_fit_within, HasNoNumber, Pushed};
ghost use Rattle.choice_states.specs.States.{at_place, standing, becoming};
ghost use Rattle.choice_states.specs.Alike.{StandAlike};
ghost use Rattle.choice_settling.specs.Around.{IsListAround};
ghost use Rattle.choice_reading.specs.Beginnings.{StandsIn, nested_in, FirstFits, StandsFirst, BeginsFitting, StandsBegun};
ghost use Rattle.choice_settling.specs.Leaving.{OnlyPlaces, spot_at};
ghost use Rattle.choice_reading.specs.Pushing.{Pushes, PushesThere, StandsThere, MovesThere, ReadsPlaces};
ghost use Rattle.choice_settling.specs.Steps.{seen_of, stood, in_node, SameElsewhere, ReadsSo, ReadsOn, ReadsAll, ReadsAfter};

use c_tree::Terminal;
use choice_lookahead::enters;
use choice_settling::{around_here, is_inside, left, left_out, whole};
use choice_states::{
    After, State, certain, joined, leaf_of, number_before, push, push_nothing, some_are_there,
};
use choice_trees::{Choice, Item};
use cond_formula::{Formula, NoMemory, Oracle};
use cond_tokens::CondToken;
use grammar_moves::{Action, Beginning, NodeStart, Place, Start, back, next_move};
use path_conditions::{Presence, follows, is_excluded, left_of, presence_on, with, without};
use std::alloc::Global;

/// A token that is read: its number in the stream, and what it is to the grammar.
#[derive(Clone, Copy)]
pub struct Reading<'a> {
    pub alloc: Global,
    pub token: &'a CondToken,
    pub number: u32,
    pub terminal: Terminal,
}

/// Where a token is read: the place in the node around behind the one in which it is, if there is one; the path of conditions to it, and those
/// under which the parts are pushed.
#[derive(Clone, Copy)]
pub struct Setting<'a> {
    pub outer: Option<Place>,
    pub path: &'a [Formula],
    pub here: &'a [Formula],
}

/// The conditions of one of two alternatives.
#[derive(Drop)]
struct Side {
    path: Vec<Formula>,
    here: Vec<Formula>,
}

impl<'a> Setting<'a> {
    /// The same node, in one of two alternatives.
    fn on(self, side: &'a Side) -> Setting<'a>
        ensures outer { result.outer ≡ self.entry.outer }
        ensures path { result.path.now ≡ side.now.path.items }
        ensures here { result.here.now ≡ side.now.here.items }
    {
        Setting {
            outer: self.outer,
            path: &side.path,
            here: &side.here,
        }
    }

    /// In a part of the node, behind which is this place.
    fn inside(self, place: Place, nowhere: &'a [Formula]) -> Setting<'a>
        ensures outer { result.outer ≡ Some place }
        ensures path { result.path.now ≡ self.entry.path.now }
        ensures here { result.here.now ≡ nowhere.now }
    {
        Setting {
            outer: Some(place),
            path: self.path,
            here: nowhere,
        }
    }

    /// The alternative where the formula is true.
    fn side_with(self, alloc: Global, f: &Formula) -> Result<Side, NoMemory>
        ensures path { IfOk result (λ side. (on : ℕ → Bool) → all_true on (conditions_of side.path.items) ≡ (all_true on (conditions_of self.entry.path.now) && value on (condition_of f.now))) }
        ensures here { IfOk result (λ side. (on : ℕ → Bool) → all_true on (conditions_of side.here.items) ≡ (all_true on (conditions_of self.entry.here.now) && value on (condition_of f.now))) }
    {
        let path = with(alloc, self.path, f)?;
        let here = with(alloc, self.here, f)?;
        Ok(Side { path, here })
    }

    /// The alternative where it isn't.
    fn side_without(self, alloc: Global, f: &Formula) -> Result<Side, NoMemory>
        ensures path { IfOk result (λ side. (on : ℕ → Bool) → all_true on (conditions_of side.path.items) ≡ (all_true on (conditions_of self.entry.path.now) && not (value on (condition_of f.now)))) }
        ensures here { IfOk result (λ side. (on : ℕ → Bool) → all_true on (conditions_of side.here.items) ≡ (all_true on (conditions_of self.entry.here.now) && not (value on (condition_of f.now)))) }
    {
        let path = without(alloc, self.path, f)?;
        let here = without(alloc, self.here, f)?;
        Ok(Side { path, here })
    }
}

fn push_token(
    parts: &mut Vec<Choice<Item>>,
    here: &[Formula],
    behind: Place,
    reading: Reading,
) -> Result<(), NoMemory>
    ensures elsewhere { OnOk result (SameElsewhere here.now parts.old.items parts.new.items) }
    ensures pushed { OnOk result ((on : ℕ → Bool) → IsTrue (all_true on (conditions_of here.now)) → IsTrue (parts_fit_within (plain_place behind) (seen_in on parts.old.items))
        → Pushed (plain_place behind) (seen_in on parts.old.items) (seen_in on parts.new.items) (seen_of reading.entry.number reading.entry.token.now)) }
{
    let alloc = reading.alloc;
    let item = leaf_of(alloc, reading.number, &reading.token.token)?;
    let part = certain(alloc, item)?;
    push(parts, alloc, here, behind, part)?;
    Ok(())
}

/// In a node with no other part, behind which is this place, if there is one.
#[tactic(auto, using(choice_states::specs::StateLaws::state_kinds))]
fn within_new(alloc: Global, place: Option<Place>, inner: State) -> Result<State, NoMemory>
    ensures { IfOk result (StandsIn place inner) }
{
    match place {
        Some(place) => Ok(State::In(place, Vec::new(alloc), Box::new(alloc, inner)?)),
        None => Ok(inner),
    }
}

/// The token as the first part of a node.
fn one_part(inner: Place, reading: Reading) -> Result<Vec<Choice<Item>>, NoMemory>
    ensures { IfOk result (λ parts. FirstFits false (plain_place inner) → (on : ℕ → Bool)
        → StandsFirst (plain_place inner) false (seen_of reading.entry.number reading.entry.token.now) (seen_in on parts.items)) }
{
    let here = Vec::new(reading.alloc);
    let mut parts = Vec::new(reading.alloc);
    push_token(&mut parts, &here, inner, reading)?;
    Ok(parts)
}

/// The token behind a part that is left out.
fn behind_nothing(inner: Place, reading: Reading) -> Result<Vec<Choice<Item>>, NoMemory>
    ensures { IfOk result (λ parts. FirstFits true (plain_place inner) → (on : ℕ → Bool)
        → StandsFirst (plain_place inner) true (seen_of reading.entry.number reading.entry.token.now) (seen_in on parts.items)) }
{
    let here = Vec::new(reading.alloc);
    let mut parts = Vec::new(reading.alloc);
    push_nothing(&mut parts, reading.alloc, &here, inner)?;
    push_token(&mut parts, &here, inner, reading)?;
    Ok(parts)
}

/// The parts of the innermost node that begins with the token.
fn first_parts(skips: bool, inner: Place, reading: Reading) -> Result<Vec<Choice<Item>>, NoMemory>
    ensures { IfOk result (λ parts. FirstFits skips (plain_place inner) → (on : ℕ → Bool)
        → StandsFirst (plain_place inner) skips (seen_of reading.entry.number reading.entry.token.now) (seen_in on parts.items)) }
{
    if skips {
        behind_nothing(inner, reading)
    } else {
        one_part(inner, reading)
    }
}

/// In the nodes that begin with the token, behind which is this place.
fn begun(behind: Place, beginning: Beginning, reading: Reading) -> Result<State, NoMemory>
    ensures { IfOk result (λ new. BeginsFitting (begun_by beginning) → (on : ℕ → Bool) (parts : Parts) → IsTrue (parts_fit_within (plain_place behind) parts)
        → StandsBegun (plain_place behind) (begun_by beginning) (seen_of reading.entry.number reading.entry.token.now) parts (standing new on parts)) }
{
    let alloc = reading.alloc;
    let NodeStart {
        around: outer,
        start,
    } = beginning.start;
    let Start {
        around: innermost,
        skips,
        inner,
    } = start;
    let parts = first_parts(skips, inner, reading)?;
    let rest = Box::new(alloc, State::At(inner, true))?;
    match innermost {
        Some(place) => {
            let state = State::In(place, parts, rest);
            let state = within_new(alloc, outer, state)?;
            let state = within_new(alloc, beginning.around, state)?;
            within_new(alloc, Some(behind), state)
        }
        None => begun_around(behind, beginning.around, outer, parts, rest, alloc),
    }
}

/// In a node with these parts, in those around it that there are, which have no other part.
fn begun_around(
    behind: Place,
    around: Option<Place>,
    outer: Option<Place>,
    parts: Vec<Choice<Item>>,
    rest: Box<State>,
    alloc: Global,
) -> Result<State, NoMemory>
    ensures { IfOk result (λ new. (on : ℕ → Bool) (others : Parts)
        → standing new on others ≡ nested_in (plain_place behind ∷ (plain_around around ++ plain_around outer)) (standing rest.value on (seen_in on parts.items)) others) }
{
    match outer {
        Some(place) => {
            let state = State::In(place, parts, rest);
            let state = within_new(alloc, around, state)?;
            within_new(alloc, Some(behind), state)
        }
        None => match around {
            Some(place) => within_new(alloc, Some(behind), State::In(place, parts, rest)),
            None => Ok(State::In(behind, parts, rest)),
        },
    }
}

/// The token does what the table says in a node with these parts.
fn read_in_node(
    place: Place,
    parts: &mut Vec<Choice<Item>>,
    here: &[Formula],
    reading: Reading,
) -> Result<State, NoMemory>
    ensures elsewhere { IfOk result (λ new. SameElsewhere here.now parts.old.items parts.new.items) }
    ensures reads { IfOk result (λ new. (outer : Option Spot) → ReadsAll [] here.now outer reading.entry.terminal (seen_of reading.entry.number reading.entry.token.now) (λ on. in_node (plain_place place) (seen_in on parts.old.items)) (stood new parts.new.items)) }
{
    let next = next_move(place, reading.terminal);
    let ended = left_out(reading.alloc, place, next.skipped, parts, here)?;
    match next.action {
        Action::Shifts(behind) => {
            push_token(parts, here, behind, reading)?;
            Ok(State::At(behind, true))
        }
        Action::Enters(behind, beginning) => begun(behind, beginning, reading),
        Action::Takes(behind, second) => {
            push_token(parts, here, second, reading)?;
            Ok(State::Taken(behind, second))
        }
        Action::Finishes(kind) => Ok(whole(Some(kind), ended)),
        Action::Passes => Ok(whole(None, ended)),
        Action::Fails => Ok(State::Dead),
    }
}

/// The token begins no entry of a list, which has begun only if it has parts.
fn read_behind_list(
    place: Place,
    around: Place,
    parts: &mut Vec<Choice<Item>>,
    path: &[Formula],
    here: &[Formula],
    reading: Reading,
) -> Result<State, NoMemory>
    ensures elsewhere { IfOk result (λ new. SameElsewhere here.now parts.old.items parts.new.items) }
    ensures reads { IfOk result (λ new. (outer : Option Spot) → IsListAround place outer around → ReadsAll path.now here.now outer reading.entry.terminal (seen_of reading.entry.number reading.entry.token.now) (λ on. at_place (plain_place place) (seen_in on parts.old.items)) (stood new parts.new.items)) }
{
    let alloc = reading.alloc;
    let some = some_are_there(alloc, path, parts)?;
    if is_excluded(&some, path) {
        return Ok(State::Unbegun(around, false));
    }
    let begun = read_in_node(place, parts, here, reading)?;
    if follows(&some, path) {
        return Ok(begun);
    }
    joined(alloc, some, begun, State::Unbegun(around, false))
}

/// The token is read at a place.
fn read_there(
    place: Place,
    parts: &mut Vec<Choice<Item>>,
    setting: Setting,
    reading: Reading,
) -> Result<State, NoMemory>
    ensures elsewhere { IfOk result (λ new. SameElsewhere setting.entry.here.now parts.old.items parts.new.items) }
    ensures reads { IfOk result (λ new. ReadsAll setting.entry.path.now setting.entry.here.now setting.entry.outer reading.entry.terminal (seen_of reading.entry.number reading.entry.token.now) (λ on. at_place (plain_place place) (seen_in on parts.old.items)) (stood new parts.new.items)) }
{
    match around_here(place, setting.outer) {
        Some(around) => {
            if enters(place, reading.terminal) {
                read_in_node(place, parts, setting.here, reading)
            } else {
                read_behind_list(place, around, parts, setting.path, setting.here, reading)
            }
        }
        None => read_in_node(place, parts, setting.here, reading),
    }
}

/// The token is read at a place where it is there.
fn read_at<O: Oracle>(
    place: Place,
    new: bool,
    parts: &mut Vec<Choice<Item>>,
    setting: Setting,
    reading: Reading,
    oracle: &mut O,
) -> Result<State, NoMemory>
    ensures kept { O.admits oracle.new ≡ O.admits oracle.old }
    ensures elsewhere { IfOk result (λ new. SameElsewhere setting.entry.here.now parts.old.items parts.new.items) }
    ensures reads { IfOk result (λ new. ReadsSo (O.admits oracle.old) setting.entry.path.now setting.entry.here.now (condition_of reading.entry.token.now.when) setting.entry.outer reading.entry.terminal (seen_of reading.entry.number reading.entry.token.now) (λ on. at_place (plain_place place) (seen_in on parts.old.items)) (stood new parts.new.items)) }
{
    let alloc = reading.alloc;
    match presence_on(alloc, setting.path, &reading.token.when, oracle)? {
        Presence::Present => read_there(place, parts, setting, reading),
        Presence::Absent => Ok(State::At(place, new)),
        Presence::Unsure => {
            let when = left_of(alloc, &reading.token.when, setting.path)?;
            let side = setting.side_with(alloc, &when)?;
            let there = read_there(place, parts, setting.on(&side), reading)?;
            joined(alloc, when, there, State::At(place, true))
        }
    }
}

/// The token is read where it is there, in a node with these parts, behind which is a place in the node around it.
pub fn read<O: Oracle>(
    state: State,
    parts: &mut Vec<Choice<Item>>,
    setting: Setting,
    reading: Reading,
    oracle: &mut O,
) -> Result<State, NoMemory>
    ensures kept { O.admits oracle.new ≡ O.admits oracle.old }
    ensures elsewhere { IfOk result (λ new. SameElsewhere setting.entry.here.now parts.old.items parts.new.items) }
    ensures reads { IfOk result (λ new. ReadsSo (O.admits oracle.old) setting.entry.path.now setting.entry.here.now (condition_of reading.entry.token.now.when) setting.entry.outer reading.entry.terminal (seen_of reading.entry.number reading.entry.token.now) (stood state parts.old.items) (stood new parts.new.items)) }
{
    let alloc = reading.alloc;
    match state {
        State::At(place, new) => read_at(place, new, parts, setting, reading, oracle),
        State::In(place, inner, rest) => {
            let mut inner = inner;
            let inside = setting.inside(place, &[]);
            let rest = read(Box::into_inner(rest), &mut inner, inside, reading, oracle)?;
            read_behind(rest, inner, place, parts, setting, reading, oracle)
        }
        State::Split(f, first, second) => {
            if let Some(presence) = split_presence(&f, &first, &second, setting, reading, oracle)? {
                let state = State::Split(f, first, second);
                return read_alike(state, presence, parts, setting, reading);
            }
            let first_side = setting.side_with(alloc, &f)?;
            let there = setting.on(&first_side);
            let first = read(Box::into_inner(first), parts, there, reading, oracle)?;
            let second_side = setting.side_without(alloc, &f)?;
            let elsewhere = setting.on(&second_side);
            let second = read(Box::into_inner(second), parts, elsewhere, reading, oracle)?;
            joined(alloc, f, first, second)
        }
        State::Dead => Ok(State::Dead),
        State::Closed(closing) => Ok(State::Closed(closing)),
        State::Unbegun(around, waits) => Ok(State::Unbegun(around, waits)),
        State::Taken(behind, second) => Ok(State::Taken(behind, second)),
    }
}

/// The token has been read in a part, behind which is this place, or is still to be read behind it: it is read in the node.
pub fn read_behind<O: Oracle>(
    state: State,
    inner: Vec<Choice<Item>>,
    place: Place,
    parts: &mut Vec<Choice<Item>>,
    setting: Setting,
    reading: Reading,
    oracle: &mut O,
) -> Result<State, NoMemory>
    ensures kept { O.admits oracle.new ≡ O.admits oracle.old }
    ensures elsewhere { IfOk result (λ new. SameElsewhere setting.entry.here.now parts.old.items parts.new.items) }
    ensures reads { IfOk result (λ new. ReadsAfter (O.admits oracle.old) setting.entry.path.now setting.entry.here.now (condition_of reading.entry.token.now.when) setting.entry.outer place reading.entry.terminal (seen_of reading.entry.number reading.entry.token.now) (stood state inner.items) (λ on. seen_in on parts.old.items) (stood new parts.new.items)) }
{
    if is_inside(&state) {
        return Ok(State::In(place, inner, Box::new(reading.alloc, state)?));
    }
    let after = left(
        reading.alloc,
        state,
        inner,
        setting.path,
        &reading.token.when,
    )?;
    read_after(after, place, parts, setting, reading, oracle)
}

/// All alternatives stand at places where the token has this presence.
fn read_alike(
    state: State,
    presence: Presence,
    parts: &mut Vec<Choice<Item>>,
    setting: Setting,
    reading: Reading,
) -> Result<State, NoMemory>
    ensures elsewhere { IfOk result (λ new. SameElsewhere setting.entry.here.now parts.old.items parts.new.items) }
    ensures reads { IfOk result (λ new. OnlyPlaces state → (admits : Condition) → IsPresence admits setting.entry.path.now (condition_of reading.entry.token.now.when) presence
        → ReadsSo admits setting.entry.path.now setting.entry.here.now (condition_of reading.entry.token.now.when) setting.entry.outer reading.entry.terminal (seen_of reading.entry.number reading.entry.token.now) (stood state parts.old.items) (stood new parts.new.items)) }
{
    match presence {
        Presence::Present => read_places(&state, parts, setting, reading),
        Presence::Unsure => divided(state, parts, setting, reading),
        Presence::Absent => Ok(state),
    }
}

/// What becomes of a part, behind which is this place, is known: what becomes of the node. Where the part is whole, the token is still
/// to be read.
fn read_after<O: Oracle>(
    after: After,
    place: Place,
    parts: &mut Vec<Choice<Item>>,
    setting: Setting,
    reading: Reading,
    oracle: &mut O,
) -> Result<State, NoMemory>
    ensures kept { O.admits oracle.new ≡ O.admits oracle.old }
    ensures elsewhere { IfOk result (λ new. SameElsewhere setting.entry.here.now parts.old.items parts.new.items) }
    ensures reads { IfOk result (λ new. ReadsAfter (O.admits oracle.old) setting.entry.path.now setting.entry.here.now (condition_of reading.entry.token.now.when) setting.entry.outer place reading.entry.terminal (seen_of reading.entry.number reading.entry.token.now) (becoming after) (λ on. seen_in on parts.old.items) (stood new parts.new.items)) }
{
    let alloc = reading.alloc;
    match after {
        After::Dead => Ok(State::Dead),
        After::Open(inner, rest) => Ok(State::In(place, inner, rest)),
        After::Whole(part, ended) => {
            let behind = back(place, ended);
            push(parts, alloc, setting.here, behind, part)?;
            read_at(behind, true, parts, setting, reading, oracle)
        }
        After::Unbegun(around) => read_at(around, true, parts, setting, reading, oracle),
        After::Split(f, first, second) => {
            let first_side = setting.side_with(alloc, &f)?;
            let there = setting.on(&first_side);
            let first = Box::into_inner(first);
            let first = read_after(first, place, parts, there, reading, oracle)?;
            let second_side = setting.side_without(alloc, &f)?;
            let elsewhere = setting.on(&second_side);
            let second = Box::into_inner(second);
            let second = read_after(second, place, parts, elsewhere, reading, oracle)?;
            joined(alloc, f, first, second)
        }
    }
}

/// Whether the token is there, if all alternatives stand at places and it is the same for each.
#[tactic(auto, using(crate::specs::SpotLaws::spot_kinds))]
fn all_presence<O: Oracle>(
    state: &State,
    path: &[Formula],
    reading: Reading,
    oracle: &mut O,
) -> Result<Option<Presence>, NoMemory>
    ensures kept { O.admits oracle.new ≡ O.admits oracle.old }
    ensures presence { IfOk result (λ found. IfSome found (IsPresence (O.admits oracle.old) path.now (condition_of reading.entry.token.now.when))) }
    ensures places { IfOk result (λ found. IfSome found (λ presence. OnlyPlaces state.now)) }
{
    match state {
        State::At(..) => Ok(Some(presence_on(reading.alloc, path, &reading.token.when, oracle)?)),
        State::Split(f, first, second) => {
            let first_path = with(reading.alloc, path, f)?;
            let there = all_presence(first, &first_path, reading, oracle)?;
            if there.is_none() {
                return Ok(None);
            }
            let second_path = without(reading.alloc, path, f)?;
            let otherwise = all_presence(second, &second_path, reading, oracle)?;
            Ok(same_presence(there, otherwise))
        }
        State::Dead => Ok(None),
        State::In(..) => Ok(None),
        State::Closed(_) => Ok(None),
        State::Unbegun(..) => Ok(None),
        State::Taken(..) => Ok(None),
    }
}

/// Whether the token is there, if all alternatives of both stand at places and it is the same for each.
fn split_presence<O: Oracle>(
    f: &Formula,
    first: &State,
    second: &State,
    setting: Setting,
    reading: Reading,
    oracle: &mut O,
) -> Result<Option<Presence>, NoMemory>
    ensures kept { O.admits oracle.new ≡ O.admits oracle.old }
    ensures presence { IfOk result (λ found. IfSome found (IsPresence (O.admits oracle.old) setting.entry.path.now (condition_of reading.entry.token.now.when))) }
    ensures places { IfOk result (λ found. IfSome found (λ presence. OnlyPlaces first.now × OnlyPlaces second.now)) }
{
    let alloc = reading.alloc;
    let first_path = with(alloc, setting.path, f)?;
    let there = all_presence(first, &first_path, reading, oracle)?;
    if there.is_none() {
        return Ok(None);
    }
    let second_path = without(alloc, setting.path, f)?;
    let otherwise = all_presence(second, &second_path, reading, oracle)?;
    Ok(same_presence(there, otherwise))
}

fn same_presence(first: Option<Presence>, second: Option<Presence>) -> Option<Presence>
    ensures first { IfSome result (λ presence. first ≡ Some presence) }
    ensures second { IfSome result (λ presence. second ≡ Some presence) }
{
    match (first, second) {
        (Some(Presence::Present), Some(Presence::Present)) => Some(Presence::Present),
        (Some(Presence::Absent), Some(Presence::Absent)) => Some(Presence::Absent),
        (Some(Presence::Unsure), Some(Presence::Unsure)) => Some(Presence::Unsure),
        _ => None,
    }
}

/// All alternatives stand at places, where the token may be there or not: it is read where it is.
fn divided(
    state: State,
    parts: &mut Vec<Choice<Item>>,
    setting: Setting,
    reading: Reading,
) -> Result<State, NoMemory>
    ensures elsewhere { IfOk result (λ new. SameElsewhere setting.entry.here.now parts.old.items parts.new.items) }
    ensures reads { IfOk result (λ new. OnlyPlaces state → ReadsOn setting.entry.path.now setting.entry.here.now (condition_of reading.entry.token.now.when) setting.entry.outer reading.entry.terminal (seen_of reading.entry.number reading.entry.token.now) (stood state parts.old.items) (stood new parts.new.items)) }
{
    let alloc = reading.alloc;
    let when = left_of(alloc, &reading.token.when, setting.path)?;
    let side = setting.side_with(alloc, &when)?;
    let there = read_places(&state, parts, setting.on(&side), reading)?;
    let otherwise = asked_again(alloc, state)?;
    joined(alloc, when, there, otherwise)
}

/// The tokens ahead are to be asked again at each place.
#[tactic(auto, using(choice_states::specs::StateLaws::state_kinds))]
fn asked_again(alloc: Global, state: State) -> Result<State, NoMemory>
    ensures { IfOk result (λ new. StandAlike new state) }
{
    match state {
        State::At(place, _) => Ok(State::At(place, true)),
        State::Split(f, first, second) => {
            let first = asked_again(alloc, Box::into_inner(first))?;
            let second = asked_again(alloc, Box::into_inner(second))?;
            Ok(State::Split(f, Box::new(alloc, first)?, Box::new(alloc, second)?))
        }
        State::Dead => Ok(State::Dead),
        State::In(place, parts, rest) => Ok(State::In(place, parts, rest)),
        State::Closed(closing) => Ok(State::Closed(closing)),
        State::Unbegun(around, waits) => Ok(State::Unbegun(around, waits)),
        State::Taken(behind, second) => Ok(State::Taken(behind, second)),
    }
}

/// Where one stands at a place, the token is there.
fn read_places(
    state: &State,
    parts: &mut Vec<Choice<Item>>,
    setting: Setting,
    reading: Reading,
) -> Result<State, NoMemory>
    ensures elsewhere { IfOk result (λ new. SameElsewhere setting.entry.here.now parts.old.items parts.new.items) }
    ensures reads { IfOk result (λ new. ReadsPlaces state.now setting.entry.path.now setting.entry.here.now setting.entry.outer reading.entry.terminal (seen_of reading.entry.number reading.entry.token.now) (stood state.now parts.old.items) (stood new parts.new.items)) }
{
    if pushes_alike(state, reading.terminal) {
        push_token(parts, setting.here, Place::InTexts, reading)?;
        moved(state, reading)
    } else {
        read_each(state, parts, setting, reading)
    }
}

#[tactic(auto, using(crate::specs::SpotLaws::spot_kinds))]
fn read_each(
    state: &State,
    parts: &mut Vec<Choice<Item>>,
    setting: Setting,
    reading: Reading,
) -> Result<State, NoMemory>
    ensures elsewhere { IfOk result (λ new. SameElsewhere setting.entry.here.now parts.old.items parts.new.items) }
    ensures reads { IfOk result (λ new. ReadsPlaces state.now setting.entry.path.now setting.entry.here.now setting.entry.outer reading.entry.terminal (seen_of reading.entry.number reading.entry.token.now) (stood state.now parts.old.items) (stood new parts.new.items)) }
{
    let alloc = reading.alloc;
    match state {
        State::At(place, _) => read_there(*place, parts, setting, reading),
        State::Split(f, first, second) => {
            let first_side = setting.side_with(alloc, f)?;
            let there = setting.on(&first_side);
            let first = read_each(first, parts, there, reading)?;
            let second_side = setting.side_without(alloc, f)?;
            let elsewhere = setting.on(&second_side);
            let second = read_each(second, parts, elsewhere, reading)?;
            joined(alloc, f.try_clone(alloc)?, first, second)
        }
        State::Dead => Ok(State::Dead),
        State::In(..) => Ok(State::Dead),
        State::Closed(_) => Ok(State::Dead),
        State::Unbegun(..) => Ok(State::Dead),
        State::Taken(..) => Ok(State::Dead),
    }
}

/// Whether the token is the next part in each alternative, and has no number.
#[tactic(auto, using(choice_states::specs::StateLaws::state_kinds, crate::specs::SpotLaws::spot_kinds))]
fn pushes_alike(state: &State, token: Terminal) -> bool
    ensures pushes { IsTrue result → (on : ℕ → Bool) → PushesThere (spot_at state.now on) token }
    ensures stands { IsTrue result → (on : ℕ → Bool) → StandsThere (spot_at state.now on) (standing state.now on) }
{
    match state {
        State::At(place, _) => pushes(*place, token),
        State::Split(_, first, second) => {
            pushes_alike(first, token) && pushes_alike(second, token)
        }
        State::Dead => false,
        State::In(..) => false,
        State::Closed(_) => false,
        State::Unbegun(..) => false,
        State::Taken(..) => false,
    }
}

/// Whether the token is the next part, which has no number.
fn pushes(place: Place, token: Terminal) -> bool
    ensures { IsTrue result → Pushes (plain_place place) token }
{
    let next = next_move(place, token);
    if next.skipped > 0 {
        return false;
    }
    match next.action {
        Action::Shifts(behind) => has_no_number(behind),
        Action::Enters(..) => false,
        Action::Takes(..) => false,
        Action::Finishes(_) => false,
        Action::Passes => false,
        Action::Fails => false,
    }
}

/// Whether the part before a place has no number.
fn has_no_number(behind: Place) -> bool
    ensures { IsTrue result → HasNoNumber (part_count (plain_place behind)) }
{
    match number_before(behind) {
        Some(_) => false,
        None => true,
    }
}

/// Behind the token, where it is the next part.
#[tactic(auto, using(choice_states::specs::StateLaws::state_kinds))]
fn moved_at(place: Place, token: Terminal) -> State
    ensures { (behind : PlainPlace) → move (plain_place place) token ≡ shifts behind → (on : ℕ → Bool) (parts : Parts) → standing result on parts ≡ at_place behind parts }
{
    let next = next_move(place, token);
    match next.action {
        Action::Shifts(behind) => State::At(behind, true),
        _ => State::Dead,
    }
}

/// Behind the token, in each alternative in which it is the next part.
#[tactic(auto, using(choice_states::specs::StateLaws::state_kinds, crate::specs::SpotLaws::spot_kinds))]
fn moved(state: &State, reading: Reading) -> Result<State, NoMemory>
    ensures { IfOk result (λ new. (on : ℕ → Bool) → MovesThere (spot_at state.now on) reading.entry.terminal (standing new on)) }
{
    let alloc = reading.alloc;
    match state {
        State::At(place, _) => Ok(moved_at(*place, reading.terminal)),
        State::Split(f, first, second) => {
            let first = moved(first, reading)?;
            let second = moved(second, reading)?;
            joined(alloc, f.try_clone(alloc)?, first, second)
        }
        State::Dead => Ok(State::Dead),
        State::In(..) => Ok(State::Dead),
        State::Closed(_) => Ok(State::Dead),
        State::Unbegun(..) => Ok(State::Dead),
        State::Taken(..) => Ok(State::Dead),
    }
}
