//! The trees of a unit's tokens in all configurations.

ghost use Rattle.std.specs.Prelude.{◌≡◌, ℕ, ◌+◌, ◌<◌, Bool, List, [], ◌∷◌, true, false, IsTrue, IfOk, length};
ghost use Rattle.cond_formula.specs.Features.{has};
ghost use Rattle.cond_formula.specs.Conditions.{condition_of, value};
ghost use Rattle.c_text.specs.Token.{plain_token};
ghost use Rattle.c_tree.specs.Terminals as terminals;
ghost use Rattle.cond_tokens.specs.declared.tokens.CondToken.{CondToken as Entry};
ghost use Rattle.exclusive_forests.specs.Exclusions.{ForestExcludes};
ghost use Rattle.choice_lookahead.specs.Ahead.{next_kind};
ghost use Rattle.choice_states.specs.Seen.{seen_in};
ghost use Rattle.choice_states.specs.Parts.{values};
ghost use Rattle.choice_settling.specs.Steps.{seen_of, stood};
ghost use Rattle.choice_parser.specs.Units.{Nodes, StandsBehind, HasRead, nodes_behind, IsSoFar, Progress, IsEnded, IsLowPart, IsSetApart, IsParsed};

use crate::refusals::buried;
use crate::units::{end_of_text, refused_in, still_in_unit};
use c_tree::{Kind, terminal, what_is_read_is_spelt, what_is_spelt_is_read};
use choice_reading::{Reading, Setting, read};
use choice_settling::{Ahead, settled};
use choice_states::{State, leaves_are_the_tokens, trees_are_read, units_are_seen};
use choice_trees::{Choice, Forest, Item};
use cond_formula::{Formula, NoMemory, Oracle};
use cond_tokens::{CondStream, CondToken};
use exclusive_forests::exclusive;
use forest_heights::too_high;
use grammar_moves::{Category, Place};
use std::alloc::{AllocError, Global};

/// Deeper states aren't followed, since reading and settling call themselves once a level.
const MOST_LEVELS: usize = 512;

/// The trees of a unit in all configurations, and where its tokens have none.
#[derive(Drop)]
pub struct Parsed {
    pub forest: Forest,
    pub refused: Formula,
}

/// What has been read of a unit: its items, where one stands, and where no unit begins so.
#[derive(Drop)]
struct SoFar {
    items: Vec<Choice<Item>>,
    state: State,
    refused: Formula,
}

/// Reads the first of the tokens ahead, or the end of the text, where it is there.
fn read_next<O: Oracle>(
    state: State,
    parts: &mut Vec<Choice<Item>>,
    ahead: Ahead,
    reading: Reading,
    oracle: &mut O,
) -> Result<State, NoMemory>
    ensures kept { O.admits oracle.new ≡ O.admits oracle.old }
    ensures there { IfOk result (λ new. (c : List Bool) (nodes : Nodes) → IsTrue (value (has c) (O.admits oracle.old)) → IsTrue (value (has c) (condition_of reading.entry.token.now.when))
        → next_kind (has c) ahead.entry.tokens.now ≡ reading.entry.terminal → StandsBehind (has c) ahead.entry.tokens.now nodes (stood state parts.old.items (has c))
        → HasRead nodes reading.entry.terminal (seen_of reading.entry.number reading.entry.token.now) (stood new parts.new.items (has c))) }
    ensures absent { IfOk result (λ new. (c : List Bool) (nodes : Nodes) → IsTrue (value (has c) (O.admits oracle.old)) → value (has c) (condition_of reading.entry.token.now.when) ≡ false
        → StandsBehind (has c) ahead.entry.tokens.now nodes (stood state parts.old.items (has c))
        → StandsBehind (has c) ahead.entry.tokens.now nodes (stood new parts.new.items (has c))) }
{
    let path = Vec::new(ahead.alloc);
    let state = settled(state, parts, None, &path, &path, ahead)?;
    let setting = Setting {
        outer: None,
        path: &path,
        here: &path,
    };
    read(state, parts, setting, reading, oracle)
}

/// Whether some alternative lies deeper than so many levels, of nodes within each other or of alternatives.
fn is_deeper(state: &State, levels: usize) -> bool {
    match state {
        State::In(_, _, rest) => levels == 0 || is_deeper(rest, levels - 1),
        State::Split(_, first, second) => {
            levels == 0 || is_deeper(first, levels - 1) || is_deeper(second, levels - 1)
        }
        _ => false,
    }
}

/// Reads the first of the tokens ahead.
fn read_first<O: Oracle>(
    state: State,
    parts: &mut Vec<Choice<Item>>,
    ahead: Ahead,
    reading: Reading,
    refused: &mut Formula,
    oracle: &mut O,
) -> Result<State, NoMemory>
    ensures kept { O.admits oracle.new ≡ O.admits oracle.old }
    ensures so_far { IfOk result (λ new. (c : List Bool) (nodes : Nodes) (rest : List Entry) → IsTrue (value (has c) (O.admits oracle.old))
        → ahead.entry.tokens.now ≡ reading.entry.token.now ∷ rest → terminals.terminal (plain_token reading.entry.token.now.token) ≡ reading.entry.terminal
        → IsSoFar (has c) reading.entry.number (reading.entry.token.now ∷ rest) nodes (value (has c) (condition_of refused.old)) (stood state parts.old.items (has c))
        → IsSoFar (has c) (reading.entry.number + 1) rest (nodes_behind (has c) reading.entry.number reading.entry.token.now nodes) (value (has c) (condition_of refused.new)) (stood new parts.new.items (has c))) }
{
    let alloc = ahead.alloc;
    if is_deeper(&state, MOST_LEVELS) {
        return Err(AllocError);
    }
    let state = read_next(state, parts, ahead, reading, oracle)?;
    let state = still_in_unit(alloc, state)?;
    let path = Vec::new(alloc);
    let state = buried(alloc, state, &path, refused)?;
    Ok(state)
}

/// Reads all tokens of a unit.
fn read_tokens<O: Oracle>(
    alloc: Global,
    tokens: &[CondToken],
    oracle: &mut O,
) -> Result<SoFar, NoMemory>
    requires { length tokens.now < 4294967295 }
    ensures kept { O.admits oracle.new ≡ O.admits oracle.old }
    ensures read { IfOk result (λ so_far. (c : List Bool) → IsTrue (value (has c) (O.admits oracle.old))
        → Progress (has c) tokens.now (length tokens.now) (value (has c) (condition_of so_far.refused)) (stood so_far.state so_far.items.items (has c))) }
{
    let mut items = Vec::new(alloc);
    let mut state = State::At(Place::InList(Kind::Unit, Category::FileItem), true);
    let mut refused = Formula::False;
    for (i, token) in tokens.iter().enumerate() {
        let ahead = Ahead {
            alloc,
            tokens: &tokens[i..],
            when: &token.when,
        };
        let reading = Reading {
            alloc,
            token,
            number: i as u32,
            terminal: terminal(&token.token),
        };
        state = read_first(state, &mut items, ahead, reading, &mut refused, oracle)?;
    }
    Ok(SoFar {
        items,
        state,
        refused,
    })
}

/// Reads the end of the text.
fn read_end<O: Oracle>(alloc: Global, so_far: SoFar, oracle: &mut O) -> Result<Parsed, NoMemory>
    ensures kept { O.admits oracle.new ≡ O.admits oracle.old }
    ensures ended { IfOk result (λ parsed. (c : List Bool) (nodes : Nodes) → IsTrue (value (has c) (O.admits oracle.old))
        → IsSoFar (has c) 0 [] nodes (value (has c) (condition_of so_far.refused)) (stood so_far.state so_far.items.items (has c))
        → IsEnded nodes (value (has c) (condition_of parsed.refused)) (values (seen_in (has c) parsed.forest.items.items))) }
{
    let SoFar {
        mut items,
        state,
        refused,
    } = so_far;
    let end = end_of_text(alloc);
    let ahead = Ahead {
        alloc,
        tokens: &[],
        when: &end.when,
    };
    let reading = Reading {
        alloc,
        token: &end,
        number: 0,
        terminal: terminal(&end.token),
    };
    let state = read_next(state, &mut items, ahead, reading, oracle)?;
    let path = Vec::new(alloc);
    let refused = refused_in(alloc, &state, &path, refused)?;
    Ok(Parsed {
        forest: Forest { items },
        refused,
    })
}

/// What is too high is refused.
fn low_enough(alloc: Global, parsed: Parsed) -> Result<Parsed, NoMemory>
    ensures { IfOk result (IsLowPart parsed) }
{
    let Parsed { forest, refused } = parsed;
    let high = too_high(alloc, &forest)?;
    let refused = Formula::or(alloc, refused, high)?;
    Ok(Parsed { forest, refused })
}

/// The alternatives for each part exclude each other.
fn set_apart(alloc: Global, parsed: Parsed) -> Result<Parsed, NoMemory>
    ensures { IfOk result (IsSetApart parsed) }
{
    let Parsed { forest, refused } = parsed;
    let forest = exclusive(alloc, forest)?;
    Ok(Parsed { forest, refused })
}

/// The trees of the tokens of a unit in all configurations. A configuration is refused where its tokens are those of no unit, or of one that is
/// more than 512 high.
pub fn parse_all<O: Oracle>(
    alloc: Global,
    stream: &CondStream,
    oracle: &mut O,
) -> Result<Parsed, NoMemory>
    requires { length stream.now.tokens.items < 4294967295 }
    ensures kept { O.admits oracle.new ≡ O.admits oracle.old }
    ensures parsed { IfOk result (λ parsed. (c : List Bool) → IsTrue (value (has c) (O.admits oracle.old))
        → IsParsed (has c) stream.now.tokens.items (value (has c) (condition_of parsed.refused)) parsed.forest) }
    ensures exclude { IfOk result (λ parsed. (on : ℕ → Bool) → ForestExcludes on parsed.forest) }
{
    what_is_read_is_spelt();
    what_is_spelt_is_read();
    trees_are_read();
    leaves_are_the_tokens();
    units_are_seen();
    let so_far = read_tokens(alloc, &stream.tokens, oracle)?;
    let parsed = read_end(alloc, so_far, oracle)?;
    let low = low_enough(alloc, parsed)?;
    let apart = set_apart(alloc, low)?;
    Ok(apart)
}
