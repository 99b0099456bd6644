//! One part more in a node.

ghost use Rattle.std.specs.Prelude.{◌≡◌, ℕ, ◌+◌, ◌<◌, ◌≤◌, Bool, true, false, [], ◌∷◌, ◌++◌, length, IsTrue, OnOk, IfSome, IsNone, Some, None};
ghost use Rattle.cond_formula.specs.Conditions.{conditions_of, all_true};
ghost use Rattle.c_tree.specs.Grammar.{row};
ghost use Rattle.grammar_moves.specs.PlainPlaces.{plain_place};
ghost use Rattle.choice_states.specs.Seen.{Seen, nothing_seen, choice_seen, seen_in};
ghost use Rattle.choice_states.specs.Parts.{values, aligned, is_numbered, part_count, parts_fit_within, HasNoNumber, Pushed};

use crate::parts::{certain, nothing, restricted};
use c_tree::Kind;
use choice_trees::{Choice, Item};
use cond_formula::{Formula, NoMemory};
use grammar_moves::{Place, Row};
use std::alloc::Global;

/// How many parts nodes of a kind have whose parts have numbers.
fn numbered_parts(kind: Kind) -> Option<usize>
    ensures some { IfSome result (λ count. (is_numbered kind ≡ true) × (length (row kind) ≡ count)) }
    ensures none { IsNone result → is_numbered kind ≡ false }
{
    match kind {
        Kind::If => Some(6),
        Kind::Else => Some(2),
        Kind::While => Some(5),
        Kind::Do => Some(7),
        Kind::For => Some(8),
        _ => None,
    }
}

/// The number of the part before a place, where parts have numbers.
pub fn number_before(behind: Place) -> Option<usize>
    ensures some { IfSome result (λ number. part_count (plain_place behind) ≡ Some (number + 1)) }
    ensures none { IsNone result → HasNoNumber (part_count (plain_place behind)) }
    ensures few { IfSome result (λ number. number < 8) }
{
    match behind {
        Place::Inside(Row::Of(kind), read) => match numbered_parts(kind) {
            Some(count) if read > 0 && count > 0 => Some(read.min(count) - 1),
            _ => None,
        },
        _ => None,
    }
}

/// Parts of which nothing is there, up to so many.
fn pad(parts: &mut Vec<Choice<Item>>, alloc: Global, count: usize) -> Result<(), NoMemory>
    ensures same { OnOk result ((on : ℕ → Bool) → seen_in on parts.new.items ≡ seen_in on parts.old.items) }
    ensures many { OnOk result (count ≤ length parts.new.items) }
{
    for _ in parts.len()..count {
        parts.push(Choice {
            branches: Vec::new(alloc),
        })?;
    }
    Ok(())
}

/// Alternatives for the part with a number, before those that there are for it.
fn push_numbered(
    parts: &mut Vec<Choice<Item>>,
    alloc: Global,
    number: usize,
    part: Choice<Item>,
) -> Result<(), NoMemory>
    requires { number < 8 }
    ensures elsewhere { OnOk result ((on : ℕ → Bool) → choice_seen on part ≡ None → seen_in on parts.new.items ≡ seen_in on parts.old.items) }
    ensures values { OnOk result ((on : ℕ → Bool) (v : Seen) → choice_seen on part ≡ Some v → IsTrue (aligned number (seen_in on parts.old.items))
        → values (seen_in on parts.new.items) ≡ values (seen_in on parts.old.items) ++ v ∷ []) }
    ensures aligned { OnOk result ((on : ℕ → Bool) (v : Seen) → choice_seen on part ≡ Some v → IsTrue (aligned number (seen_in on parts.old.items))
        → IsTrue (aligned (number + 1) (seen_in on parts.new.items))) }
{
    pad(parts, alloc, number + 1)?;
    let Choice { branches: mut old } = parts.remove(number);
    let Choice { mut branches } = part;
    branches.append(&mut old)?;
    parts.insert(number, Choice { branches })?;
    Ok(())
}

/// One part more, where one of its alternatives holds.
fn push_part(
    parts: &mut Vec<Choice<Item>>,
    alloc: Global,
    behind: Place,
    part: Choice<Item>,
) -> Result<(), NoMemory>
    ensures elsewhere { OnOk result ((on : ℕ → Bool) → choice_seen on part ≡ None → seen_in on parts.new.items ≡ seen_in on parts.old.items) }
    ensures pushed { OnOk result ((on : ℕ → Bool) (v : Seen) → choice_seen on part ≡ Some v
        → IsTrue (parts_fit_within (plain_place behind) (seen_in on parts.old.items))
        → Pushed (plain_place behind) (seen_in on parts.old.items) (seen_in on parts.new.items) v) }
{
    match number_before(behind) {
        Some(number) => push_numbered(parts, alloc, number, part),
        None => {
            parts.push(part)?;
            Ok(())
        }
    }
}

/// One part more where all of these formulas are true and one of its alternatives holds; behind it is this place.
pub fn push(
    parts: &mut Vec<Choice<Item>>,
    alloc: Global,
    here: &[Formula],
    behind: Place,
    part: Choice<Item>,
) -> Result<(), NoMemory>
    ensures elsewhere { OnOk result ((on : ℕ → Bool) → all_true on (conditions_of here.now) ≡ false → seen_in on parts.new.items ≡ seen_in on parts.old.items) }
    ensures nothing { OnOk result ((on : ℕ → Bool) → choice_seen on part ≡ None → seen_in on parts.new.items ≡ seen_in on parts.old.items) }
    ensures pushed { OnOk result ((on : ℕ → Bool) (v : Seen) → IsTrue (all_true on (conditions_of here.now)) → choice_seen on part ≡ Some v
        → IsTrue (parts_fit_within (plain_place behind) (seen_in on parts.old.items))
        → Pushed (plain_place behind) (seen_in on parts.old.items) (seen_in on parts.new.items) v) }
{
    let part = restricted(alloc, here, part)?;
    push_part(parts, alloc, behind, part)?;
    Ok(())
}

/// A part that is left out, where all of these formulas are true; behind it is this place.
pub fn push_nothing(
    parts: &mut Vec<Choice<Item>>,
    alloc: Global,
    here: &[Formula],
    behind: Place,
) -> Result<(), NoMemory>
    ensures elsewhere { OnOk result ((on : ℕ → Bool) → all_true on (conditions_of here.now) ≡ false → seen_in on parts.new.items ≡ seen_in on parts.old.items) }
    ensures pushed { OnOk result ((on : ℕ → Bool) → IsTrue (all_true on (conditions_of here.now))
        → IsTrue (parts_fit_within (plain_place behind) (seen_in on parts.old.items))
        → Pushed (plain_place behind) (seen_in on parts.old.items) (seen_in on parts.new.items) nothing_seen) }
{
    let part = certain(alloc, nothing(alloc))?;
    push(parts, alloc, here, behind, part)?;
    Ok(())
}
