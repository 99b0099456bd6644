//! The bodies of a name's definitions as one list.
ghost use Rattle.std.specs.Prelude.{◌≡◌, ◌≤◌, ◌+◌, ℕ, Bool, true, false, [], ◌∷◌, ◌++◌, length, map, if◌then◌else◌, IfOk, OnOk};
ghost use Rattle.std.specs.List.{flat_map};
ghost use Rattle.std.specs.Option.{option_map};
ghost use Rattle.c_text.specs.Token.{PlainToken, plain_token};
ghost use Rattle.c_text.specs.Macros as spec;
ghost use Rattle.cond_formula.specs.Conditions.{condition_of, value};
ghost use Rattle.conditional.specs.Entries.{entries_of, seen, under};
ghost use Rattle.cond_bodies.specs.Cores.{core, cores};
ghost use Rattle.cond_bodies.specs.CondItems.{item_at, items_at};
ghost use Rattle.cond_bodies.specs.CondMeanings.{PlainFunction, plain_function};
ghost use Rattle.cond_bodies.specs.Slots.{slot_at, slots_at, slot_of, slots_of, part_items, or_items, slot_items};

use crate::item::{Item, copied_sources};
use crate::items::{push, push_under};
use crate::meanings::{Function, when_some};
use crate::part::Part;
use crate::slot::Slot;
use c_text::Token;
use cond_formula::{Formula, NoMemory};
use conditional::Guarded;
use reduced_conditions::{either, is_same};
use std::alloc::Global;

// A place of the list and one of a further body, as one where they are alike.
fn push_pair<'t>(
    alloc: Global,
    all: &mut Vec<Guarded<Slot<'t>>>,
    entry: &Guarded<Slot<'t>>,
    when: &Formula,
    params: &[Vec<u8>],
    token: &'t Token,
) -> Result<(), NoMemory>
    ensures { OnOk result ((on : ℕ → Bool) → (value on (condition_of when.now) ≡ true → value on (condition_of entry.now.when) ≡ false) → slots_at on all.new.items ≡ slots_at on all.old.items ++ (if value on (condition_of when.now) then slot_of (map (λ n. n.items) params.now) (plain_token token.now) ∷ [] else under (value on (condition_of entry.now.when)) (slot_at on entry.now.what ∷ []))) }
{
    if entry.what.fits(params, token) {
        let what = entry.what.shared(alloc, when, token)?;
        let when = either(alloc, entry.when.try_clone(alloc)?, when.try_clone(alloc)?)?;
        all.push(Guarded { when, what })?;
        return Ok(());
    }
    push_slot(alloc, all, &entry.when, entry.what.try_clone(alloc)?)?;
    push_slot(alloc, all, when, Slot::own(alloc, params, token))?;
    Ok(())
}

fn push_slot<'t>(
    alloc: Global,
    all: &mut Vec<Guarded<Slot<'t>>>,
    when: &Formula,
    what: Slot<'t>,
) -> Result<(), NoMemory>
    ensures { OnOk result ((on : ℕ → Bool) → slots_at on all.new.items ≡ slots_at on all.old.items ++ under (value on (condition_of when.now)) (slot_at on what.entry ∷ [])) }
{
    let when = when.try_clone(alloc)?;
    all.push(Guarded { when, what })?;
    Ok(())
}

fn push_pairs<'t>(
    alloc: Global,
    all: &mut Vec<Guarded<Slot<'t>>>,
    slots: &[Guarded<Slot<'t>>],
    when: &Formula,
    params: &[Vec<u8>],
    tokens: &'t [Token],
) -> Result<(), NoMemory>
    requires { length slots.now ≡ length tokens.now }
    ensures { OnOk result ((on : ℕ → Bool) → (value on (condition_of when.now) ≡ true → slots_at on slots.now ≡ []) → slots_at on all.new.items ≡ slots_at on all.old.items ++ (if value on (condition_of when.now) then map (slot_of (map (λ n. n.items) params.now)) (map plain_token tokens.now) else slots_at on slots.now)) }
{
    for (i, entry) in slots.iter().enumerate() {
        push_pair(alloc, all, entry, when, params, &tokens[i])?;
    }
    Ok(())
}

fn push_slots<'t>(
    alloc: Global,
    all: &mut Vec<Guarded<Slot<'t>>>,
    slots: &[Guarded<Slot<'t>>],
) -> Result<(), NoMemory>
    ensures { OnOk result ((on : ℕ → Bool) → slots_at on all.new.items ≡ slots_at on all.old.items ++ slots_at on slots.now) }
{
    for entry in slots {
        push_slot(alloc, all, &entry.when, entry.what.try_clone(alloc)?)?;
    }
    Ok(())
}

fn push_own<'t>(
    alloc: Global,
    all: &mut Vec<Guarded<Slot<'t>>>,
    when: &Formula,
    params: &[Vec<u8>],
    tokens: &'t [Token],
) -> Result<(), NoMemory>
    ensures { OnOk result ((on : ℕ → Bool) → slots_at on all.new.items ≡ slots_at on all.old.items ++ under (value on (condition_of when.now)) (map (slot_of (map (λ n. n.items) params.now)) (map plain_token tokens.now))) }
{
    for token in tokens {
        push_slot(alloc, all, when, Slot::own(alloc, params, token))?;
    }
    Ok(())
}

// How many places at the front are alike.
fn common_front(slots: &[Guarded<Slot<'_>>], params: &[Vec<u8>], tokens: &[Token]) -> usize
    ensures slots { result ≤ length slots.now }
    ensures tokens { result ≤ length tokens.now }
{
    for (i, entry) in slots.iter().enumerate() {
        if i >= tokens.len() || !entry.what.fits(params, &tokens[i]) {
            return i;
        }
    }
    slots.len()
}

// How many places at the end are alike.
fn common_end(slots: &[Guarded<Slot<'_>>], params: &[Vec<u8>], tokens: &[Token]) -> usize
    ensures slots { result ≤ length slots.now }
    ensures tokens { result ≤ length tokens.now }
{
    let (count, length) = (slots.len(), tokens.len());
    for i in 0..count {
        if i >= length {
            return i;
        }
        if !slots[count - 1 - i]
            .what
            .fits(params, &tokens[length - 1 - i])
        {
            return i;
        }
    }
    count
}

// The places of one more body, where its condition holds: it shares those at the front and at the end with the others.
fn joined<'t>(
    alloc: Global,
    slots: &[Guarded<Slot<'t>>],
    when: &Formula,
    function: &Function<'t>,
) -> Result<Vec<Guarded<Slot<'t>>>, NoMemory>
    ensures { IfOk result (λ all. (on : ℕ → Bool) → (value on (condition_of when.now) ≡ true → slots_at on slots.now ≡ []) → slots_at on all.items ≡ (if value on (condition_of when.now) then slots_of (plain_function function.now) else slots_at on slots.now)) }
{
    let params = function.params;
    let front = common_front(slots, params, function.body);
    let (first, rest) = slots.split_at(front);
    let (first_tokens, tokens) = function.body.split_at(front);
    let end = common_end(rest, params, tokens);
    let (middle, last) = rest.split_at(rest.len() - end);
    let (own_tokens, last_tokens) = tokens.split_at(tokens.len() - end);
    let mut all = Vec::with_capacity(alloc, slots.len())?;
    push_pairs(alloc, &mut all, first, when, params, first_tokens)?;
    push_slots(alloc, &mut all, middle)?;
    push_own(alloc, &mut all, when, params, own_tokens)?;
    push_pairs(alloc, &mut all, last, when, params, last_tokens)?;
    Ok(all)
}

// A place that is there whenever some body is, is always there.
fn push_whole<'t>(
    all: &mut Vec<Guarded<Slot<'t>>>,
    some: &Formula,
    entry: Guarded<Slot<'t>>,
) -> Result<(), NoMemory>
    ensures { OnOk result ((on : ℕ → Bool) → value on (condition_of some.now) ≡ true → slots_at on all.new.items ≡ slots_at on all.old.items ++ under (value on (condition_of entry.entry.when)) (slot_at on entry.entry.what ∷ [])) }
{
    let Guarded { when, what } = entry;
    if is_same(&when, some) {
        all.push(Guarded {
            when: Formula::True,
            what,
        })?;
    } else {
        all.push(Guarded { when, what })?;
    }
    Ok(())
}

// The bodies of functions as one list, each where its condition holds.
fn bodies_joined<'t>(
    alloc: Global,
    functions: &[Guarded<Function<'t>>],
) -> Result<Vec<Guarded<Slot<'t>>>, NoMemory>
    ensures { IfOk result (λ slots. (on : ℕ → Bool) (f : PlainFunction) → seen on (entries_of plain_function functions.now) ≡ f ∷ [] → slots_at on slots.items ≡ slots_of f) }
{
    let mut slots = Vec::new(alloc);
    for function in functions {
        slots = joined(alloc, slots.as_slice(), &function.when, &function.what)?;
    }
    Ok(slots)
}

// The places, looked at where the condition holds.
fn wholes<'t>(
    alloc: Global,
    slots: Vec<Guarded<Slot<'t>>>,
    some: &Formula,
) -> Result<Vec<Guarded<Slot<'t>>>, NoMemory>
    ensures { IfOk result (λ whole. (on : ℕ → Bool) → value on (condition_of some.now) ≡ true → slots_at on whole.items ≡ slots_at on slots.entry.items) }
{
    let mut whole = Vec::with_capacity(alloc, slots.len())?;
    for slot in slots {
        push_whole(&mut whole, some, slot)?;
    }
    Ok(whole)
}

// The argument that stands in a place, if one does.
fn argument_of<'a, 't>(
    part: Part,
    arguments: &'a [Vec<Guarded<Item<'t>>>],
) -> Option<&'a Vec<Guarded<Item<'t>>>>
    ensures { (on : ℕ → Bool) (token : PlainToken) → part_items (map (λ a. items_at on a.items) arguments.now) token part ≡ or_items (spec.fresh token ∷ []) (option_map (λ a. items_at on a.now.items) result) }
{
    match part {
        Part::Parameter(number) => {
            if number < arguments.len() {
                return Some(&arguments[number]);
            }
            None
        }
        Part::Token => None,
    }
}

// The item of a place in which no argument stands.
#[tactic(auto, unfolding(crate::specs::Slots::slot_at))]
fn own_item<'t>(alloc: Global, slot: &Slot<'t>) -> Result<Item<'t>, NoMemory>
    ensures { IfOk result (λ item. (on : ℕ → Bool) → core (item_at on item) ≡ core (spec.fresh (slot_at on slot.now).token)) }
{
    let others = copied_sources(alloc, slot.others.as_slice())?;
    Ok(Item::of(slot.token, others))
}

// One more item, where a condition holds.
fn push_own_item<'t>(
    alloc: Global,
    items: &mut Vec<Guarded<Item<'t>>>,
    when: &Formula,
    slot: &Slot<'t>,
) -> Result<(), NoMemory>
    ensures { OnOk result ((on : ℕ → Bool) → cores (items_at on items.new.items) ≡ cores (items_at on items.old.items) ++ under (value on (condition_of when.now)) (core (spec.fresh (slot_at on slot.now).token) ∷ [])) }
{
    let what = own_item(alloc, slot)?;
    push(items, when.try_clone(alloc)?, what)?;
    Ok(())
}

fn push_part<'t>(
    alloc: Global,
    items: &mut Vec<Guarded<Item<'t>>>,
    when: &Formula,
    slot: &Slot<'t>,
    arguments: &[Vec<Guarded<Item<'t>>>],
) -> Result<(), NoMemory>
    ensures { OnOk result ((on : ℕ → Bool) → cores (items_at on items.new.items) ≡ cores (items_at on items.old.items) ++ under (value on (condition_of when.now)) (cores (slot_items (map (λ a. items_at on a.items) arguments.now) (slot_at on slot.now)))) }
{
    match argument_of(slot.part, arguments) {
        Some(argument) => push_under(alloc, items, when, argument.as_slice())?,
        None => push_own_item(alloc, items, when, slot)?,
    }
    Ok(())
}

// The items of the bodies, with the arguments in the places of their parameters.
fn slots_substituted<'t>(
    alloc: Global,
    slots: &[Guarded<Slot<'t>>],
    arguments: &[Vec<Guarded<Item<'t>>>],
) -> Result<Vec<Guarded<Item<'t>>>, NoMemory>
    ensures { IfOk result (λ items. (on : ℕ → Bool) → cores (items_at on items.items) ≡ cores (flat_map (slot_items (map (λ a. items_at on a.items) arguments.now)) (slots_at on slots.now))) }
{
    let mut items = Vec::with_capacity(alloc, slots.len())?;
    for entry in slots {
        push_part(alloc, &mut items, &entry.when, &entry.what, arguments)?;
    }
    Ok(items)
}

/// The bodies of functions as one list of items, with the arguments in the places of the parameters. Where one of the
/// functions alone holds, it is the body of that one, but for sites and places, which calls further out change.
pub fn joined_body<'t>(
    alloc: Global,
    functions: &[Guarded<Function<'t>>],
    arguments: &[Vec<Guarded<Item<'t>>>],
) -> Result<Vec<Guarded<Item<'t>>>, NoMemory>
    ensures { IfOk result (λ items. (on : ℕ → Bool) (f : PlainFunction) → seen on (entries_of plain_function functions.now) ≡ f ∷ [] → cores (items_at on items.items) ≡ cores (spec.substituted f.params (map (λ a. items_at on a.items) arguments.now) f.body)) }
{
    let some = when_some(alloc, functions)?;
    let slots = bodies_joined(alloc, functions)?;
    let slots = wholes(alloc, slots, &some)?;
    let items = slots_substituted(alloc, slots.as_slice(), arguments)?;
    Ok(items)
}
