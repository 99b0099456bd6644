//! Lists of one level, and what of them is looked at ahead.
ghost use Rattle.std.specs.Prelude.{◌≡◌, ℕ, List, Bool, false, codes, ◌&&◌, ◌||◌, map, if◌then◌else◌, IsTrue, IfOk};
ghost use Rattle.c_text.specs.Directives.{is_spelled};
ghost use Rattle.c_text.specs.Token.{plain_token};
ghost use Rattle.c_text.specs.Macros as spec;
ghost use Rattle.c_text.specs.Preprocessing.{feature_token};
ghost use Rattle.cond_formula.specs.Features.{has};
ghost use Rattle.cond_formula.specs.Conditions.{condition_of, value};
ghost use Rattle.macro_table.specs.Features.{macros_at};
ghost use Rattle.cond_bodies.specs.CondItems.{item_at, items_at};

use crate::item::Item;
use crate::lookups::meanings_of;
use crate::meanings::when_some;
use c_text::Token;
use cond_formula::{Formula, May, NoMemory, Oracle};
use conditional::Guarded;
use macro_table::Macros;
use reduced_conditions::{both, both_of, either, is_always, is_never, without};
use std::alloc::Global;

/// How a list is replaced.
#[derive(Clone, Copy)]
pub struct Level<'t, 'l> {
    pub alloc: Global,
    pub macros: Macros<'t>,
    /// The token that replaces a feature that is on.
    pub feature: &'t Token,
    /// The names of the macros in whose replacement the list stands.
    pub active: &'l [&'t Token],
    /// How many levels of lists may still stand below.
    pub left: u32,
    /// Where the list is looked at.
    pub within: &'l Formula,
    ghost built_in: { plain_token feature.now ≡ feature_token },
}

/// Whether the item is the name of a macro that is active.
pub fn is_active<'t>(active: &[&'t Token], item: &Item<'t>) -> bool
    ensures { (on : ℕ → Bool) → result ≡ spec.is_named_in (map (λ name. name.now.text.items) active.now) (item_at on item.now).token }
{
    for name in active {
        if item.is_spelled(name.text.as_slice()) {
            return true;
        }
    }
    false
}

/// Where both conditions hold, which stay as they are.
pub fn inner(alloc: Global, within: &Formula, when: &Formula) -> Result<Formula, NoMemory>
    ensures { IfOk result (λ f. (on : ℕ → Bool) → value on (condition_of f) ≡ (value on (condition_of within.now) && value on (condition_of when.now))) }
{
    let f = both_of(alloc, within, when)?;
    Ok(f)
}

/// Whether the condition may hold where a list is looked at.
pub fn may<O: Oracle>(
    alloc: Global,
    oracle: &mut O,
    within: &Formula,
    when: &Formula,
) -> Result<bool, NoMemory>
    ensures kept { O.admits oracle.new ≡ O.admits oracle.old }
    ensures no { IfOk result (λ b. b ≡ false → (c : List Bool) → IsTrue (value (has c) (O.admits oracle.old)) → IsTrue (value (has c) (condition_of within.now)) → value (has c) (condition_of when.now) ≡ false) }
{
    let here = inner(alloc, within, when)?;
    if is_never(&here) {
        return Ok(false);
    }
    Ok(oracle.may(&here) == May::Maybe)
}

// Where an item is the first that is present, and a `(`, too.
fn opened(
    alloc: Global,
    opens: Formula,
    left: &Formula,
    entry: &Guarded<Item<'_>>,
) -> Result<Formula, NoMemory>
    ensures { IfOk result (λ f. (on : ℕ → Bool) → value on (condition_of f) ≡ (value on (condition_of opens) || ((value on (condition_of left.now) && value on (condition_of entry.now.when)) && is_spelled (codes "(") (item_at on entry.now.what).token))) }
{
    if !entry.what.is_spelled(b"(") {
        return Ok(opens);
    }
    let here = inner(alloc, left, &entry.when)?;
    let either = either(alloc, opens, here)?;
    Ok(either)
}

/// Where the next item that is present is a `(`.
pub fn when_opens(alloc: Global, rest: &[Guarded<Item<'_>>]) -> Result<Formula, NoMemory>
    ensures { IfOk result (λ f. (on : ℕ → Bool) → value on (condition_of f) ≡ spec.opens (items_at on rest.now)) }
{
    let mut opens = Formula::False;
    let mut left = Formula::True;
    for entry in rest {
        opens = opened(alloc, opens, &left, entry)?;
        if is_always(&entry.when) {
            return Ok(opens);
        }
        left = without(alloc, left, &entry.when)?;
    }
    Ok(opens)
}

// Where the item is the name of a function-like macro that may still be replaced.
fn when_function(alloc: Global, macros: &Macros<'_>, item: &Item<'_>) -> Result<Formula, NoMemory>
    ensures { IfOk result (λ f. (c : List Bool) → value (has c) (condition_of f) ≡ spec.is_function (spec.meaning_of (macros_at (has c) macros.now) (item_at (has c) item.now))) }
{
    if !item.is_name() {
        return Ok(Formula::False);
    }
    let meanings = meanings_of(alloc, macros, item.token.text.as_slice())?;
    let functions = when_some(alloc, meanings.functions.as_slice())?;
    Ok(functions)
}

// The condition where an item is present, and the other elsewhere.
fn chosen(
    alloc: Global,
    when: &Formula,
    here: Formula,
    elsewhere: Formula,
) -> Result<Formula, NoMemory>
    ensures { IfOk result (λ f. (on : ℕ → Bool) → value on (condition_of f) ≡ (if value on (condition_of when.now) then value on (condition_of here) else value on (condition_of elsewhere))) }
{
    let elsewhere = without(alloc, elsewhere, when)?;
    let here = both(alloc, here, when.try_clone(alloc)?)?;
    let either = either(alloc, here, elsewhere)?;
    Ok(either)
}

/// Where the last item that is present is the name of a function-like macro that may still be replaced.
pub fn when_left_open(
    alloc: Global,
    macros: &Macros<'_>,
    items: &[Guarded<Item<'_>>],
) -> Result<Formula, NoMemory>
    ensures { IfOk result (λ f. (c : List Bool) → value (has c) (condition_of f) ≡ spec.ends_in_function (macros_at (has c) macros.now) (items_at (has c) items.now)) }
{
    let mut left_open = Formula::False;
    for entry in items {
        let function = when_function(alloc, macros, &entry.what)?;
        left_open = chosen(alloc, &entry.when, function, left_open)?;
    }
    Ok(left_open)
}
