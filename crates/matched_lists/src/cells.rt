//! A pair of places: where matching moves on to from it, and what it refuses.
ghost use Rattle.std.specs.Prelude.{◌≡◌, ℕ, Bool, false, not, ◌&&◌, List, ◌∷◌, Option, None, option_map, if◌then◌else◌, IsTrue, IfOk};
ghost use Rattle.cond_formula.specs.Features.{has};
ghost use Rattle.cond_formula.specs.Conditions.{condition_of, value};
ghost use Rattle.conditional.specs.Entries.{Entry, listed, seen, first, or_later};
ghost use Rattle.matched_lists.specs.Matched.{Rule, matched, there, StartsWith, behind, Follows};
ghost use Rattle.matched_lists.specs.Rows.{leaving, Leads, MovesOn};

use crate::matching::{Longer, Matching};
use cond_formula::{Formula, May, NoMemory, Oracle};
use conditional::{CondList, Guarded, Plain};
use reduced_conditions as reduced;
use reduced_conditions::{is_never, without};
use std::alloc::Global;

/// Where the places move on to: behind the entry of the first list alone, behind that of the second, behind both.
#[derive(Drop)]
pub(crate) struct Moves {
    pub(crate) first: Formula,
    pub(crate) second: Formula,
    pub(crate) both: Formula,
}

/// The condition, or one that is written as never true if the oracle knows that it holds in no configuration.
fn possible<O: Oracle>(oracle: &mut O, f: Formula) -> Formula
    ensures kept { O.admits oracle.new ≡ O.admits oracle.old }
    ensures same { (c : List Bool) → IsTrue (value (has c) (O.admits oracle.old)) → value (has c) (condition_of result) ≡ value (has c) (condition_of f) }
{
    if is_never(&f) {
        return f;
    }
    if oracle.may(&f) == May::No {
        return Formula::False;
    }
    f
}

/// Where one entry is there and another isn't.
fn waiting<O: Oracle>(
    alloc: Global,
    oracle: &mut O,
    here: &Formula,
    one: &Formula,
    other: &Formula,
) -> Result<Formula, NoMemory>
    ensures kept { O.admits oracle.new ≡ O.admits oracle.old }
    ensures same { IfOk result (λ f. (c : List Bool) → IsTrue (value (has c) (O.admits oracle.old))
        → value (has c) (condition_of f) ≡ (value (has c) (condition_of here.now) && (value (has c) (condition_of one.now) && not (value (has c) (condition_of other.now))))) }
{
    let alone = without(alloc, one.try_clone(alloc)?, other)?;
    let f = reduced::both(alloc, here.try_clone(alloc)?, alone)?;
    Ok(possible(oracle, f))
}

fn move_on<O: Oracle>(
    alloc: Global,
    oracle: &mut O,
    here: Formula,
    x: &Formula,
    y: &Formula,
) -> Result<Moves, NoMemory>
    ensures kept { O.admits oracle.new ≡ O.admits oracle.old }
    ensures moves { IfOk result (λ m. (c : List Bool) → IsTrue (value (has c) (O.admits oracle.old))
        → MovesOn (value (has c) (condition_of here)) (value (has c) (condition_of x.now)) (value (has c) (condition_of y.now))
        (value (has c) (condition_of m.first)) (value (has c) (condition_of m.second)) (value (has c) (condition_of m.both))) }
{
    if is_never(&here) {
        return Ok(Moves {
            first: Formula::False,
            second: Formula::False,
            both: Formula::False,
        });
    }
    let first = waiting(alloc, oracle, &here, y, x)?;
    let second = waiting(alloc, oracle, &here, x, y)?;
    let rest = without(alloc, here, &first)?;
    let both = possible(oracle, without(alloc, rest, &second)?);
    Ok(Moves {
        first,
        second,
        both,
    })
}

/// What the pair refuses, where both entries are there.
fn refuse_pair<A, B, R: Plain, M: Matching<A, B, R>, O: Oracle>(
    alloc: Global,
    matching: &M,
    oracle: &mut O,
    x: &Guarded<A>,
    y: &Guarded<B>,
    here: &Formula,
    refusals: &mut CondList<R>,
) -> Result<(), NoMemory>
    ensures kept { O.admits oracle.new ≡ O.admits oracle.old }
    ensures pair { IfOk result (λ _. (c : List Bool) (rule : Rule M.First M.Second R.Form) (longer : Longer R) (p : M.First) (q : M.Second) → IsTrue (value (has c) (O.admits oracle.old))
        → Follows R.form (has c) (M.answers matching.now c) longer rule → M.first matching.now c x.now.what p → M.second matching.now c y.now.what q
        → first (seen (has c) (listed R.form refusals.new)) ≡ or_later (first (seen (has c) (listed R.form refusals.old)))
        (if value (has c) (condition_of here.now) && (there (has c) x.now && there (has c) y.now) then rule.pair p q else None)) }
    ensures alone { IfOk result (λ _. (c : List Bool) → IsTrue (value (has c) (O.admits oracle.old))
        → (value (has c) (condition_of here.now) && (there (has c) x.now && there (has c) y.now)) ≡ false
        → first (seen (has c) (listed R.form refusals.new)) ≡ first (seen (has c) (listed R.form refusals.old))) }
{
    if is_never(here) {
        return Ok(());
    }
    let both = reduced::both_of(alloc, &x.when, &y.when)?;
    let together = possible(oracle, reduced::both(alloc, here.try_clone(alloc)?, both)?);
    if is_never(&together) {
        return Ok(());
    }
    let why = matching.refusals(alloc, oracle, &x.what, &y.what)?;
    refusals.append_under(alloc, &together, &why)?;
    Ok(())
}

/// From a pair of places on: what it refuses, and where the places move on to.
pub(crate) fn meet<A, B, R: Plain, M: Matching<A, B, R>, O: Oracle>(
    alloc: Global,
    matching: &M,
    oracle: &mut O,
    x: &Guarded<A>,
    y: &Guarded<B>,
    here: Formula,
    refusals: &mut CondList<R>,
) -> Result<Moves, NoMemory>
    ensures kept { O.admits oracle.new ≡ O.admits oracle.old }
    ensures leads { IfOk result (λ m. (c : List Bool) (rule : Rule M.First M.Second R.Form) (longer : Longer R) (ps : List M.First) (qs : List M.Second) (v : Option R.Form) (row below : List (Entry (Option R.Form)))
        → IsTrue (value (has c) (O.admits oracle.old)) → Follows R.form (has c) (M.answers matching.now c) longer rule
        → StartsWith (there (has c) x.now) (M.first matching.now c) x.now.what ps → StartsWith (there (has c) y.now) (M.second matching.now c) y.now.what qs
        → Leads (has c) v (seen (has c) (listed R.form refusals.old)) (leaving here (matched rule ps qs) ∷ row) below
        → Leads (has c) v (seen (has c) (listed R.form refusals.new))
        (leaving m.first (matched rule (behind (there (has c) x.now) ps) qs) ∷ leaving m.second (matched rule ps (behind (there (has c) y.now) qs))
        ∷ leaving m.both (matched rule (behind (there (has c) x.now) ps) (behind (there (has c) y.now) qs)) ∷ row) below) }
{
    refuse_pair(alloc, matching, oracle, x, y, &here, refusals)?;
    let moves = move_on(alloc, oracle, here, &x.when, &y.when)?;
    Ok(moves)
}

/// A list that is longer than the other is refused where its entry is there.
pub(crate) fn refuse_longer<R: Plain>(
    alloc: Global,
    here: &Formula,
    entry: &Formula,
    why: &Option<R>,
    refusals: &mut CondList<R>,
) -> Result<(), NoMemory>
    ensures { IfOk result (λ _. (on : ℕ → Bool) → first (seen on (listed R.form refusals.new)) ≡ or_later (first (seen on (listed R.form refusals.old)))
        (if value on (condition_of here.now) && value on (condition_of entry.now) then option_map R.form why.now else None)) }
{
    let Some(why) = why else {
        return Ok(());
    };
    let when = reduced::both_of(alloc, here, entry)?;
    refusals.push(when, why.try_clone(alloc)?)?;
    Ok(())
}
