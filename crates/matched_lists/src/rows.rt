//! The pairs of places, a row at a time.
ghost use Rattle.std.specs.Prelude.{◌≡◌, ℕ, ◌+◌, ◌≤◌, Bool, List, [], ◌∷◌, length, get_or, Option, option_map, IsTrue, IfOk};
ghost use Rattle.cond_formula.specs.Features.{has};
ghost use Rattle.cond_formula.specs.Conditions.{condition_of, value};
ghost use Rattle.cond_formula.specs.declared.formulas.Formula.{Formula, False};
ghost use Rattle.conditional.specs.Entries.{Entry, listed, seen, first};
ghost use Rattle.matched_lists.specs.Matched.{Rule, matched, there, StartsWith, behind, AreThere, Follows};
ghost use Rattle.matched_lists.specs.Rows.{leaving, places, left_at, LeftAlone, Leads};

use crate::cells::{Moves, meet, refuse_longer};
use crate::matching::{Longer, Matching};
use cond_formula::{Formula, NoMemory, Oracle};
use conditional::{CondList, Guarded, Plain};
use reduced_conditions::either;
use std::alloc::Global;

/// What a row has come to: the conditions that its next place gets from the place before it, and those of the row below, from where both
/// places moved on and at the place itself.
#[derive(Drop)]
struct Onward {
    across: Formula,
    diagonal: Formula,
    below: Formula,
}

/// The condition of a place of the row.
fn condition_at(alloc: Global, row: &[Formula], place: usize) -> Result<Formula, NoMemory>
    ensures { IfOk result (λ f. condition_of f ≡ condition_of (get_or row.now place False)) }
{
    match row.get(place) {
        Some(f) => f.try_clone(alloc),
        None => Ok(Formula::False),
    }
}

/// One place of a row.
fn pass<A, B, R: Plain, M: Matching<A, B, R>, O: Oracle>(
    alloc: Global,
    matching: &M,
    oracle: &mut O,
    x: &Guarded<A>,
    y: &Guarded<B>,
    at: Formula,
    across: Formula,
    diagonal: Formula,
    refusals: &mut CondList<R>,
) -> Result<Onward, NoMemory>
    ensures kept { O.admits oracle.new ≡ O.admits oracle.old }
    ensures leads { IfOk result (λ m. (c : List Bool) (rule : Rule M.First M.Second R.Form) (longer : Longer R) (ps : List M.First) (qs : List M.Second) (v : Option R.Form) (row below : List (Entry (Option R.Form)))
        → IsTrue (value (has c) (O.admits oracle.old)) → Follows R.form (has c) (M.answers matching.now c) longer rule
        → StartsWith (there (has c) x.now) (M.first matching.now c) x.now.what ps → StartsWith (there (has c) y.now) (M.second matching.now c) y.now.what qs
        → Leads (has c) v (seen (has c) (listed R.form refusals.old))
        (leaving across (matched rule ps qs) ∷ leaving diagonal (matched rule (behind (there (has c) x.now) ps) qs) ∷ leaving at (matched rule ps qs) ∷ row) below
        → Leads (has c) v (seen (has c) (listed R.form refusals.new))
        (leaving m.across (matched rule ps (behind (there (has c) y.now) qs))
        ∷ leaving m.diagonal (matched rule (behind (there (has c) x.now) ps) (behind (there (has c) y.now) qs))
        ∷ leaving m.below (matched rule (behind (there (has c) x.now) ps) qs) ∷ row) below) }
{
    let here = either(alloc, at, across)?;
    let Moves {
        first,
        second,
        both,
    } = meet(alloc, matching, oracle, x, y, here, refusals)?;
    let below = either(alloc, diagonal, first)?;
    Ok(Onward {
        across: second,
        diagonal: both,
        below,
    })
}

/// The row below, and what the row refuses.
fn next_row<A, B, R: Plain, M: Matching<A, B, R>, O: Oracle>(
    alloc: Global,
    matching: &M,
    oracle: &mut O,
    longer: &Longer<R>,
    x: &Guarded<A>,
    ys: &[Guarded<B>],
    row: &[Formula],
    refusals: &mut CondList<R>,
) -> Result<Vec<Formula>, NoMemory>
    requires { length row.now ≤ length ys.now + 1 }
    ensures kept { O.admits oracle.new ≡ O.admits oracle.old }
    ensures long { IfOk result (λ below. length below.items ≡ length ys.now + 1) }
    ensures leads { IfOk result (λ below. (c : List Bool) (rule : Rule M.First M.Second R.Form) (ps : List M.First) (qs : List M.Second) (v : Option R.Form)
        → IsTrue (value (has c) (O.admits oracle.old)) → Follows R.form (has c) (M.answers matching.now c) longer.now rule
        → StartsWith (there (has c) x.now) (M.first matching.now c) x.now.what ps → AreThere (has c) (M.second matching.now c) ys.now qs
        → Leads (has c) v (seen (has c) (listed R.form refusals.old)) (places (left_at (has c) rule ps ys.now qs) 0 row.now) []
        → Leads (has c) v (seen (has c) (listed R.form refusals.new)) (places (left_at (has c) rule (behind (there (has c) x.now) ps) ys.now qs) 0 below.items) []) }
{
    let mut below = Vec::new(alloc);
    let mut across = Formula::False;
    let mut diagonal = Formula::False;
    for (place, y) in ys.iter().enumerate() {
        let at = condition_at(alloc, row, place)?;
        let onward = pass(
            alloc, matching, oracle, x, y, at, across, diagonal, refusals,
        )?;
        let Onward {
            across: next,
            diagonal: last,
            below: under,
        } = onward;
        below.push(under)?;
        across = next;
        diagonal = last;
    }
    let at = condition_at(alloc, row, ys.len())?;
    let here = either(alloc, at, across)?;
    refuse_longer(alloc, &here, &x.when, &longer.first, refusals)?;
    below.push(either(alloc, diagonal, here)?)?;
    Ok(below)
}

/// What is refused where the first list has come to its end.
fn refuse_rest<B, R: Plain>(
    alloc: Global,
    why: &Option<R>,
    ys: &[Guarded<B>],
    row: &[Formula],
    refusals: &mut CondList<R>,
) -> Result<(), NoMemory>
    ensures { IfOk result (λ _. (on : ℕ → Bool) (left : ℕ → Option R.Form) (v : Option R.Form) → LeftAlone on (option_map R.form why.now) left 0 ys.now
        → Leads on v (seen on (listed R.form refusals.old)) (places left 0 row.now) [] → first (seen on (listed R.form refusals.new)) ≡ v) }
{
    let mut across = Formula::False;
    for (place, y) in ys.iter().enumerate() {
        let at = condition_at(alloc, row, place)?;
        let here = either(alloc, at, across)?;
        refuse_longer(alloc, &here, &y.when, why, refusals)?;
        across = here;
    }
    Ok(())
}

/// The first refusal of the two lists, entry by entry. The refusals stand in the order in which they come in each configuration.
pub fn match_lists<A, B, R: Plain, M: Matching<A, B, R>, O: Oracle>(
    alloc: Global,
    matching: &M,
    oracle: &mut O,
    longer: &Longer<R>,
    xs: &[Guarded<A>],
    ys: &[Guarded<B>],
) -> Result<CondList<R>, NoMemory>
    ensures kept { O.admits oracle.new ≡ O.admits oracle.old }
    ensures matched { IfOk result (λ refusals. (c : List Bool) (rule : Rule M.First M.Second R.Form) (ps : List M.First) (qs : List M.Second)
        → IsTrue (value (has c) (O.admits oracle.old)) → Follows R.form (has c) (M.answers matching.now c) longer.now rule
        → AreThere (has c) (M.first matching.now c) xs.now ps → AreThere (has c) (M.second matching.now c) ys.now qs
        → first (seen (has c) (listed R.form refusals)) ≡ matched rule ps qs) }
{
    let mut refusals = CondList::empty(alloc);
    let mut row = Vec::new(alloc);
    row.push(Formula::True)?;
    for x in xs {
        row = next_row(alloc, matching, oracle, longer, x, ys, &row, &mut refusals)?;
    }
    refuse_rest(alloc, &longer.second, ys, &row, &mut refusals)?;
    Ok(refusals)
}
