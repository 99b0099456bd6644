//! Runs of tokens between two directive lines, in all configurations.
ghost use Rattle.std.specs.Prelude.{◌≡◌, Bool, List, map, None, OnOk, IfOk, IsTrue};
ghost use Rattle.std.specs.String.{string_bytes};
ghost use Rattle.cond_formula.specs.Features.{has};
ghost use Rattle.cond_formula.specs.Conditions.{condition_of, value};
ghost use Rattle.conditional.specs.Entries.{entries_of};
ghost use Rattle.c_text.specs.Token.{plain_token};
ghost use Rattle.c_text.specs.Macros;
ghost use Rattle.c_text.specs.Preprocessing as spec;
ghost use Rattle.cond_readings.specs.Readings.{reading_at, taken};
ghost use Rattle.cond_groups.specs.Truths.{always_entry};

use c_text::Token;
use cond_formula::{Formula, NoMemory, Oracle};
use cond_macros::{CondReplacement, replaced};
use cond_readings::{CondReading, refuse_in_run};
use conditional::Guarded;
use reduced_conditions::both;
use std::alloc::Global;
use unit_files::Surroundings;

// The tokens as a list in which each is present everywhere.
#[tactic(auto, using(cond_formula::specs::ConditionLaws::formula_kinds))]
fn always<'a>(alloc: Global, run: &[&'a Token]) -> Result<Vec<Guarded<&'a Token>>, NoMemory>
    ensures { IfOk result (λ tokens. entries_of (λ t. plain_token t.now) tokens.items ≡ map (λ t. always_entry (plain_token t.now)) run.now) }
{
    let mut tokens = Vec::with_capacity(alloc, run.len())?;
    for token in run {
        tokens.push(Guarded {
            when: Formula::True,
            what: *token,
        })?;
    }
    Ok(tokens)
}

// Goes on with what replaces a run where a condition holds.
fn emit<O: Oracle>(
    alloc: Global,
    place: &Surroundings<'_>,
    reading: &mut CondReading,
    oracle: &mut O,
    here: &Formula,
    run: &[&Token],
) -> Result<(), NoMemory>
    ensures kept { O.admits oracle.new ≡ O.admits oracle.old }
    ensures read { OnOk result ((c : List Bool) → IsTrue (value (has c) (O.admits oracle.old))
        → reading_at (has c) (map string_bytes place.now.features.now) reading.new ≡ taken (value (has c) (condition_of here.now)) (λ r. spec.emitted r (map (λ t. plain_token t.now) run.now) None (Macros.replaced r.table (map (λ t. plain_token t.now) run.now))) (reading_at (has c) (map string_bytes place.now.features.now) reading.old)) }
{
    let tokens = always(alloc, run)?;
    let macros = reading.macros(place.features);
    let replacement = replaced(alloc, &macros, oracle, here, tokens.as_slice())?;
    let CondReplacement { tokens, refused } = replacement;
    reading.append(alloc, here, tokens)?;
    let refused = both(alloc, here.try_clone(alloc)?, refused)?;
    reading.refuse(alloc, refused)?;
    Ok(())
}

/// Reads the tokens between two directive lines where a condition holds: the unit goes on with what replaces them, or is refused.
pub fn read_run<O: Oracle>(
    alloc: Global,
    place: &Surroundings<'_>,
    reading: &mut CondReading,
    oracle: &mut O,
    here: &Formula,
    run: &[&Token],
) -> Result<(), NoMemory>
    ensures kept { O.admits oracle.new ≡ O.admits oracle.old }
    ensures read { OnOk result ((c : List Bool) → IsTrue (value (has c) (O.admits oracle.old))
        → reading_at (has c) (map string_bytes place.now.features.now) reading.new ≡ taken (value (has c) (condition_of here.now)) (λ r. spec.read_run r (map (λ t. plain_token t.now) run.now)) (reading_at (has c) (map string_bytes place.now.features.now) reading.old)) }
{
    if run.is_empty() {
        return Ok(());
    }
    if reading.is_done(oracle, here) {
        return Ok(());
    }
    if refuse_in_run(run) {
        reading.refuse(alloc, here.try_clone(alloc)?)?;
        return Ok(());
    }
    Ok(emit(alloc, place, reading, oracle, here, run)?)
}
