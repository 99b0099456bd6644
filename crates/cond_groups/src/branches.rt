//! The branches of groups in all configurations.
ghost use Rattle.std.specs.Prelude.{◌≡◌, ◌&&◌, ◌∷◌, ℕ, Bool, false, not, List, map, drop, is_some, IsTrue, IfOk, OnOk};
ghost use Rattle.std.specs.String.{string_bytes};
ghost use Rattle.cond_formula.specs.Features.{has};
ghost use Rattle.cond_formula.specs.Conditions.{Condition, condition_of, value};
ghost use Rattle.c_text.specs.Token.{PlainToken, plain_token};
ghost use Rattle.c_text.specs.Lines.{plain_line};
ghost use Rattle.c_text.specs.Preprocessing as spec;
ghost use Rattle.c_text.specs.Preprocessing.{Setting, Reading, Flow};
ghost use Rattle.file_walks.specs.Walk.{Walk, Open, reads, waits, group_read, branch_read};
ghost use Rattle.cond_readings.specs.Readings.{reading_at, taken, unless_refused};
ghost use Rattle.cond_groups.specs.Groups.{PlainGroup, Fits, AllFit, plain_group, open_at, read_in};
ghost use Rattle.unit_files.specs.Settings.{IsSettingOf};

use crate::conditions::{CondTruth, condition_at};
use crate::groups::CondGroup;
use c_text::Line;
use cond_formula::{Formula, NoMemory, Oracle};
use cond_readings::{CondReading, refuse_ignored};
use reduced_conditions::{both, without};
use std::alloc::Global;
use unit_files::{Surroundings, behind};

// A branch of a group that begins with a line.
#[derive(Clone, Copy)]
struct Branch<'f> {
    // Where the group is read.
    within: &'f Formula,
    // Where the condition of the line is asked: there no branch was read so far.
    asked: &'f Formula,
    // Whether the branch is the one behind `#else`.
    last: bool,
}

impl Branch<'_> {
    // The group whose branch is read where the condition holds, as far as it is asked.
    fn split(&self, alloc: Global, holds: Formula) -> Result<CondGroup, NoMemory>
        ensures within { IfOk result (λ g. condition_of g.within ≡ condition_of self.now.within.now) }
        ensures last { IfOk result (λ g. g.last ≡ self.now.last) }
        ensures reads { IfOk result (λ g. (on : ℕ → Bool) → value on (condition_of g.reads) ≡ (value on (condition_of self.now.asked.now) && value on (condition_of holds))) }
        ensures waits { IfOk result (λ g. (on : ℕ → Bool) → value on (condition_of g.waits) ≡ (value on (condition_of self.now.asked.now) && not (value on (condition_of holds)))) }
    {
        Ok(CondGroup {
            within: self.within.try_clone(alloc)?,
            waits: without(alloc, self.asked.try_clone(alloc)?, &holds)?,
            reads: both(alloc, self.asked.try_clone(alloc)?, holds)?,
            last: self.last,
        })
    }

    // The group whose branch isn't read, and no later one.
    #[tactic(auto, using(cond_formula::specs::ConditionLaws::formula_kinds))]
    fn closed(&self, alloc: Global) -> Result<CondGroup, NoMemory>
        ensures within { IfOk result (λ g. condition_of g.within ≡ condition_of self.now.within.now) }
        ensures last { IfOk result (λ g. g.last ≡ self.now.last) }
        ensures reads { IfOk result (λ g. (on : ℕ → Bool) → value on (condition_of g.reads) ≡ false) }
        ensures waits { IfOk result (λ g. (on : ℕ → Bool) → value on (condition_of g.waits) ≡ false) }
    {
        Ok(CondGroup {
            within: self.within.try_clone(alloc)?,
            reads: Formula::False,
            waits: Formula::False,
            last: self.last,
        })
    }
}

// Begins a branch.
fn begun<O: Oracle>(
    alloc: Global,
    place: &Surroundings<'_>,
    reading: &mut CondReading,
    oracle: &mut O,
    line: &Line,
    branch: &Branch<'_>,
) -> Result<CondGroup, NoMemory>
    ensures kept { O.admits oracle.new ≡ O.admits oracle.old }
    ensures within { IfOk result (λ g. condition_of g.within ≡ condition_of branch.now.within.now) }
    ensures last { IfOk result (λ g. g.last ≡ branch.now.last) }
    ensures elsewhere { IfOk result (λ g. (on : ℕ → Bool) → value on (condition_of branch.now.asked.now) ≡ false → (value on (condition_of g.reads) ≡ false) × (value on (condition_of g.waits) ≡ false)) }
    ensures apart { IfOk result (λ g. (on : ℕ → Bool) → IsTrue (value on (condition_of g.waits)) → value on (condition_of g.reads) ≡ false) }
    ensures step { IfOk result (λ g. (c : List Bool) (s : Setting) → IsTrue (value (has c) (O.admits oracle.old)) → IsSettingOf place.now s
        → (IsTrue (value (has c) (condition_of branch.now.asked.now)) → IsTrue (value (has c) (condition_of branch.now.within.now)))
        → (next : Open → Reading → Flow)
        → taken (value (has c) (condition_of branch.now.asked.now)) (λ r. spec.by_condition s (spec.condition_at s.value_of r.table (map plain_token line.now.tokens.items)) (next (reads branch.now.last) r) (next (waits branch.now.last) r)) (reading_at (has c) (map string_bytes place.now.features.now) reading.old)
        ≡ taken (value (has c) (condition_of branch.now.asked.now)) (λ r. next (open_at (has c) (plain_group g)) r) (reading_at (has c) (map string_bytes place.now.features.now) reading.new)) }
{
    if reading.is_done(oracle, branch.asked) {
        return Ok(branch.closed(alloc)?);
    }
    let macros = reading.macros(place.features);
    let truth = condition_at(alloc, &macros, oracle, branch.asked, line)?;
    let CondTruth { holds, refused } = truth;
    let refused = both(alloc, branch.asked.try_clone(alloc)?, refused)?;
    reading.refuse(alloc, refused)?;
    Ok(branch.split(alloc, holds)?)
}

/// The group that a line begins where a condition holds. In a configuration its first branch is read where the condition of the
/// line holds too, and elsewhere a branch is waited for; the unit is refused where that condition can't be told.
pub fn begin_group<O: Oracle>(
    alloc: Global,
    place: &Surroundings<'_>,
    reading: &mut CondReading,
    oracle: &mut O,
    line: &Line,
    here: &Formula,
) -> Result<CondGroup, NoMemory>
    ensures kept { O.admits oracle.new ≡ O.admits oracle.old }
    ensures fits { IfOk result (λ g. (on : ℕ → Bool) (entered : Condition) (groups : List PlainGroup) → AllFit on entered groups → read_in entered groups ≡ condition_of here.now → AllFit on entered (plain_group g ∷ groups)) }
    ensures step { IfOk result (λ g. (c : List Bool) (s : Setting) → IsTrue (value (has c) (O.admits oracle.old)) → IsSettingOf place.now s
        → (entered : Condition) (groups : List PlainGroup) → AllFit (has c) entered groups → read_in entered groups ≡ condition_of here.now
        → (run : List PlainToken) (next : Walk → Flow)
        → taken (value (has c) entered) (λ r. group_read s (record { reading = r; run = run; groups = map (open_at (has c)) groups }) (plain_line line.now) next) (reading_at (has c) (map string_bytes place.now.features.now) reading.old)
        ≡ taken (value (has c) entered) (λ r. next (record { reading = r; run = run; groups = map (open_at (has c)) (plain_group g ∷ groups) })) (reading_at (has c) (map string_bytes place.now.features.now) reading.new)) }
{
    let branch = Branch {
        within: here,
        asked: here,
        last: false,
    };
    Ok(begun(alloc, place, reading, oracle, line, &branch)?)
}

// What a line refuses that begins a branch of a group, where one before it was read.
fn refuse_passed(
    alloc: Global,
    reading: &mut CondReading,
    line: &Line,
    group: &CondGroup,
) -> Result<(), NoMemory>
    ensures { OnOk result ((on : ℕ → Bool) (features : List (List ℕ)) → reading_at on features reading.new ≡ unless_refused ((value on (condition_of group.now.within) && not (value on (condition_of group.now.waits))) && is_some (spec.refused_ignored (drop 2 (map plain_token line.now.tokens.items)))) (reading_at on features reading.old)) }
{
    if refuse_ignored(behind(line.tokens.as_slice(), 2)) {
        let passed = without(alloc, group.within.try_clone(alloc)?, &group.waits)?;
        reading.refuse(alloc, passed)?;
    }
    Ok(())
}

/// Reads a line that closes a group: the unit is refused where the group is read, if a token of the line behind the directive's
/// name refuses.
pub fn refuse_end(
    alloc: Global,
    reading: &mut CondReading,
    line: &Line,
    group: &CondGroup,
) -> Result<(), NoMemory>
    ensures { OnOk result ((on : ℕ → Bool) (features : List (List ℕ)) → reading_at on features reading.new ≡ unless_refused (value on (condition_of group.now.within) && is_some (spec.refused_ignored (drop 2 (map plain_token line.now.tokens.items)))) (reading_at on features reading.old)) }
{
    if refuse_ignored(behind(line.tokens.as_slice(), 2)) {
        reading.refuse(alloc, group.within.try_clone(alloc)?)?;
    }
    Ok(())
}

/// The next branch of a group, which a line begins, behind `#else` or not. In a configuration it is read where no branch was read
/// so far and the condition of the line holds.
pub fn next_branch<O: Oracle>(
    alloc: Global,
    place: &Surroundings<'_>,
    reading: &mut CondReading,
    oracle: &mut O,
    line: &Line,
    group: &CondGroup,
    last: bool,
) -> Result<CondGroup, NoMemory>
    ensures kept { O.admits oracle.new ≡ O.admits oracle.old }
    ensures fits { IfOk result (λ g. (on : ℕ → Bool) (entered : Condition) → Fits on entered (plain_group group.now) → Fits on entered (plain_group g)) }
    ensures step { IfOk result (λ g. (c : List Bool) (s : Setting) → IsTrue (value (has c) (O.admits oracle.old)) → IsSettingOf place.now s
        → (entered : Condition) → Fits (has c) entered (plain_group group.now) → group.now.last ≡ false
        → (run : List PlainToken) (outer : List Open) (next : Walk → Flow)
        → taken (value (has c) entered) (λ r. branch_read s (record { reading = r; run = run; groups = open_at (has c) (plain_group group.now) ∷ outer }) (plain_line line.now) last (open_at (has c) (plain_group group.now) ∷ outer) next) (reading_at (has c) (map string_bytes place.now.features.now) reading.old)
        ≡ taken (value (has c) entered) (λ r. next (record { reading = r; run = run; groups = open_at (has c) (plain_group g) ∷ outer })) (reading_at (has c) (map string_bytes place.now.features.now) reading.new)) }
{
    refuse_passed(alloc, reading, line, group)?;
    let branch = Branch {
        within: &group.within,
        asked: &group.waits,
        last,
    };
    Ok(begun(alloc, place, reading, oracle, line, &branch)?)
}
