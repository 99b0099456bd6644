//! The walk over the lines of one file, in all configurations.
ghost use Rattle.std.specs.Prelude.{◌≡◌, ◌<◌, ◌^◌, ◌++◌, ℕ, Bool, false, List, [], ◌∷◌, map, length, is_some, true, ◌||◌, Option, Some, None, OnOk, IfOk, IfSome, IsTrue};
ghost use Rattle.std.specs.String.{string_bytes};
ghost use Rattle.cond_formula.specs.Features.{has};
ghost use Rattle.cond_formula.specs.Conditions.{condition_of, value};
ghost use Rattle.c_text.specs.Token.{plain_token};
ghost use Rattle.c_text.specs.Lines.{plain_line};
ghost use Rattle.c_text.specs.Directives.{directive_of};
ghost use Rattle.c_text.specs.Trees.{role_of};
ghost use Rattle.c_text.specs.Preprocessing.{Flow, Reading, Setting};
ghost use Rattle.active_tokens.specs.Reads.{Following, read_of, reads_of_inclusion};
ghost use Rattle.file_walks.specs.Walk.{Walk, flushed, text_read, group_read, branch_read, end_read, directive_read, by_role, step, finished};
ghost use Rattle.read_walks.specs.WalkReads.{reads_at_flush, reads_of_step};
ghost use Rattle.cond_readings.specs.Readings.{reading_at, unless_refused};
ghost use Rattle.cond_groups.specs.Groups.{groups_of, read_in, branch_read_in, end_read_in, line_read_in};
ghost use Rattle.unit_files.specs.Settings.{IsSettingOf, MayEnter};
ghost use Rattle.cond_pp.specs.Walks.{IsFit, ahead, after_file, reads_ahead, reads_included, reads_named};
ghost use Rattle.cond_pp.specs.Watches.{is_seen, read_where};

use crate::watch::Watch;
use c_text::{Line, Token};
use cond_formula::{Formula, NoMemory, Oracle};
use cond_groups::{OpenGroups, begin_group, next_branch, read_run, refuse_end};
use cond_readings::{CondReading, read_directive};
use read_walks::{reads_are_tested, walks_are_one};
use std::alloc::Global;
use unit_files::{Role, Source, Surroundings, role_of};

/// A file that is read next, and where.
#[derive(Drop)]
pub struct Inclusion {
    pub source: Source,
    pub when: Formula,
}

/// Where a walk over the lines of a file stands.
#[derive(Drop)]
pub struct CondWalker<'a> {
    /// Where the file is read: nowhere, once a line came that fits no group.
    entered: Formula,
    /// The tokens since the last directive line.
    run: Vec<&'a Token>,
    groups: OpenGroups,
}

impl<'a> CondWalker<'a> {
    /// The walk stands before the first line of a file that is read where the condition holds.
    pub fn new(alloc: Global, entered: Formula) -> Self
        ensures entered { result.entered ≡ entered }
        ensures run { result.run.items ≡ [] }
        ensures groups { groups_of result.groups ≡ [] }
    {
        Self {
            entered,
            run: Vec::new(alloc),
            groups: OpenGroups::new(alloc),
        }
    }

    // Where lines are read.
    fn here(&self) -> &Formula
        ensures { condition_of result.now ≡ read_in (condition_of self.now.entered) (groups_of self.now.groups) }
    {
        match self.groups.innermost() {
            Some(group) => &group.reads,
            None => &self.entered,
        }
    }

    // Where the line of a further branch is read.
    fn at_branch(&self) -> &Formula
        ensures { condition_of result.now ≡ branch_read_in (condition_of self.now.entered) (groups_of self.now.groups) }
    {
        match self.groups.innermost() {
            Some(group) if group.last => &group.reads,
            Some(group) => &group.within,
            None => &self.entered,
        }
    }

    // Where a line is read that closes a group.
    fn at_end(&self) -> &Formula
        ensures { condition_of result.now ≡ end_read_in (condition_of self.now.entered) (groups_of self.now.groups) }
    {
        match self.groups.innermost() {
            Some(group) => &group.within,
            None => &self.entered,
        }
    }

    // Where a directive line is read.
    fn at_line(&self, line: &Line) -> &Formula
        ensures { condition_of result.now ≡ line_read_in (role_of (plain_line line.now).tokens) (condition_of self.now.entered) (groups_of self.now.groups) }
    {
        match role_of(line) {
            Role::Begins | Role::StandsAlone => self.here(),
            Role::BeginsBranch | Role::BeginsLast => self.at_branch(),
            Role::Closes => self.at_end(),
        }
    }

    // Looks at the tokens since the last directive line.
    fn look_at_run(
        &self,
        alloc: Global,
        place: &Surroundings<'_>,
        reading: &CondReading,
        watch: &mut Watch<'_>,
    ) -> Result<(), NoMemory>
        ensures sought { watch.new.sought ≡ watch.old.sought }
        ensures found { OnOk result ((c : List Bool) → IsFit (has c) self.now
            → value (has c) (condition_of watch.new.found) ≡ (value (has c) (condition_of watch.old.found)
            || is_seen watch.old (reads_ahead (has c) self.now (λ v. read_of v.reading v.run ∷ []) (reading_at (has c) (map string_bytes place.now.features.now) reading.now)))) }
    {
        let here = self.here();
        watch.look_at_run(alloc, place, reading, here, self.run.as_slice())?;
        Ok(())
    }

    // Looks at a directive line.
    fn look_at_line(
        &self,
        alloc: Global,
        place: &Surroundings<'_>,
        reading: &CondReading,
        line: &Line,
        watch: &mut Watch<'_>,
    ) -> Result<(), NoMemory>
        ensures sought { watch.new.sought ≡ watch.old.sought }
        ensures found { OnOk result ((c : List Bool)
            → value (has c) (condition_of watch.new.found) ≡ (value (has c) (condition_of watch.old.found)
            || is_seen watch.old (read_where (value (has c) (line_read_in (role_of (plain_line line.now).tokens) (condition_of self.now.entered) (groups_of self.now.groups))) (λ r. read_of r (plain_line line.now).tokens ∷ []) (reading_at (has c) (map string_bytes place.now.features.now) reading.now)))) }
    {
        let at = self.at_line(line);
        watch.look(alloc, place, reading, at, line.tokens.as_slice())?;
        Ok(())
    }

    // Reads the tokens since the last directive line.
    fn flush<O: Oracle>(
        &mut self,
        alloc: Global,
        place: &Surroundings<'_>,
        reading: &mut CondReading,
        oracle: &mut O,
    ) -> Result<(), NoMemory>
        ensures kept { O.admits oracle.new ≡ O.admits oracle.old }
        ensures entered { self.new.entered ≡ self.old.entered }
        ensures groups { self.new.groups ≡ self.old.groups }
        ensures run { OnOk result (self.new.run.items ≡ []) }
        ensures step { OnOk result ((c : List Bool) → IsTrue (value (has c) (O.admits oracle.old))
            → IsFit (has c) self.old → (next : Walk → Flow)
            → ahead (has c) self.old (λ v. flushed v next) (reading_at (has c) (map string_bytes place.now.features.now) reading.old)
            ≡ ahead (has c) self.new next (reading_at (has c) (map string_bytes place.now.features.now) reading.new)) }
    {
        let here = self.here().try_clone(alloc)?;
        read_run(alloc, place, reading, oracle, &here, self.run.as_slice())?;
        self.run = Vec::new(alloc);
        Ok(())
    }

    // Goes on with the tokens of a line.
    fn add(&mut self, tokens: &'a [Token]) -> Result<(), NoMemory>
        ensures entered { self.new.entered ≡ self.old.entered }
        ensures groups { self.new.groups ≡ self.old.groups }
        ensures run { OnOk result (map (λ t. plain_token t.now) self.new.run.items ≡ map (λ t. plain_token t.now) self.old.run.items ++ map plain_token tokens.now) }
    {
        for token in tokens {
            self.run.push(token)?;
        }
        Ok(())
    }

    // A line of no directive.
    fn read_text(&mut self, line: &'a Line) -> Result<(), NoMemory>
        ensures fit { (on : ℕ → Bool) → IsFit on self.old → IsFit on self.new }
        ensures step { OnOk result ((on : ℕ → Bool) → IsFit on self.old → (next : Walk → Flow) (r : Option Reading)
            → ahead on self.old (λ v. next (text_read v (plain_line line.now))) r ≡ ahead on self.new next r) }
    {
        self.add(line.tokens.as_slice())?;
        Ok(())
    }

    // A line that fits no group: the file is refused wherever it is read, and is no longer read.
    #[tactic(auto, using(cond_formula::specs::ConditionLaws::formula_kinds))]
    fn break_off(&mut self, alloc: Global, reading: &mut CondReading) -> Result<(), NoMemory>
        ensures run { self.new.run.items ≡ self.old.run.items }
        ensures entered { OnOk result ((on : ℕ → Bool) → value on (condition_of self.new.entered) ≡ false) }
        ensures groups { OnOk result (groups_of self.new.groups ≡ []) }
        ensures refused { OnOk result ((on : ℕ → Bool) (features : List (List ℕ)) → reading_at on features reading.new ≡ unless_refused (value on (condition_of self.old.entered)) (reading_at on features reading.old)) }
    {
        reading.refuse(alloc, self.entered.try_clone(alloc)?)?;
        self.entered = Formula::False;
        self.groups = OpenGroups::new(alloc);
        Ok(())
    }

    // A line that begins a group.
    fn begin_group<O: Oracle>(
        &mut self,
        alloc: Global,
        place: &Surroundings<'_>,
        reading: &mut CondReading,
        oracle: &mut O,
        line: &Line,
    ) -> Result<(), NoMemory>
        requires empty { self.old.run.items ≡ [] }
        ensures kept { O.admits oracle.new ≡ O.admits oracle.old }
        ensures fit { OnOk result ((on : ℕ → Bool) → IsFit on self.old → IsFit on self.new) }
        ensures step { OnOk result ((c : List Bool) (s : Setting) → IsTrue (value (has c) (O.admits oracle.old)) → IsSettingOf place.now s
            → IsFit (has c) self.old → (next : Walk → Flow)
            → ahead (has c) self.old (λ v. group_read s v (plain_line line.now) next) (reading_at (has c) (map string_bytes place.now.features.now) reading.old)
            ≡ ahead (has c) self.new next (reading_at (has c) (map string_bytes place.now.features.now) reading.new)) }
    {
        let group = begin_group(alloc, place, reading, oracle, line, self.here())?;
        self.groups.push(group)?;
        Ok(())
    }

    // A line that begins a further branch, behind `#else` or not.
    fn begin_branch<O: Oracle>(
        &mut self,
        alloc: Global,
        place: &Surroundings<'_>,
        reading: &mut CondReading,
        oracle: &mut O,
        line: &Line,
        last: bool,
    ) -> Result<(), NoMemory>
        requires empty { self.old.run.items ≡ [] }
        ensures kept { O.admits oracle.new ≡ O.admits oracle.old }
        ensures fit { OnOk result ((on : ℕ → Bool) → IsFit on self.old → IsFit on self.new) }
        ensures step { OnOk result ((c : List Bool) (s : Setting) → IsTrue (value (has c) (O.admits oracle.old)) → IsSettingOf place.now s
            → IsFit (has c) self.old → (next : Walk → Flow)
            → ahead (has c) self.old (λ v. branch_read s v (plain_line line.now) last v.groups next) (reading_at (has c) (map string_bytes place.now.features.now) reading.old)
            ≡ ahead (has c) self.new next (reading_at (has c) (map string_bytes place.now.features.now) reading.new)) }
    {
        match self.groups.innermost() {
            Some(group) if !group.last => {
                let group = next_branch(alloc, place, reading, oracle, line, group, last)?;
                self.groups.turn(group)?;
                Ok(())
            }
            _ => Ok(self.break_off(alloc, reading)?),
        }
    }

    // A line that closes a group.
    fn end_group(
        &mut self,
        alloc: Global,
        reading: &mut CondReading,
        line: &Line,
    ) -> Result<(), NoMemory>
        requires empty { self.old.run.items ≡ [] }
        ensures fit { OnOk result ((on : ℕ → Bool) → IsFit on self.old → IsFit on self.new) }
        ensures step { OnOk result ((on : ℕ → Bool) (features : List (List ℕ)) (s : Setting)
            → IsFit on self.old → (next : Walk → Flow)
            → ahead on self.old (λ v. end_read s v (plain_line line.now) v.groups next) (reading_at on features reading.old)
            ≡ ahead on self.new next (reading_at on features reading.new)) }
    {
        match self.groups.innermost() {
            None => Ok(self.break_off(alloc, reading)?),
            Some(group) => {
                refuse_end(alloc, reading, line, group)?;
                self.groups.pop();
                Ok(())
            }
        }
    }

    // A directive line that belongs to no group.
    fn read_alone<O: Oracle>(
        &self,
        alloc: Global,
        place: &Surroundings<'_>,
        reading: &mut CondReading,
        oracle: &mut O,
        line: &Line,
    ) -> Result<Option<Inclusion>, NoMemory>
        requires { length place.now.headers.now < 2 ^ 32 }
        ensures kept { O.admits oracle.new ≡ O.admits oracle.old }
        ensures finds { IfOk result (λ found. IfSome found (λ i. MayEnter place.now i.source)) }
        ensures inside { IfOk result (λ found. IfSome found (λ i. (on : ℕ → Bool) → IsFit on self.now → IsTrue (value on (condition_of i.when)) → IsTrue (value on (condition_of self.now.entered)))) }
        ensures step { IfOk result (λ found. (c : List Bool) (s : Setting) → IsTrue (value (has c) (O.admits oracle.old)) → IsSettingOf place.now s
            → IsFit (has c) self.now → (next : Walk → Flow)
            → ahead (has c) self.now (λ v. directive_read s v (plain_line line.now) next) (reading_at (has c) (map string_bytes place.now.features.now) reading.old)
            ≡ ahead (has c) self.now (λ v. after_file (has c) s.deeper found next v) (reading_at (has c) (map string_bytes place.now.features.now) reading.new)) }
        ensures included { IfOk result (λ found. (c : List Bool) (s : Setting) (f : Following) → IsTrue (value (has c) (O.admits oracle.old)) → IsSettingOf place.now s
            → is_some f.deeper ≡ is_some s.deeper
            → read_where true (λ r. reads_included (has c) f.deeper found r) (reading_at (has c) (map string_bytes place.now.features.now) reading.new)
            ≡ read_where (value (has c) (read_in (condition_of self.now.entered) (groups_of self.now.groups))) (λ r. reads_of_inclusion s f r (directive_of (plain_line line.now).tokens)) (reading_at (has c) (map string_bytes place.now.features.now) reading.old)) }
    {
        let here = self.here();
        if reading.is_done(oracle, here) {
            return Ok(None);
        }
        match read_directive(alloc, place, reading, here, line)? {
            Some(source) => {
                let when = here.try_clone(alloc)?;
                Ok(Some(Inclusion { source, when }))
            }
            None => Ok(None),
        }
    }

    // A directive line, where no tokens wait.
    fn read_role<O: Oracle>(
        &mut self,
        alloc: Global,
        place: &Surroundings<'_>,
        reading: &mut CondReading,
        oracle: &mut O,
        line: &Line,
    ) -> Result<Option<Inclusion>, NoMemory>
        requires headers { length place.now.headers.now < 2 ^ 32 }
        requires empty { self.old.run.items ≡ [] }
        ensures kept { O.admits oracle.new ≡ O.admits oracle.old }
        ensures finds { IfOk result (λ found. IfSome found (λ i. MayEnter place.now i.source)) }
        ensures inside { IfOk result (λ found. IfSome found (λ i. (on : ℕ → Bool) → IsFit on self.old → IsTrue (value on (condition_of i.when)) → IsTrue (value on (condition_of self.new.entered)))) }
        ensures fit { OnOk result ((on : ℕ → Bool) → IsFit on self.old → IsFit on self.new) }
        ensures step { IfOk result (λ found. (c : List Bool) (s : Setting) → IsTrue (value (has c) (O.admits oracle.old)) → IsSettingOf place.now s
            → IsFit (has c) self.old → (next : Walk → Flow)
            → ahead (has c) self.old (λ v. by_role s (role_of (plain_line line.now).tokens) v (plain_line line.now) next) (reading_at (has c) (map string_bytes place.now.features.now) reading.old)
            ≡ ahead (has c) self.new (λ v. after_file (has c) s.deeper found next v) (reading_at (has c) (map string_bytes place.now.features.now) reading.new)) }
        ensures included { IfOk result (λ found. (c : List Bool) (s : Setting) (f : Following) → IsTrue (value (has c) (O.admits oracle.old)) → IsSettingOf place.now s
            → is_some f.deeper ≡ is_some s.deeper
            → read_where true (λ r. reads_included (has c) f.deeper found r) (reading_at (has c) (map string_bytes place.now.features.now) reading.new)
            ≡ read_where (value (has c) (read_in (condition_of self.old.entered) (groups_of self.old.groups))) (λ r. reads_named s f (role_of (plain_line line.now).tokens) r (plain_line line.now).tokens) (reading_at (has c) (map string_bytes place.now.features.now) reading.old)) }
    {
        match role_of(line) {
            Role::Begins => {
                self.begin_group(alloc, place, reading, oracle, line)?;
                Ok(None)
            }
            Role::BeginsBranch => {
                self.begin_branch(alloc, place, reading, oracle, line, false)?;
                Ok(None)
            }
            Role::BeginsLast => {
                self.begin_branch(alloc, place, reading, oracle, line, true)?;
                Ok(None)
            }
            Role::Closes => {
                self.end_group(alloc, reading, line)?;
                Ok(None)
            }
            Role::StandsAlone => Ok(self.read_alone(alloc, place, reading, oracle, line)?),
        }
    }

    /// Goes on with a line, and answers which file is read before the next one, if any.
    pub fn read_line<O: Oracle>(
        &mut self,
        alloc: Global,
        place: &Surroundings<'_>,
        reading: &mut CondReading,
        oracle: &mut O,
        line: &'a Line,
        watch: &mut Watch<'_>,
    ) -> Result<Option<Inclusion>, NoMemory>
        requires { length place.now.headers.now < 2 ^ 32 }
        ensures sought { watch.new.sought ≡ watch.old.sought }
        ensures kept { O.admits oracle.new ≡ O.admits oracle.old }
        ensures finds { IfOk result (λ found. IfSome found (λ i. MayEnter place.now i.source)) }
        ensures inside { IfOk result (λ found. IfSome found (λ i. (on : ℕ → Bool) → IsFit on self.old → IsTrue (value on (condition_of i.when)) → IsTrue (value on (condition_of self.new.entered)))) }
        ensures fit { OnOk result ((on : ℕ → Bool) → IsFit on self.old → IsFit on self.new) }
        ensures step { IfOk result (λ found. (c : List Bool) (s : Setting) → IsTrue (value (has c) (O.admits oracle.old)) → IsSettingOf place.now s
            → IsFit (has c) self.old → (next : Walk → Flow)
            → ahead (has c) self.old (λ v. step s v (plain_line line.now) next) (reading_at (has c) (map string_bytes place.now.features.now) reading.old)
            ≡ ahead (has c) self.new (λ v. after_file (has c) s.deeper found next v) (reading_at (has c) (map string_bytes place.now.features.now) reading.new)) }
        ensures found { IfOk result (λ found. (c : List Bool) (s : Setting) (f : Following) → IsTrue (value (has c) (O.admits oracle.old)) → IsSettingOf place.now s
            → is_some f.deeper ≡ is_some s.deeper → IsFit (has c) self.old
            → (value (has c) (condition_of watch.new.found) || is_seen watch.old (read_where true (λ r. reads_included (has c) f.deeper found r) (reading_at (has c) (map string_bytes place.now.features.now) reading.new)))
            ≡ (value (has c) (condition_of watch.old.found) || is_seen watch.old (reads_ahead (has c) self.old (λ v. reads_of_step s f v (plain_line line.now) (λ after. [])) (reading_at (has c) (map string_bytes place.now.features.now) reading.old)))) }
    {
        walks_are_one();
        reads_are_tested();
        if line.directive {
            self.look_at_run(alloc, place, reading, watch)?;
            self.flush(alloc, place, reading, oracle)?;
            self.look_at_line(alloc, place, reading, line, watch)?;
            return Ok(self.read_role(alloc, place, reading, oracle, line)?);
        }
        self.read_text(line)?;
        Ok(None)
    }

    /// The end of the file.
    pub fn finish<O: Oracle>(
        &mut self,
        alloc: Global,
        place: &Surroundings<'_>,
        reading: &mut CondReading,
        oracle: &mut O,
        watch: &mut Watch<'_>,
    ) -> Result<(), NoMemory>
        ensures sought { watch.new.sought ≡ watch.old.sought }
        ensures kept { O.admits oracle.new ≡ O.admits oracle.old }
        ensures step { OnOk result ((c : List Bool) (s : Setting) → IsTrue (value (has c) (O.admits oracle.old))
            → IsFit (has c) self.old
            → ahead (has c) self.old (λ v. finished s v) (reading_at (has c) (map string_bytes place.now.features.now) reading.old)
            ≡ reading_at (has c) (map string_bytes place.now.features.now) reading.new) }
        ensures found { OnOk result ((c : List Bool) → IsFit (has c) self.old
            → value (has c) (condition_of watch.new.found) ≡ (value (has c) (condition_of watch.old.found)
            || is_seen watch.old (reads_ahead (has c) self.old (λ v. reads_at_flush v (λ after. [])) (reading_at (has c) (map string_bytes place.now.features.now) reading.old)))) }
    {
        self.look_at_run(alloc, place, reading, watch)?;
        self.flush(alloc, place, reading, oracle)?;
        match self.groups.innermost() {
            Some(_) => Ok(reading.refuse(alloc, self.entered.try_clone(alloc)?)?),
            None => Ok(()),
        }
    }
}
