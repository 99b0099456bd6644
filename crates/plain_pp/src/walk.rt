//! The walk over the lines of one file.
ghost use Rattle.std.specs.Prelude.{◌≡◌, ◌≢◌, ◌<◌, ◌^◌, false, List, [], ◌∷◌, ◌++◌, map, length, Option, Some, None, OnOk, IfOk, IfSome};
ghost use Rattle.c_text.specs.Token.{plain_token};
ghost use Rattle.c_text.specs.Lines.{plain_line};
ghost use Rattle.c_text.specs.Trees.{role_of};
ghost use Rattle.c_text.specs.Macros;
ghost use Rattle.c_text.specs.Preprocessing as spec;
ghost use Rattle.c_text.specs.Preprocessing.{Flow, Setting};
ghost use Rattle.plain_macros.specs.PlainReplacements.{plain_replacement, outcome};
ghost use Rattle.unit_files.specs.Refusals.{plain_refusal};
ghost use Rattle.unit_files.specs.Settings.{AreValues, IsSettingOf, MayEnter};
ghost use Rattle.plain_pp.specs.Readings.{plain_reading, Follows};
ghost use Rattle.file_walks.specs.Walk.{Walk, Open, group_read, branch_read, end_read, by_role, step, text_read, finished};
ghost use Rattle.plain_pp.specs.Groups.{open_at};
ghost use Rattle.file_walks.specs.Nests.{nest_of, nest_behind, behind_role, behind_branch, behind_end, break_at, break_at_end};
ghost use Rattle.plain_pp.specs.Walking.{level_if, plain_walk, Steps, Enters};

use crate::conditions::condition_at;
use crate::directives::read_directive;
use crate::errors::{PpError, check, error_of};
use crate::groups::{Group, Level, OpenGroups};
use crate::readings::Reading;
use c_text::{FileToken, Line, Token};
use cond_formula::NoMemory;
use plain_macros::{Replacement, replaced};
use std::alloc::Global;
use text_edits::Span;
use unit_files::{
    PpKind, Refusal, Role, Source, Surroundings, behind, earlier, refusal_at, refused_ignored,
    refused_in_run, role_of,
};

/// Where a walk over the lines of a file stands.
#[derive(Drop)]
pub struct Walker<'a> {
    /// The tokens since the last directive line.
    run: Vec<&'a Token>,
    groups: OpenGroups,
}

/// Goes on with what replaces a run of tokens.
fn emit(reading: &mut Reading, run: &[&Token], replacement: Replacement) -> Result<(), PpError>
    ensures { (replaced : Macros.Replaced) → plain_replacement replacement ≡ outcome replaced
        → let tokens = map (λ t. plain_token t.now) run.now in
        Follows result (spec.emitted (plain_reading reading.old) tokens (spec.refused_token tokens) replaced) (plain_reading reading.new) }
{
    let found = refused_in_run(run);
    match replacement {
        Replacement::Tokens(tokens) => {
            check(found)?;
            reading.append(tokens)?;
            Ok(())
        }
        Replacement::BadCall(name) => {
            Err(error_of(earlier(found, refusal_at(PpKind::BadCall, &name))))
        }
    }
}

/// The refusal of a line that fits no group.
fn misplaced(file: u32, line: &Line) -> Refusal
    ensures { plain_refusal result ≡ break_at file (plain_line line.now) }
{
    let span = match line.tokens.as_slice() {
        [hash, ..] => hash.origin.span,
        [] => line.span,
    };
    Refusal {
        kind: PpKind::Unbalanced,
        at: FileToken { file, span },
    }
}

/// The refusal of a file of this length that ends in a group.
fn open_at_end(file: u32, length: u32) -> Refusal
    ensures { plain_refusal result ≡ break_at_end file length }
{
    Refusal {
        kind: PpKind::Unbalanced,
        at: FileToken {
            file,
            span: Span {
                start: length,
                end: length,
            },
        },
    }
}

/// What is done with a branch whose condition is this, where none was read before.
fn level_if(truth: bool) -> Level
    ensures { result ≡ level_if truth }
{
    if truth { Level::Reads } else { Level::Waits }
}

impl<'a> Walker<'a> {
    /// The walk stands before the first line.
    pub fn new(alloc: Global) -> Self
        ensures run { result.run.items ≡ [] }
        ensures groups { result.groups ≡ [] }
    {
        Self {
            run: Vec::new(alloc),
            groups: OpenGroups::new(alloc),
        }
    }

    /// Reads the tokens since the last directive line.
    fn flush(&mut self, alloc: Global, reading: &mut Reading) -> Result<(), PpError>
        ensures flow { Follows result (spec.read_run (plain_reading reading.old) (map (λ t. plain_token t.now) self.old.run.items)) (plain_reading reading.new) }
        ensures run { OnOk result (self.new.run.items ≡ []) }
        ensures groups { OnOk result (self.new.groups ≡ self.old.groups) }
    {
        let replacement = replaced(alloc, &reading.table, self.run.as_slice())?;
        let outcome = emit(reading, self.run.as_slice(), replacement);
        self.run.clear();
        outcome
    }

    /// A line that is no directive line.
    fn read_text(&mut self, line: &'a Line) -> Result<(), NoMemory>
        ensures walk { OnOk result ((r : spec.Reading) → plain_walk r self.new ≡ text_read (plain_walk r self.old) (plain_line line.now)) }
        ensures groups { OnOk result (self.new.groups ≡ self.old.groups) }
    {
        if self.groups.are_read() {
            self.add(line.tokens.as_slice())?;
        }
        Ok(())
    }

    fn add(&mut self, tokens: &'a [Token]) -> Result<(), NoMemory>
        ensures run { OnOk result (map (λ t. plain_token t.now) self.new.run.items ≡ map (λ t. plain_token t.now) self.old.run.items ++ map plain_token tokens.now) }
        ensures groups { OnOk result (self.new.groups ≡ self.old.groups) }
    {
        for token in tokens {
            self.run.push(token)?;
        }
        Ok(())
    }

    /// A line that begins a group.
    fn begin_group(&mut self, alloc: Global, reading: &Reading, line: &Line) -> Result<(), PpError>
        ensures moved { OnOk result (nest_of self.new.groups ≡ false ∷ nest_of self.old.groups) }
        ensures step { (s : Setting) → AreValues s.value_of → (next : Walk → Flow)
            → Steps result (group_read s (plain_walk (plain_reading reading.now) self.old) (plain_line line.now) next) (next (plain_walk (plain_reading reading.now) self.new)) }
    {
        if !self.groups.are_read() {
            self.groups.push(Group {
                level: Level::Skipped,
                last: false,
            })?;
            return Ok(());
        }
        let truth = condition_at(alloc, &reading.table, line)?;
        self.groups.push(Group {
            level: level_if(truth),
            last: false,
        })?;
        Ok(())
    }

    /// A line that begins a further branch of the innermost group, which is at this level.
    fn turn(
        &mut self,
        alloc: Global,
        reading: &Reading,
        line: &Line,
        level: Level,
        last: bool,
    ) -> Result<(), PpError>
        ensures moved { (outer : List Open) → self.old.groups ≡ open_at level false ∷ outer → OnOk result (nest_of self.new.groups ≡ last ∷ nest_of outer) }
        ensures step { (s : Setting) → AreValues s.value_of → (outer : List Open) → self.old.groups ≡ open_at level false ∷ outer → (next : Walk → Flow)
            → Steps result (branch_read s (plain_walk (plain_reading reading.now) self.old) (plain_line line.now) last self.old.groups next) (next (plain_walk (plain_reading reading.now) self.new)) }
    {
        match level {
            Level::Reads | Level::Passed => {
                check(refused_ignored(behind(line.tokens.as_slice(), 2)))?;
                self.groups.turn(Group {
                    level: Level::Passed,
                    last,
                })?;
            }
            Level::Waits => {
                let truth = condition_at(alloc, &reading.table, line)?;
                self.groups.turn(Group {
                    level: level_if(truth),
                    last,
                })?;
            }
            Level::Skipped => {
                self.groups.turn(Group {
                    level: Level::Skipped,
                    last,
                })?;
            }
        }
        Ok(())
    }

    /// A line that begins a further branch, behind `#else` or not.
    fn begin_branch(
        &mut self,
        alloc: Global,
        file: u32,
        reading: &Reading,
        line: &Line,
        last: bool,
    ) -> Result<(), PpError>
        ensures moved { OnOk result (behind_branch last (nest_of self.old.groups) ≡ Some (nest_of self.new.groups)) }
        ensures step { (s : Setting) → AreValues s.value_of
            → (behind_branch last (nest_of self.old.groups) ≡ None → s.broken ≡ break_at file (plain_line line.now)) → (next : Walk → Flow)
            → Steps result (branch_read s (plain_walk (plain_reading reading.now) self.old) (plain_line line.now) last self.old.groups next) (next (plain_walk (plain_reading reading.now) self.new)) }
    {
        match self.groups.innermost() {
            Some(Group { level, last: false }) => {
                Ok(self.turn(alloc, reading, line, level, last)?)
            }
            _ => Err(error_of(misplaced(file, line))),
        }
    }

    /// A line that closes a group.
    fn end_group(&mut self, file: u32, line: &Line) -> Result<(), PpError>
        ensures moved { OnOk result (behind_end (nest_of self.old.groups) ≡ Some (nest_of self.new.groups)) }
        ensures step { (s : Setting)
            → (behind_end (nest_of self.old.groups) ≡ None → s.broken ≡ break_at file (plain_line line.now)) → (r : spec.Reading) (next : Walk → Flow)
            → Steps result (end_read s (plain_walk r self.old) (plain_line line.now) self.old.groups next) (next (plain_walk r self.new)) }
    {
        match self.groups.innermost() {
            None => return Err(error_of(misplaced(file, line))),
            Some(
                Group {
                    level: Level::Skipped,
                    ..
                },
            ) => {}
            Some(_) => check(refused_ignored(behind(line.tokens.as_slice(), 2)))?,
        }
        self.groups.pop();
        Ok(())
    }

    /// A directive line, where no tokens wait.
    fn read_role(
        &mut self,
        alloc: Global,
        place: &Surroundings<'_>,
        file: u32,
        reading: &mut Reading,
        line: &Line,
    ) -> Result<Option<Source>, PpError>
        requires { length place.now.headers.now < 2 ^ 32 }
        ensures finds { IfOk result (λ found. IfSome found (λ source. MayEnter place.now source)) }
        ensures moved { OnOk result (behind_role (role_of (plain_line line.now).tokens) (nest_of self.old.groups) ≡ Some (nest_of self.new.groups)) }
        ensures step { (s : Setting) → IsSettingOf place.now s
            → (behind_role (role_of (plain_line line.now).tokens) (nest_of self.old.groups) ≡ None → s.broken ≡ break_at file (plain_line line.now)) → (next : Walk → Flow)
            → Enters result (by_role s (role_of (plain_line line.now).tokens) (plain_walk (plain_reading reading.old) self.old) (plain_line line.now) next) s.deeper (plain_walk (plain_reading reading.new) self.new) next }
    {
        match role_of(line) {
            Role::Begins => self.begin_group(alloc, reading, line)?,
            Role::BeginsBranch => self.begin_branch(alloc, file, reading, line, false)?,
            Role::BeginsLast => self.begin_branch(alloc, file, reading, line, true)?,
            Role::Closes => self.end_group(file, line)?,
            Role::StandsAlone => {
                if self.groups.are_read() {
                    return Ok(read_directive(alloc, place, reading, line)?);
                }
            }
        }
        Ok(None)
    }

    /// Goes on with a line, and answers which file is read before the next one, if any.
    pub fn read_line(
        &mut self,
        alloc: Global,
        place: &Surroundings<'_>,
        file: u32,
        reading: &mut Reading,
        line: &'a Line,
    ) -> Result<Option<Source>, PpError>
        requires { length place.now.headers.now < 2 ^ 32 }
        ensures finds { IfOk result (λ found. IfSome found (λ source. MayEnter place.now source)) }
        ensures moved { OnOk result (nest_behind (nest_of self.old.groups) (plain_line line.now) ≡ Some (nest_of self.new.groups)) }
        ensures step { (s : Setting) → IsSettingOf place.now s
            → (nest_behind (nest_of self.old.groups) (plain_line line.now) ≡ None → s.broken ≡ break_at file (plain_line line.now)) → (next : Walk → Flow)
            → Enters result (step s (plain_walk (plain_reading reading.old) self.old) (plain_line line.now) next) s.deeper (plain_walk (plain_reading reading.new) self.new) next }
    {
        if line.directive {
            self.flush(alloc, reading)?;
            return self.read_role(alloc, place, file, reading, line);
        }
        self.read_text(line)?;
        Ok(None)
    }

    /// The end of a file of this length.
    pub fn finish(
        &mut self,
        alloc: Global,
        file: u32,
        length: u32,
        reading: &mut Reading,
    ) -> Result<(), PpError>
        ensures { (s : Setting) → (nest_of self.old.groups ≢ [] → s.broken ≡ break_at_end file length)
            → Follows result (finished s (plain_walk (plain_reading reading.old) self.old)) (plain_reading reading.new) }
    {
        self.flush(alloc, reading)?;
        match self.groups.innermost() {
            Some(_) => Err(error_of(open_at_end(file, length))),
            None => Ok(()),
        }
    }
}
