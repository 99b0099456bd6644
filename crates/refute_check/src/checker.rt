//! The checker.

ghost use Rattle.std.specs.Prelude.{◌≡◌, ◌||◌, ◌&&◌, ℕ, ◌+◌, ◌-◌, ◌^◌, min, ◌<◌, ◌≤◌, Bool, true, false, length, is_some, IfOk, IfErr, OnOk};
ghost use Rattle.std.specs.Result.{result_err};
ghost use Rattle.std.specs.Option.{option_copied};
ghost use Rattle.refute_check.specs.Clauses.{all_hold};
ghost use Rattle.refute_check.specs.Entries.{entry, clauses_of, given_of};
ghost use Rattle.refute_check.specs.Storage.{entries_in, AreWithin, AreOver};
ghost use Rattle.refute_check.specs.Refutations.{has_no_literals};
ghost use Rattle.refute_check.specs.Marks.{UpTo};
ghost use Rattle.refute_check.specs.Progress.{begun, with_entry, with_call, refused, refusal_by, fault_in, given_fault, derived_fault, end_fault};

use crate::hints::check_hints;
use crate::marks::{Mark, take_clause_false};
use crate::refusals::{CheckError, CheckKind};
use crate::store::{Stored, store};
use cond_formula::NoMemory;
use std::alloc::Global;
use std::marker::Model;

/// A checker of refutations. It takes the given clauses by `add` and the steps by `line`, in any order, which are
/// numbered together from 1; `finish` asks whether they refute the given clauses. Contracts see how far it has come:
/// what was accepted, how many calls there were, the refusal if there was one, and how much room is left.
#[derive(Drop)]
pub struct Checker {
    vars: u32,
    marks: Vec<Mark>,
    literals: Vec<i32>,
    clauses: Vec<Stored>,
    // whether a step without literals was accepted
    refuted: bool,
    calls: u64,
    refusal: Option<CheckError>,
    spare_clauses: u32,
    spare_literals: u32,
}

impl Model for Checker {
    ghost use Rattle.refute_check.specs.Progress.{Progress};

    ghost Value = { Progress };

    ghost use Rattle.refute_check.specs.CheckerInside.{progress_of, IsChecker};

    ghost view = { progress_of };

    ghost invariant = { IsChecker };
}

impl Checker {
    /// A checker over variables 1 up to `vars`, with room for so many clauses and steps and for so many literals in
    /// them. Only this call takes memory.
    pub fn new(alloc: Global, vars: u32, clauses: u32, literals: u32) -> Result<Checker, NoMemory>
        requires { vars < 2147483648 }
        ensures { IfOk result (λ checker. checker ≡ begun vars clauses literals) }
    {
        let unmarked = Mark {
            number: 0,
            value: false,
        };
        let marks = vec![in alloc; unmarked; vars as usize + 1]?;
        let stored = Vec::with_capacity(alloc, clauses as usize)?;
        let room = Vec::with_capacity(alloc, literals as usize)?;
        Ok(Checker {
            vars,
            marks,
            literals: room,
            clauses: stored,
            refuted: false,
            calls: 0,
            refusal: None,
            spare_clauses: clauses,
            spare_literals: literals,
        })
    }

    /// How many more clauses and steps there is room for.
    pub fn spare_clauses(&self) -> u32
        ensures { result ≡ self.now.spare_clauses }
    {
        self.spare_clauses
    }

    /// How many more literals there is room for.
    pub fn spare_literals(&self) -> u32
        ensures { result ≡ self.now.spare_literals }
    {
        self.spare_literals
    }

    /// Takes a given clause, a list of literals: n is variable number n, and -n its negation.
    pub fn add(&mut self, clause: &[i32]) -> Result<(), CheckError>
        requires clause_room { 1 ≤ self.old.spare_clauses }
        requires literal_room { length clause.now ≤ self.old.spare_literals }
        ensures refusal { result_err result ≡ refusal_by self.old (given_fault self.old clause.now) }
        ensures accepted { OnOk result (self.new ≡ with_entry self.old (entry clause.now false)) }
        ensures refused { IfErr result (λ refusal. self.new ≡ refused self.old refusal) }
    {
        self.check(clause, None)
    }

    /// Takes a step: its clause follows from those before it, as the hints show, which are their numbers.
    pub fn line(&mut self, clause: &[i32], hints: &[u32]) -> Result<(), CheckError>
        requires clause_room { 1 ≤ self.old.spare_clauses }
        requires literal_room { length clause.now ≤ self.old.spare_literals }
        ensures refusal { result_err result ≡ refusal_by self.old (derived_fault self.old clause.now hints.now) }
        ensures accepted { OnOk result (self.new ≡ with_entry self.old (entry clause.now true)) }
        ensures refused { IfErr result (λ refusal. self.new ≡ refused self.old refusal) }
    {
        self.check(clause, Some(hints))
    }

    /// Whether the steps so far refute the given clauses: `Ok` where one of them has no literals.
    pub fn finish(&mut self) -> Result<(), CheckError>
        ensures refusal { result_err result ≡ refusal_by self.old (end_fault self.old) }
        ensures accepted { OnOk result (self.new ≡ with_call self.old) }
        ensures refused { IfErr result (λ refusal. self.new ≡ refused self.old refusal) }
        ensures unsatisfiable { OnOk result
            ((values : ℕ → Bool) → all_hold values (given_of self.old.entries) ≡ false) }
    {
        if let Some(refusal) = self.refusal {
            return Err(refusal);
        }
        let line = next_call(self.calls);
        if !self.refuted {
            return Err(refuse(&mut self.refusal, CheckKind::NoEmptyClause, line));
        }
        self.calls = line;
        Ok(())
    }

    // Takes a given clause, or a step where there are hints.
    fn check(&mut self, clause: &[i32], hints: Option<&[u32]>) -> Result<(), CheckError>
        requires clause_room { 1 ≤ self.old.spare_clauses }
        requires literal_room { length clause.now ≤ self.old.spare_literals }
        ensures refusal { result_err result ≡ refusal_by self.old
            (fault_in self.old.vars (clauses_of self.old.entries) clause.now (option_copied hints.entry)) }
        ensures accepted { OnOk result
            (self.new ≡ with_entry self.old (entry clause.now (is_some (option_copied hints.entry)))) }
        ensures refused { IfErr result (λ refusal. self.new ≡ refused self.old refusal) }
    {
        if let Some(refusal) = self.refusal {
            return Err(refusal);
        }
        let line = next_call(self.calls);
        let number = self.clauses.len() as u32 + 1;
        let fault = find_fault(
            &mut self.marks,
            self.vars,
            number,
            &self.literals,
            &self.clauses,
            clause,
            hints,
        );
        if let Some(kind) = fault {
            return Err(refuse(&mut self.refusal, kind, line));
        }
        let derived = hints.is_some();
        store(&mut self.literals, &mut self.clauses, clause, derived);
        self.refuted = is_refuted_by(self.refuted, derived, clause);
        self.calls = line;
        self.spare_clauses -= 1;
        self.spare_literals -= clause.len() as u32;
        Ok(())
    }
}

// The number of the next call; the count stops at its largest value.
fn next_call(calls: u64) -> u64
    ensures { result ≡ min (calls + 1) (2 ^ 64 - 1) }
{
    calls.saturating_add(1)
}

// Keeps a refusal as the answer for good.
fn refuse(answer: &mut Option<CheckError>, kind: CheckKind, line: u64) -> CheckError
    ensures refusal { result ≡ record { kind = kind; line = line } }
    ensures kept { answer.new ≡ Some result }
{
    let refusal = CheckError { kind, line };
    *answer = Some(refusal);
    refusal
}

fn is_refuted_by(refuted: bool, derived: bool, clause: &[i32]) -> bool
    ensures { result ≡ (refuted || (derived && has_no_literals clause.now)) }
{
    refuted || derived && clause.is_empty()
}

// What is wrong with a clause, or with a step where there are hints.
fn find_fault(
    marks: &mut [Mark],
    vars: u32,
    number: u32,
    literals: &[i32],
    clauses: &[Stored],
    clause: &[i32],
    hints: Option<&[u32]>,
) -> Option<CheckKind>
    requires sized { length marks.old ≡ vars + 1 }
    requires within { AreWithin literals.now clauses.now }
    requires over { AreOver vars literals.now }
    requires positive { 0 < number }
    requires fresh { UpTo (number - 1) marks.old }
    ensures fault { result
        ≡ fault_in vars (clauses_of (entries_in literals.now clauses.now)) clause.now (option_copied hints.entry) }
    ensures numbers { UpTo number marks.new }
{
    if !take_clause_false(marks, vars, number, clause) {
        return Some(CheckKind::Syntax);
    }
    match hints {
        None => None,
        Some(hints) => check_hints(marks, number, literals, clauses, hints).err(),
    }
}
