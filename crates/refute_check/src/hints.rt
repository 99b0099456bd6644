//! The hints of a step.

ghost use Rattle.std.specs.Prelude.{◌≡◌, ◌-◌, ◌<◌, false, length, if◌then◌else◌};
ghost use Rattle.std.specs.Result.{result_err};
ghost use Rattle.refute_check.specs.Clauses.{variable_of};
ghost use Rattle.refute_check.specs.Steps.{Judgement, value_of, is_false, all_false, judged, judgement, clause_at, hint_judgement, hints_fault};
ghost use Rattle.refute_check.specs.Entries.{clauses_of};
ghost use Rattle.refute_check.specs.Storage.{entries_in, AreWithin, AreOver};
ghost use Rattle.refute_check.specs.Marks.{values_at, UpTo};
ghost use Rattle.refute_check.specs.Effects.{HasEffect};

use crate::marks::{Mark, take_true, value_of};
use crate::refusals::CheckKind;
use crate::store::{Stored, clause_with};

/// What following a hint does.
#[derive(Clone, Copy)]
pub enum Effect {
    /// All literals of the hint's clause are false.
    Refutes,
    /// The one literal that has no value, beside false ones, is now true.
    Extends,
    /// The hint names no earlier clause, or one that is neither.
    Fails,
}

/// Follows the hints in their order, from the values that are marked for the clause with this number.
pub fn check_hints(
    marks: &mut [Mark],
    number: u32,
    literals: &[i32],
    clauses: &[Stored],
    hints: &[u32],
) -> Result<(), CheckKind>
    requires stored { AreWithin literals.now clauses.now }
    requires numbered { AreOver (length marks.old - 1) literals.now }
    requires some { 0 < length marks.old }
    ensures fault { result_err result
        ≡ hints_fault (clauses_of (entries_in literals.now clauses.now)) (values_at number marks.old) hints.now }
    ensures numbers { UpTo number marks.old → UpTo number marks.new }
{
    for (index, hint) in hints.iter().enumerate() {
        match follow_hint(marks, number, literals, clauses, *hint) {
            Effect::Extends => {}
            Effect::Refutes => return ended(index + 1 == hints.len()),
            Effect::Fails => return Err(CheckKind::BadHint),
        }
    }
    Err(CheckKind::NotFalse)
}

fn ended(is_last: bool) -> Result<(), CheckKind>
    ensures { result_err result ≡ (if is_last then None else Some CheckKind.BadHint) }
{
    if is_last {
        Ok(())
    } else {
        Err(CheckKind::BadHint)
    }
}

fn follow_hint(
    marks: &mut [Mark],
    number: u32,
    literals: &[i32],
    clauses: &[Stored],
    hint: u32,
) -> Effect
    requires stored { AreWithin literals.now clauses.now }
    requires numbered { AreOver (length marks.old - 1) literals.now }
    requires some { 0 < length marks.old }
    ensures effect { HasEffect
        (hint_judgement (values_at number marks.old) (clause_at (clauses_of (entries_in literals.now clauses.now)) hint))
        result (values_at number marks.old) (values_at number marks.new) }
    ensures numbers { UpTo number marks.old → UpTo number marks.new }
{
    match clause_with(literals, clauses, hint) {
        None => Effect::Fails,
        Some(clause) => follow(marks, number, clause),
    }
}

fn follow(marks: &mut [Mark], number: u32, clause: &[i32]) -> Effect
    requires numbered { AreOver (length marks.old - 1) clause.now }
    requires some { 0 < length marks.old }
    ensures effect { HasEffect (judgement (values_at number marks.old) clause.now)
        result (values_at number marks.old) (values_at number marks.new) }
    ensures numbers { UpTo number marks.old → UpTo number marks.new }
{
    for (index, literal) in clause.iter().enumerate() {
        if !is_false_literal(marks, number, *literal) {
            return extend(marks, number, *literal, &clause[index + 1..]);
        }
    }
    Effect::Refutes
}

// Makes a literal true that has no value, if the other literals are false.
fn extend(marks: &mut [Mark], number: u32, literal: i32, others: &[i32]) -> Effect
    requires not_false { is_false (value_of (values_at number marks.old) literal) ≡ false }
    requires numbered { variable_of literal < length marks.old }
    ensures effect { (rest : Judgement) → HasEffect
        (judged (value_of (values_at number marks.old) literal) literal (all_false (values_at number marks.old) others.now) rest)
        result (values_at number marks.old) (values_at number marks.new) }
    ensures numbers { UpTo number marks.old → UpTo number marks.new }
{
    if value_of(marks, number, literal).is_some() {
        return Effect::Fails;
    }
    if !are_false(marks, number, others) {
        return Effect::Fails;
    }
    take_true(marks, number, literal);
    Effect::Extends
}

fn is_false_literal(marks: &[Mark], number: u32, literal: i32) -> bool
    ensures { result ≡ is_false (value_of (values_at number marks.now) literal) }
{
    match value_of(marks, number, literal) {
        Some(value) => !value,
        None => false,
    }
}

fn are_false(marks: &[Mark], number: u32, clause: &[i32]) -> bool
    ensures { result ≡ all_false (values_at number marks.now) clause.now }
{
    for literal in clause {
        if !is_false_literal(marks, number, *literal) {
            return false;
        }
    }
    true
}
