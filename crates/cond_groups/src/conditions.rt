//! The conditions of `#if`, `#elif`, `#ifdef` and `#ifndef` lines in all configurations (6.10.1).
ghost use Rattle.std.specs.Prelude.{◌≡◌, ◌&&◌, ◌||◌, ℕ, ℤ, Bool, not, List, [], ◌∷◌, map, Option, Some, None, is_some, IsTrue, IfOk, OnOk, if◌then◌else◌};
ghost use Rattle.c_text.specs.Token.{PlainToken, plain_token};
ghost use Rattle.c_text.specs.Macros as replacing;
ghost use Rattle.c_text.specs.Preprocessing as spec;
ghost use Rattle.cond_formula.specs.Features.{has};
ghost use Rattle.cond_formula.specs.Conditions.{condition_of, value};
ghost use Rattle.conditional.specs.Entries.{entries_of};
ghost use Rattle.pp_lines.specs.PlainDirectives.{plain_directive};
ghost use Rattle.pp_lines.specs.declared.expressions.Value.{Value};
ghost use Rattle.cond_expressions.specs.Values.{values_at};
ghost use Rattle.cond_tokens.specs.Streams.{plain_entry, tokens_at};
ghost use Rattle.macro_table.specs.Features.{macros_at};
ghost use Rattle.unit_files.specs.Settings.{AreValues};
ghost use Rattle.cond_groups.specs.Truths.{truth_at, came_out, truth_of_value, is_met, is_bad};

use c_text::{Line, Token};
use cond_expressions::evaluate_all;
use cond_formula::{Formula, NoMemory, Oracle};
use cond_macros::replaced;
use cond_readings::{is_refused, refuse, refuse_ignored, tests_replaced};
use cond_tokens::{CondToken, from_list};
use conditional::Guarded;
use macro_table::Macros;
use pp_lines::{Directive, Value, directive};
use reduced_conditions::either;
use std::alloc::Global;
use std::mem;
use unit_files::behind;

/// Where the condition of a line holds, and where the line is refused. Where it is refused the condition means nothing.
#[derive(Drop)]
pub struct CondTruth {
    pub holds: Formula,
    pub refused: Formula,
}

// The line is refused.
#[tactic(auto, using(cond_formula::specs::ConditionLaws::formula_kinds))]
fn refused_line() -> CondTruth
    ensures { (on : ℕ → Bool) → truth_at on result ≡ None }
{
    CondTruth {
        holds: Formula::False,
        refused: Formula::True,
    }
}

// What a line comes to whose condition is this, unless the line is refused.
#[tactic(auto, using(cond_formula::specs::ConditionLaws::formula_kinds))]
fn unless(is_refused: bool, holds: Formula) -> CondTruth
    ensures { (on : ℕ → Bool) → truth_at on result ≡ (if is_refused then None else Some (value on (condition_of holds))) }
{
    if is_refused {
        return refused_line();
    }
    CondTruth {
        holds,
        refused: Formula::False,
    }
}

fn references(alloc: Global, tokens: &[CondToken]) -> Result<Vec<Guarded<&Token>>, NoMemory>
    ensures { IfOk result (λ list. entries_of (λ t. plain_token t.now) list.items ≡ map plain_entry tokens.now) }
{
    let mut list = Vec::with_capacity(alloc, tokens.len())?;
    for entry in tokens {
        list.push(Guarded {
            when: entry.when.try_clone(alloc)?,
            what: &entry.token,
        })?;
    }
    Ok(list)
}

fn is_met(number: Value) -> bool
    ensures { result ≡ is_met number }
{
    match number {
        Value::Number(number) => number != 0,
        Value::Refused => false,
    }
}

fn is_bad(number: Value) -> bool
    ensures { result ≡ is_bad number }
{
    match number {
        Value::Number(_) => false,
        Value::Refused => true,
    }
}

// A condition, or another if that is wanted.
fn or_if(alloc: Global, f: Formula, is_wanted: bool, when: &Formula) -> Result<Formula, NoMemory>
    ensures { IfOk result (λ r. (on : ℕ → Bool) → value on (condition_of r) ≡ (value on (condition_of f) || (value on (condition_of when.now) && is_wanted))) }
{
    if is_wanted {
        let r = either(alloc, f, when.try_clone(alloc)?)?;
        return Ok(r);
    }
    Ok(f)
}

impl CondTruth {
    // One more value, where its condition holds.
    fn take(&mut self, alloc: Global, when: &Formula, number: Value) -> Result<(), NoMemory>
        ensures holds { OnOk result ((on : ℕ → Bool) → value on (condition_of self.new.holds) ≡ (value on (condition_of self.old.holds) || (value on (condition_of when.now) && is_met number))) }
        ensures refused { OnOk result ((on : ℕ → Bool) → value on (condition_of self.new.refused) ≡ (value on (condition_of self.old.refused) || (value on (condition_of when.now) && is_bad number))) }
    {
        let before = mem::replace(&mut self.holds, Formula::False);
        self.holds = or_if(alloc, before, is_met(number), when)?;
        let before = mem::replace(&mut self.refused, Formula::False);
        self.refused = or_if(alloc, before, is_bad(number), when)?;
        Ok(())
    }
}

// What an expression with these values comes to, where it isn't refused already.
#[tactic(auto, using(cond_formula::specs::ConditionLaws::formula_kinds))]
fn truth_of(
    alloc: Global,
    values: &[(Formula, Value)],
    refused: Formula,
) -> Result<CondTruth, NoMemory>
    ensures { IfOk result (λ t. (on : ℕ → Bool) (v : Value) → values_at on values.now ≡ v ∷ [] → truth_at on t ≡ (if value on (condition_of refused) then None else truth_of_value v)) }
{
    let mut truth = CondTruth {
        holds: Formula::False,
        refused,
    };
    for (when, number) in values {
        truth.take(alloc, when, *number)?;
    }
    Ok(truth)
}

// The condition of an expression whose tests are replaced.
fn by_tests<O: Oracle>(
    alloc: Global,
    macros: &Macros<'_>,
    oracle: &mut O,
    within: &Formula,
    tested: &[CondToken],
) -> Result<CondTruth, NoMemory>
    ensures kept { O.admits oracle.new ≡ O.admits oracle.old }
    ensures truth { IfOk result (λ t. (c : List Bool) → IsTrue (value (has c) (O.admits oracle.old)) → IsTrue (value (has c) (condition_of within.now))
        → (value_of : List PlainToken → Option ℤ) → AreValues value_of → (hash : PlainToken)
        → truth_at (has c) t ≡ came_out (spec.by_replaced value_of hash None (replacing.replaced (macros_at (has c) macros.now) (tokens_at (has c) tested.now)))) }
{
    let list = references(alloc, tested)?;
    let replacement = replaced(alloc, macros, oracle, within, list.as_slice())?;
    let tokens = from_list(alloc, replacement.tokens)?;
    let values = evaluate_all(alloc, tokens.as_slice(), oracle)?;
    let truth = truth_of(alloc, values.as_slice(), replacement.refused)?;
    Ok(truth)
}

// The condition of an `#if` or `#elif` with these tokens.
fn expression<O: Oracle>(
    alloc: Global,
    macros: &Macros<'_>,
    oracle: &mut O,
    within: &Formula,
    tokens: &[Token],
) -> Result<CondTruth, NoMemory>
    ensures kept { O.admits oracle.new ≡ O.admits oracle.old }
    ensures truth { IfOk result (λ t. (c : List Bool) → IsTrue (value (has c) (O.admits oracle.old)) → IsTrue (value (has c) (condition_of within.now))
        → (value_of : List PlainToken → Option ℤ) → AreValues value_of → (hash : PlainToken)
        → truth_at (has c) t ≡ came_out (spec.condition_of value_of (macros_at (has c) macros.now) hash (map plain_token tokens.now))) }
{
    if refuse(tokens) {
        return Ok(refused_line());
    }
    match tests_replaced(alloc, macros, tokens)? {
        Some(tested) => Ok(by_tests(alloc, macros, oracle, within, tested.as_slice())?),
        None => Ok(refused_line()),
    }
}

// Where a name stands for something, or where it doesn't.
fn when_wanted(
    alloc: Global,
    macros: &Macros<'_>,
    wanted: bool,
    name: &[u8],
) -> Result<Formula, NoMemory>
    ensures { IfOk result (λ f. (c : List Bool) → value (has c) (condition_of f) ≡ (if wanted then is_some (macros_at (has c) macros.now name.now) else not (is_some (macros_at (has c) macros.now name.now)))) }
{
    let defined = macros.when_defined(alloc, name)?;
    if wanted {
        return Ok(defined);
    }
    let undefined = Formula::not(alloc, defined)?;
    Ok(undefined)
}

// Whether a name refuses its line, or a token behind it.
fn bars_name(name: &Token, ignored: &[Token]) -> bool
    ensures { result ≡ (is_some (spec.by_bad (plain_token name.now) (spec.bad_kind name.now.kind)) || is_some (spec.refused_ignored (map plain_token ignored.now))) }
{
    is_refused(name) || refuse_ignored(ignored)
}

// The condition of `#ifdef` or `#ifndef` and a name, where these tokens stand behind the name.
fn defined_condition(
    alloc: Global,
    macros: &Macros<'_>,
    wanted: bool,
    name: &Token,
    ignored: &[Token],
) -> Result<CondTruth, NoMemory>
    ensures { IfOk result (λ t. (c : List Bool) (value_of : List PlainToken → Option ℤ) → truth_at (has c) t ≡ came_out (spec.defined_condition value_of (macros_at (has c) macros.now) wanted (plain_token name.now) (map plain_token ignored.now))) }
{
    let bad = bars_name(name, ignored);
    let holds = when_wanted(alloc, macros, wanted, name.text.as_slice())?;
    Ok(unless(bad, holds))
}

// The condition of a line that says this, whose tokens these are.
fn line_condition<O: Oracle>(
    alloc: Global,
    macros: &Macros<'_>,
    oracle: &mut O,
    within: &Formula,
    tokens: &[Token],
    says: &Directive,
) -> Result<CondTruth, NoMemory>
    ensures kept { O.admits oracle.new ≡ O.admits oracle.old }
    ensures truth { IfOk result (λ t. (c : List Bool) → IsTrue (value (has c) (O.admits oracle.old)) → IsTrue (value (has c) (condition_of within.now))
        → (value_of : List PlainToken → Option ℤ) → AreValues value_of → (hash : PlainToken)
        → truth_at (has c) t ≡ came_out (spec.line_condition value_of (macros_at (has c) macros.now) hash (map plain_token tokens.now) (plain_directive says.now))) }
{
    match says {
        Directive::If(expected) | Directive::Elif(expected) => {
            Ok(expression(alloc, macros, oracle, within, expected.as_slice())?)
        }
        Directive::Ifdef(name) => {
            Ok(defined_condition(alloc, macros, true, name, behind(tokens, 3))?)
        }
        Directive::Ifndef(name) => {
            Ok(defined_condition(alloc, macros, false, name, behind(tokens, 3))?)
        }
        Directive::Else => {
            let bad = refuse_ignored(behind(tokens, 2));
            Ok(unless(bad, Formula::True))
        }
        _ => Ok(refused_line()),
    }
}

/// The condition of a line that begins a group or a branch, as far as a condition holds.
pub fn condition_at<O: Oracle>(
    alloc: Global,
    macros: &Macros<'_>,
    oracle: &mut O,
    within: &Formula,
    line: &Line,
) -> Result<CondTruth, NoMemory>
    ensures kept { O.admits oracle.new ≡ O.admits oracle.old }
    ensures truth { IfOk result (λ t. (c : List Bool) → IsTrue (value (has c) (O.admits oracle.old)) → IsTrue (value (has c) (condition_of within.now))
        → (value_of : List PlainToken → Option ℤ) → AreValues value_of
        → truth_at (has c) t ≡ came_out (spec.condition_at value_of (macros_at (has c) macros.now) (map plain_token line.now.tokens.items))) }
{
    match line.tokens.as_slice() {
        [] => Ok(unless(false, Formula::False)),
        tokens => {
            let says = directive(alloc, line)?;
            Ok(line_condition(alloc, macros, oracle, within, tokens, &says)?)
        }
    }
}
