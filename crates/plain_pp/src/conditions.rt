//! The conditions of lines that begin groups and branches (6.10.1).
ghost use Rattle.std.specs.Prelude.{◌≡◌, ℤ, List, map, Option, Some, None, IfOk};
ghost use Rattle.std.specs.Option.{option_map};
ghost use Rattle.c_text.specs.Token.{PlainToken, plain_token};
ghost use Rattle.c_text.specs.Macros;
ghost use Rattle.c_text.specs.Preprocessing as spec;
ghost use Rattle.plain_macros.specs.PlainTables.{table_of};
ghost use Rattle.plain_macros.specs.PlainReplacements.{plain_replacement, outcome};
ghost use Rattle.pp_lines.specs.PlainDirectives.{plain_directive};
ghost use Rattle.unit_files.specs.Refusals.{plain_refusal};
ghost use Rattle.plain_pp.specs.Results.{Decides};
ghost use Rattle.unit_files.specs.Settings.{AreValues};
ghost use Rattle.plain_pp.specs.Values.{number_in};

use crate::defined::{is_defined, tests_replaced};
use crate::errors::{PpError, check, error_of};
use c_text::{Line, Token};
use cond_formula::NoMemory;
use plain_macros::{Replacement, Table, replaced};
use pp_lines::{Directive, Value, directive, evaluate};
use std::alloc::Global;
use unit_files::{
    PpKind, Refusal, behind, earlier, refusal_at, refused, refused_ignored, refused_token,
};

/// What a call of this module answers where nothing else is refused.
fn unless(found: Option<Refusal>, truth: bool) -> Result<bool, PpError>
    ensures { Decides result (spec.unless_fails (option_map plain_refusal found) truth) }
{
    check(found)?;
    Ok(truth)
}

/// The condition of an expression that comes to this.
fn by_value(hash: &Token, found: Option<Refusal>, value: Value) -> Result<bool, PpError>
    ensures { Decides result (spec.by_value (plain_token hash.now) (option_map plain_refusal found) (number_in value)) }
{
    match value {
        Value::Number(number) => Ok(unless(found, number != 0)?),
        Value::Refused => Err(error_of(refusal_at(PpKind::BadExpression, hash))),
    }
}

/// The condition of an expression that is these tokens.
fn of_tokens(
    alloc: Global,
    hash: &Token,
    found: Option<Refusal>,
    tokens: &[Token],
) -> Result<bool, PpError>
    ensures { (value_of : List PlainToken → Option ℤ) → AreValues value_of → Decides result (spec.by_value (plain_token hash.now) (option_map plain_refusal found) (value_of (map plain_token tokens.now))) }
{
    let value = evaluate(alloc, tokens)?;
    by_value(hash, found, value)
}

/// The condition of an expression whose macros are replaced.
fn of_replacement(
    alloc: Global,
    hash: &Token,
    found: Option<Refusal>,
    replacement: Replacement,
) -> Result<bool, PpError>
    ensures { (value_of : List PlainToken → Option ℤ) → AreValues value_of → (replaced : Macros.Replaced) → plain_replacement replacement ≡ outcome replaced → Decides result (spec.by_replaced value_of (plain_token hash.now) (option_map plain_refusal found) replaced) }
{
    match replacement {
        Replacement::Tokens(tokens) => Ok(of_tokens(alloc, hash, found, tokens.as_slice())?),
        Replacement::BadCall(name) => {
            Err(error_of(earlier(found, refusal_at(PpKind::BadCall, &name))))
        }
    }
}

fn references(alloc: Global, tokens: &[Token]) -> Result<Vec<&Token>, NoMemory>
    ensures { IfOk result (λ run. map (λ t. plain_token t.now) run.items ≡ map plain_token tokens.now) }
{
    let mut run = Vec::with_capacity(alloc, tokens.len())?;
    for token in tokens {
        run.push(token)?;
    }
    Ok(run)
}

/// The condition of an expression whose tests are replaced.
fn by_tests(
    alloc: Global,
    table: &Table,
    hash: &Token,
    found: Option<Refusal>,
    tokens: &[Token],
) -> Result<bool, PpError>
    ensures { (value_of : List PlainToken → Option ℤ) → AreValues value_of → Decides result (spec.by_replaced value_of (plain_token hash.now) (option_map plain_refusal found) (Macros.replaced (table_of table.now) (map plain_token tokens.now))) }
{
    let run = references(alloc, tokens)?;
    let replacement = replaced(alloc, table, run.as_slice())?;
    of_replacement(alloc, hash, found, replacement)
}

/// The condition of an `#if` or `#elif` with these tokens.
fn expression(alloc: Global, table: &Table, hash: &Token, tokens: &[Token]) -> Result<bool, PpError>
    ensures { (value_of : List PlainToken → Option ℤ) → AreValues value_of → Decides result (spec.condition_of value_of (table_of table.now) (plain_token hash.now) (map plain_token tokens.now)) }
{
    let found = refused_token(tokens);
    match tests_replaced(alloc, table, tokens)? {
        Some(tested) => Ok(by_tests(alloc, table, hash, found, tested.as_slice())?),
        None => Err(error_of(refusal_at(PpKind::BadExpression, hash))),
    }
}

/// The condition of `#ifdef` or `#ifndef` and a name, where these tokens stand behind the name.
fn defined_condition(
    table: &Table,
    wanted: bool,
    name: &Token,
    ignored: &[Token],
) -> Result<bool, PpError>
    ensures { Decides result (spec.defined_condition (λ tokens. None) (table_of table.now) wanted (plain_token name.now) (map plain_token ignored.now)) }
{
    check(refused(name))?;
    let truth = is_defined(table, name) == wanted;
    Ok(unless(refused_ignored(ignored), truth)?)
}

/// The condition of a line that says this, whose tokens these are.
fn line_condition(
    alloc: Global,
    table: &Table,
    hash: &Token,
    tokens: &[Token],
    directive: Directive,
) -> Result<bool, PpError>
    ensures { (value_of : List PlainToken → Option ℤ) → AreValues value_of → Decides result (spec.line_condition value_of (table_of table.now) (plain_token hash.now) (map plain_token tokens.now) (plain_directive directive)) }
{
    match directive {
        Directive::If(expected) | Directive::Elif(expected) => {
            Ok(expression(alloc, table, hash, expected.as_slice())?)
        }
        Directive::Ifdef(name) => Ok(defined_condition(table, true, &name, behind(tokens, 3))?),
        Directive::Ifndef(name) => Ok(defined_condition(table, false, &name, behind(tokens, 3))?),
        Directive::Else => Ok(unless(refused_ignored(behind(tokens, 2)), true)?),
        _ => Err(error_of(refusal_at(PpKind::BadDirective, hash))),
    }
}

/// The condition of a line that begins a group or a branch.
pub fn condition_at(alloc: Global, table: &Table, line: &Line) -> Result<bool, PpError>
    ensures { (value_of : List PlainToken → Option ℤ) → AreValues value_of → Decides result (spec.condition_at value_of (table_of table.now) (map plain_token line.now.tokens.items)) }
{
    match line.tokens.as_slice() {
        [] => Ok(false),
        tokens @ [hash, ..] => {
            let says = directive(alloc, line)?;
            Ok(line_condition(alloc, table, hash, tokens, says)?)
        }
    }
}
