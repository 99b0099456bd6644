//! Formulas as the controlling expressions of `#if`.

ghost use Rattle.std.specs.Prelude.{◌≡◌, ◌≢◌, ◌++◌, codes, length, map, string_bytes, All, IfOk, IsTrue, OnOk};
ghost use Rattle.c_names.specs.Names.{is_new_name};
ghost use Rattle.cond_formula.specs.Conditions.{condition_of, conditions_of, VarsBelow, AllVarsBelow};
ghost use Rattle.cond_formula.specs.Expressions.{IsSpelling, is_defined, disjunction_text, test_text};
ghost use Rattle.cond_formula.specs.Printed.{operator_text, empty_text, printed, printed_test, parts_text, joined_text, separator_text};

use crate::NoMemory;
use crate::formulas::Formula;
use std::alloc::Global;

impl Formula {
    /// A controlling expression for `#if` that is true where the formula is (ISO/IEC 9899:2011 6.10.1), without the
    /// directive's name and the newline. Feature number i is written as `defined(NAME)` with the i-th name.
    pub fn print_if(&self, alloc: Global, names: &[String]) -> Result<Vec<u8>, NoMemory>
        requires numbered { VarsBelow (length names.now) (condition_of self.now) }
        requires lawful { All (λ name. IsTrue (is_new_name (string_bytes name))) names.now }
        ensures spelling { IfOk result
            (λ text. IsSpelling (map string_bytes names.now) (condition_of self.now) text.items) }
        ensures one_line { IfOk result (λ text. All (λ byte. byte ≢ 10) text.items) }
    {
        let mut text = Vec::new(alloc);
        write_expression(self, names, &mut text)?;
        Ok(text)
    }
}

#[derive(Clone, Copy)]
enum Operator {
    And,
    Or,
}

impl Operator {
    fn text(self) -> &'static [u8]
        ensures { result.now ≡ operator_text self }
    {
        match self {
            Operator::And => b" && ",
            Operator::Or => b" || ",
        }
    }
}

#[tactic(auto, using(crate::specs::ConditionLaws::formula_kinds))]
fn write_expression(formula: &Formula, names: &[String], text: &mut Vec<u8>) -> Result<(), NoMemory>
    requires numbered { VarsBelow (length names.now) (condition_of formula.now) }
    ensures { OnOk result (text.new.items
        ≡ text.old.items ++ disjunction_text (printed (map string_bytes names.now) (condition_of formula.now))) }
{
    match formula {
        Formula::And(parts) => write_parts(parts, Operator::And, names, text)?,
        Formula::Or(parts) => write_parts(parts, Operator::Or, names, text)?,
        Formula::True | Formula::False | Formula::Var(_) | Formula::Not(_) => write_test(
            formula, names, text,
        )?,
    }
    Ok(())
}

#[cycle(print)]
#[tactic(auto, using(crate::specs::ConditionLaws::formula_kinds))]
fn write_test(formula: &Formula, names: &[String], text: &mut Vec<u8>) -> Result<(), NoMemory>
    requires numbered { VarsBelow (length names.now) (condition_of formula.now) }
    ensures { OnOk result (text.new.items
        ≡ text.old.items ++ test_text (printed_test (map string_bytes names.now) (condition_of formula.now))) }
{
    match formula {
        Formula::True => text.push(b'1')?,
        Formula::False => text.push(b'0')?,
        Formula::Var(feature) => write_defined(&names[*feature as usize], text)?,
        Formula::Not(inner) => {
            text.push(b'!')?;
            write_test(inner, names, text)?;
        }
        Formula::And(parts) => write_parenthesized(parts, Operator::And, names, text)?,
        Formula::Or(parts) => write_parenthesized(parts, Operator::Or, names, text)?,
    }
    Ok(())
}

fn write_defined(name: &String, text: &mut Vec<u8>) -> Result<(), NoMemory>
    ensures { OnOk result (text.new.items ≡ text.old.items ++ test_text (is_defined (string_bytes name.now))) }
{
    text.extend_from_slice(b"defined(")?;
    text.extend_from_slice(name.as_bytes())?;
    text.push(b')')?;
    Ok(())
}

#[cycle(print)]
fn write_parenthesized(
    parts: &[Formula],
    operator: Operator,
    names: &[String],
    text: &mut Vec<u8>,
) -> Result<(), NoMemory>
    requires numbered { AllVarsBelow (length names.now) (conditions_of parts.now) }
    ensures { OnOk result (text.new.items
        ≡ text.old.items
        ++ (codes "(" ++ parts_text (map string_bytes names.now) operator (conditions_of parts.now) ++ codes ")")) }
{
    text.push(b'(')?;
    write_parts(parts, operator, names, text)?;
    text.push(b')')?;
    Ok(())
}

#[cycle(print)]
fn write_parts(
    parts: &[Formula],
    operator: Operator,
    names: &[String],
    text: &mut Vec<u8>,
) -> Result<(), NoMemory>
    requires numbered { AllVarsBelow (length names.now) (conditions_of parts.now) }
    ensures { OnOk result (text.new.items
        ≡ text.old.items ++ parts_text (map string_bytes names.now) operator (conditions_of parts.now)) }
{
    if parts.is_empty() {
        write_empty(operator, text)?;
        return Ok(());
    }
    write_joined(parts, operator, names, text)?;
    Ok(())
}

fn write_empty(operator: Operator, text: &mut Vec<u8>) -> Result<(), NoMemory>
    ensures { OnOk result (text.new.items ≡ text.old.items ++ empty_text operator) }
{
    match operator {
        Operator::And => text.push(b'1')?,
        Operator::Or => text.push(b'0')?,
    }
    Ok(())
}

#[cycle(print)]
fn write_joined(
    parts: &[Formula],
    operator: Operator,
    names: &[String],
    text: &mut Vec<u8>,
) -> Result<(), NoMemory>
    requires numbered { AllVarsBelow (length names.now) (conditions_of parts.now) }
    ensures { OnOk result (text.new.items
        ≡ text.old.items ++ joined_text (map string_bytes names.now) operator 0 (conditions_of parts.now)) }
{
    for (index, part) in parts.iter().enumerate() {
        write_separator(operator, index, text)?;
        write_test(part, names, text)?;
    }
    Ok(())
}

// What stands before the part with this index.
fn write_separator(operator: Operator, index: usize, text: &mut Vec<u8>) -> Result<(), NoMemory>
    ensures { OnOk result (text.new.items ≡ text.old.items ++ separator_text operator index) }
{
    if index > 0 {
        text.extend_from_slice(operator.text())?;
    }
    Ok(())
}
