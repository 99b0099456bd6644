//! Literals and clauses under the values that are known.

ghost use Rattle.std.specs.Prelude.{◌≡◌, slice_set};
ghost use Rattle.refute_check.specs.Clauses.{variable_of, is_positive};
ghost use Rattle.refute_check.specs.Steps.{value_of, is_false, taken_true, taken_false, all_false};

/// The number of a literal's variable.
pub fn variable_of(literal: i32) -> usize
    ensures { result ≡ variable_of literal }
{
    literal.unsigned_abs() as usize
}

fn is_positive(literal: i32) -> bool
    ensures { result ≡ is_positive literal }
{
    literal >= 0
}

/// The value of a literal, where that of its variable is known.
pub fn value_of(values: &[Option<bool>], literal: i32) -> Option<bool>
    ensures { result ≡ value_of values.now literal }
{
    let known = *values.get(variable_of(literal))?;
    let value = known?;
    Some(if is_positive(literal) { value } else { !value })
}

/// Whether a literal is known to be false.
pub fn is_false_literal(values: &[Option<bool>], literal: i32) -> bool
    ensures { result ≡ is_false (value_of values.now literal) }
{
    match value_of(values, literal) {
        Some(value) => !value,
        None => false,
    }
}

/// Whether all literals of a clause are known to be false.
pub fn are_false(values: &[Option<bool>], clause: &[i32]) -> bool
    ensures { result ≡ all_false values.now clause.now }
{
    for literal in clause {
        if !is_false_literal(values, *literal) {
            return false;
        }
    }
    true
}

fn set_value(values: &mut Vec<Option<bool>>, variable: usize, value: bool)
    ensures { values.new.items ≡ slice_set values.old.items variable (Some value) }
{
    if variable < values.len() {
        values[variable] = Some(value);
    }
}

/// Makes a literal true.
pub fn take_true(values: &mut Vec<Option<bool>>, literal: i32)
    ensures { values.new.items ≡ taken_true values.old.items literal }
{
    set_value(values, variable_of(literal), is_positive(literal));
}

/// Makes a literal false.
pub fn take_false(values: &mut Vec<Option<bool>>, literal: i32)
    ensures { values.new.items ≡ taken_false values.old.items literal }
{
    set_value(values, variable_of(literal), !is_positive(literal));
}
