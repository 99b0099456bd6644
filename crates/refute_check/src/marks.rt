//! The values of the variables while one clause is checked.

ghost use Rattle.std.specs.Prelude.{◌≡◌, ◌+◌, ◌<◌, ◌&&◌, length, slice_set, is_none, if◌then◌else◌};
ghost use Rattle.refute_check.specs.Clauses.{variable_of, is_positive, is_literal};
ghost use Rattle.refute_check.specs.Steps.{value_of, taken_true, taken_false};
ghost use Rattle.refute_check.specs.Marks.{values_at, UpTo, taken};

/// The value that a variable has while the clause with this number is checked. While a clause with another number is
/// checked it has none, so that no mark has to be cleared.
#[derive(Clone, Copy)]
pub struct Mark {
    pub number: u32,
    pub value: bool,
}

fn variable_of(literal: i32) -> usize
    ensures { result ≡ variable_of literal }
{
    literal.unsigned_abs() as usize
}

fn is_positive(literal: i32) -> bool
    ensures { result ≡ is_positive literal }
{
    literal >= 0
}

/// The value of a literal while the clause with this number is checked.
pub fn value_of(marks: &[Mark], number: u32, literal: i32) -> Option<bool>
    ensures { result ≡ value_of (values_at number marks.now) literal }
{
    let mark = marks.get(variable_of(literal))?;
    if mark.number != number {
        return None;
    }
    Some(if is_positive(literal) {
        mark.value
    } else {
        !mark.value
    })
}

fn set_value(marks: &mut [Mark], number: u32, variable: usize, value: bool)
    requires { variable < length marks.old }
    ensures values { values_at number marks.new ≡ slice_set (values_at number marks.old) variable (Some value) }
    ensures numbers { UpTo number marks.old → UpTo number marks.new }
{
    marks[variable] = Mark { number, value };
}

/// Makes a literal true while the clause with this number is checked.
pub fn take_true(marks: &mut [Mark], number: u32, literal: i32)
    requires { variable_of literal < length marks.old }
    ensures values { values_at number marks.new ≡ taken_true (values_at number marks.old) literal }
    ensures numbers { UpTo number marks.old → UpTo number marks.new }
{
    set_value(marks, number, variable_of(literal), is_positive(literal));
}

fn take_false(marks: &mut [Mark], number: u32, literal: i32)
    requires { variable_of literal < length marks.old }
    ensures values { values_at number marks.new ≡ taken_false (values_at number marks.old) literal }
    ensures numbers { UpTo number marks.old → UpTo number marks.new }
{
    set_value(marks, number, variable_of(literal), !is_positive(literal));
}

/// Makes the literals of a clause false, and answers whether each is a literal whose variable had no value.
pub fn take_clause_false(marks: &mut [Mark], vars: u32, number: u32, clause: &[i32]) -> bool
    requires { length marks.old ≡ vars + 1 }
    ensures values { taken vars (values_at number marks.old) clause.now
        ≡ (if result then Some (values_at number marks.new) else None) }
    ensures numbers { UpTo number marks.old → UpTo number marks.new }
{
    for literal in clause {
        if !is_open_literal(marks, vars, number, *literal) {
            return false;
        }
        take_false(marks, number, *literal);
    }
    true
}

fn is_open_literal(marks: &[Mark], vars: u32, number: u32, literal: i32) -> bool
    ensures { result ≡ (is_literal vars literal && is_none (value_of (values_at number marks.now) literal)) }
{
    let variable = variable_of(literal);
    1 <= variable && variable <= vars as usize && value_of(marks, number, literal).is_none()
}
