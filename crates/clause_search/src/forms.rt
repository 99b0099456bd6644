//! The form of clauses.

ghost use Rattle.std.specs.Prelude.{◌≡◌, ◌&&◌, not};
ghost use Rattle.std.specs.List.{list_all};
ghost use Rattle.refute_check.specs.Clauses.{variable_of, is_literal, names_variable, is_clause};
ghost use Rattle.clause_search.specs.Answers.{literals_of};

use crate::literals::variable_of;

/// Whether each clause is over variables 1 up to `vars`, with no variable twice, as `search` requires.
pub fn are_clauses(vars: u32, clauses: &[Vec<i32>]) -> bool
    ensures { result ≡ list_all (is_clause vars) (literals_of clauses.now) }
{
    for clause in clauses {
        if !is_clause(vars, clause) {
            return false;
        }
    }
    true
}

fn is_clause(vars: u32, clause: &[i32]) -> bool
    ensures { result ≡ is_clause vars clause.now }
{
    for (index, literal) in clause.iter().enumerate() {
        if !is_new_literal(vars, *literal, &clause[index + 1..]) {
            return false;
        }
    }
    true
}

// Whether this is a literal whose variable the others don't name.
fn is_new_literal(vars: u32, literal: i32, others: &[i32]) -> bool
    ensures { result ≡ (is_literal vars literal && not (names_variable others.now (variable_of literal))) }
{
    is_literal(vars, literal) && !names_variable(others, variable_of(literal))
}

fn is_literal(vars: u32, literal: i32) -> bool
    ensures { result ≡ is_literal vars literal }
{
    let variable = variable_of(literal);
    1 <= variable && variable <= vars as usize
}

fn names_variable(clause: &[i32], variable: usize) -> bool
    ensures { result ≡ names_variable clause.now variable }
{
    clause
        .iter()
        .any(|literal| variable_of(*literal) == variable)
}
