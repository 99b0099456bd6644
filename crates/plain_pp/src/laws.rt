//! What is true of the preprocessing of projects, with no code.
ghost use Rattle.plain_pp.specs.Laws.{ProjectsHaveSyntax, OutcomesAreOne};

use c_lexer::texts_have_lines;
use file_walks::lines_have_parts;
use pp_lines::values_are_decided;

/// The law that the expressions and the files of each project can be read; the call does nothing.
pub fn projects_have_syntax()
    ensures { ProjectsHaveSyntax }
{
    texts_have_lines();
    lines_have_parts();
    values_are_decided();
}

/// The law that a unit has one outcome at most; the call does nothing.
pub fn outcomes_are_one()
    ensures { OutcomesAreOne }
{
    projects_have_syntax();
}
