//! What is true of programs of projects, with no code.
ghost use Rattle.project_program.specs.Laws.{ProgramsAreOne};

use c_tree::tokens_spell_one_unit;
use plain_pp::outcomes_are_one;

/// The law that a configuration has one program at most or is refused at one stage; the call does nothing.
pub fn programs_are_one()
    ensures { ProgramsAreOne }
{
    outcomes_are_one();
    tokens_spell_one_unit();
}
