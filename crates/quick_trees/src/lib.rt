//! The quick form as C: the tokens and the tree of the items that are present in a configuration, behind the line
//! `int putchar(int);`. Here are the definitions (in `specs/`) and the laws that lead from the tokens to the core program, each
//! the contract of a function without a body.
#![tactic(auto)]

ghost use Rattle.quick_trees.specs.Laws.{TreesAreSpelled, ElaboratesToCore, CoreIsElaborated, NamesAreRead, TokensRunAlike};

use c_tree::tokens_spell_one_unit;
use quick_core::{numbers_are_read, program_is_of_items, runs_agree};

/// The tree of present items is a unit of the grammar, and spells their tokens.
pub fn trees_are_spelled()
    ensures { TreesAreSpelled }
{}

/// Where the tree of present items is elaborated, the core program is that of the items.
pub fn elaborates_to_core()
    ensures { ElaboratesToCore }
{}

/// The tree of present items that are accepted is elaborated, unless an object has the name of a built-in function.
pub fn core_is_elaborated()
    ensures { CoreIsElaborated }
{}

/// The names that a file declares, where it reads as items, are names of the quick form.
pub fn names_are_read()
    ensures { NamesAreRead }
{}

/// Where the tokens of what is present in a file have a tree, and that is elaborated, the core program runs as the quick form
/// says, at each bound and with each input.
pub fn tokens_run_alike()
    ensures { TokensRunAlike }
{
    program_is_of_items();
    numbers_are_read();
    runs_agree();
    tokens_spell_one_unit();
    names_are_read();
    trees_are_spelled();
    elaborates_to_core();
}
