//! Which identifiers of a unit use members of which structs, part by part (in `specs/`), and the laws that its parts are judged so
//! (ISO/IEC 9899:2011, 6.5.2.3), the contracts of functions that compute nothing.
#![tactic(auto)]

ghost use Rattle.member_uses.specs.Laws.{BodiesAreUsed, DeclaratorsAreDerived, ExpressionsUseSelections, InitialisersUseSelections, LocalsAreUsed, LocalsKeepNames, LocalsUseInitialisers};

use cond_sizes::counts_need_no_names;
use expression_types::expressions_have_types;
use operand_types::types_are_kept;
use selections::{initialisers_select_so, selections_are_judged};

/// The uses of members in an expression are its selections.
pub fn expressions_use_selections()
    ensures { ExpressionsUseSelections }
{
    selections_are_judged();
}

/// So are those in an initialiser.
pub fn initialisers_use_selections()
    ensures { InitialisersUseSelections }
{
    initialisers_select_so();
}

/// The uses of members in a function's block are those in its parts, one part after the other.
pub fn bodies_are_used()
    ensures { BodiesAreUsed }
{
    types_are_kept();
    expressions_have_types();
    counts_need_no_names();
}

/// The uses of members in a declaration of locals are those of its declarators, one after the other.
pub fn locals_are_used()
    ensures { LocalsAreUsed }
{
    types_are_kept();
    expressions_have_types();
    counts_need_no_names();
}

/// Those of a declarator are the selections of its initialiser.
pub fn locals_use_initialisers()
    ensures { LocalsUseInitialisers }
{
    types_are_kept();
    expressions_have_types();
    counts_need_no_names();
}

/// Behind a local names of file scope are spelt as names still.
pub fn locals_keep_names()
    ensures { LocalsKeepNames }
{
    types_are_kept();
    expressions_have_types();
    counts_need_no_names();
}

/// The declarators of a list of the grammar are of the grammar, and so are their initialisers.
pub fn declarators_are_derived()
    ensures { DeclaratorsAreDerived }
{}
