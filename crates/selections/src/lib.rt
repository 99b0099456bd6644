//! In which structs expressions select members, by the kinds of nodes and the order of their parts (in `specs/`), and the laws that
//! expressions are judged to select so (ISO/IEC 9899:2011, 6.5.2.3), the contracts of functions that compute nothing.
#![tactic(auto)]

ghost use Rattle.selections.specs.Laws.{SelectionsAreJudged, InitialisersSelectSo, EachIdentifierIsToldOf};

mod rows;

use expression_types::expressions_have_types;
use operand_types::types_are_kept;
pub use rows::worked_selections;

/// The identifiers of an expression that is judged well are bound to members of the structs in which they are read to select.
pub fn selections_are_judged()
    ensures { SelectionsAreJudged }
{
    types_are_kept();
    expressions_have_types();
}

/// So are those of an initialiser.
pub fn initialisers_select_so()
    ensures { InitialisersSelectSo }
{
    types_are_kept();
    expressions_have_types();
}

/// The structs are told of the identifiers of an expression, one by one.
pub fn each_identifier_is_told_of()
    ensures { EachIdentifierIsToldOf }
{}
