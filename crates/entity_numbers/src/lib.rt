//! How the entities of a unit are numbered (ISO/IEC 9899:2011, 6.2.1 to 6.2.3): in the order in which the identifiers of the text are first
//! bound to them. Bindings that are numbered so and have the same firsts correspond, and functions number their slots so (of whole units
//! `unit_numbers` tells it). Here are the definitions (in `specs/`) and the laws, the contracts of functions without a body.
#![tactic(auto)]

ghost use Rattle.entity_numbers.specs.Laws.{NumberedAreBoundAlike, FirstsAreBoundAlike, BlocksTakeSlotsInTurn, FunctionsTakeSlotsInTurn, UnitsNameParameters};

/// Two lists of bindings that are numbered from the same counts correspond entity by entity, where each two identifiers at one
/// place are bound to what is first bound at one place, and stand for things of one kind if no expression uses them.
pub fn numbered_are_bound_alike()
    ensures { NumberedAreBoundAlike }
{}

/// So do the bindings of two lists of identifiers that are in the order of the text, with the same numbers, and whose first ones
/// have the same numbers.
pub fn firsts_are_bound_alike()
    ensures { FirstsAreBoundAlike }
{}

/// The items of a block take slots in the order of the text: each identifier in them is bound to a slot that is taken or to the
/// next, and behind them all are taken that they have.
pub fn blocks_take_slots_in_turn()
    ensures { BlocksTakeSlotsInTurn }
{}

/// A function that is defined takes slots in the order of its text, from the first of its parameters on, and has as many as it
/// takes.
pub fn functions_take_slots_in_turn()
    ensures { FunctionsTakeSlotsInTurn }
{}

/// Each function that a unit of the grammar defines names its parameters.
pub fn units_name_parameters()
    ensures { UnitsNameParameters }
{
    tree_derivations::units_are_derived();
}
