//! Identifiers of units that differ only in names declare things of one kind at one place (ISO/IEC 9899:2011, 6.2.1 to 6.2.3). Here are
//! the definitions (in `specs/`) and the law, the contract of a function without a body.
#![tactic(auto)]

ghost use Rattle.entity_kinds.specs.Laws.{KindsAreAlike};

/// Where two units that differ only in names are judged well, identifiers at one place are used by expressions, or stand for things of
/// one kind.
pub fn kinds_are_alike()
    ensures { KindsAreAlike }
{
    tree_derivations::units_are_derived();
    bound_slots::sizes_bind_nothing();
}
