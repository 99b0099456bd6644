//! Laws of classes that are found along ties. Each function is its contract, and leans on what tokens bring along.
ghost use Rattle.tied_classes.specs.Laws.{ReachedAreClass, OccurrencesAreTold};

use program_occurrences::{declarations_are_occurrences, tokens_bring_back};

/// The tokens that are reached from a place are its class.
pub fn reached_are_class()
    ensures { ReachedAreClass }
{
    tokens_bring_back();
    declarations_are_occurrences();
}

/// A tie tells whether there is anything to rename at a place.
pub fn occurrences_are_told()
    ensures { OccurrencesAreTold }
{}
