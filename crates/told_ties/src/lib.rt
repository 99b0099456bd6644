//! Ties between tokens of files, told by the numbers of tokens in the streams of units (ISO/IEC 9899:2011, 6.2.1 to 6.2.3): what a configuration
//! sees of them (in `specs/`), and the laws that this is what there is in its units, each the contract of a function without a body.
#![tactic(auto)]

ghost use Rattle.told_ties.specs.Laws.{OccurrencesAreTied, TiesAreSeen};

use changed_forests::{changes_are_seen, numberings_are_seen};
use choice_trees::leaves_are_spelled;
use program_occurrences::declarations_are_occurrences;
use sited_names::sites_dont_tie;

/// Where occurrences are told by the numbers of tokens in their units' streams, those tokens of files are tied of which the one has an occurrence
/// that the other declares, and they have the names that they declare.
pub fn occurrences_are_tied()
    ensures { OccurrencesAreTied }
{
    declarations_are_occurrences();
    leaves_are_spelled();
    changes_are_seen();
    numberings_are_seen();
    sites_dont_tie();
}

/// What a configuration sees of ties and declared names are those that are true in it.
pub fn ties_are_seen()
    ensures { TiesAreSeen }
{}
