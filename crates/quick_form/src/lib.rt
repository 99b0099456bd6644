//! The quick form: files whose `#ifdef` groups hold whole declarations or statements. Here are its
//! definitions (in `specs/`) and its laws, each the contract of a function without a body.
#![tactic(auto)]

ghost use Rattle.quick_form.specs.Growth.{RunsGrow};
ghost use Rattle.quick_form.specs.Places.{PlacesAreOne, TakenHasNoPlace, PlacedSymbolsAreSpelled};
ghost use Rattle.quick_form.specs.Quick.{OneReading, RenamedSymbols, RenamedReads, RenamingKeepsBehaviour};

/// A file reads as one list of items at most, so it has one program at most in a configuration.
pub fn one_reading()
    ensures { OneReading }
{}

/// A file with one name made another spells the same symbols, but for that name outside directive
/// lines.
pub fn renamed_symbols()
    ensures { RenamedSymbols }
{}

/// A file with one name made another reads as the items with the same change.
pub fn renamed_reads()
    ensures { RenamedReads }
{}

/// A file that `quick` takes and the renamed file are accepted in the same configurations, and run
/// alike there.
pub fn renaming_keeps_behaviour()
    ensures { RenamingKeepsBehaviour }
{
    renamed_reads();
}

/// A larger bound keeps the answer of a run that has ended or is undefined, and only lengthens the
/// output of one that the bound cut off.
pub fn runs_grow()
    ensures { RunsGrow }
{}

/// A file that isn't taken for a renaming has one place of its fault at most.
pub fn places_are_one()
    ensures { PlacesAreOne }
{}

/// A file that is taken for a renaming has no place of a fault.
pub fn taken_has_no_place()
    ensures { TakenHasNoPlace }
{}

/// The symbols whose places are told are those that the file spells.
pub fn placed_symbols_are_spelled()
    ensures { PlacedSymbolsAreSpelled }
{}
