//! The quick form as C: the core program of the items that are present in a configuration. Here are the definitions (in
//! `specs/`) and the laws that tie the run of the quick form to that of core programs, each the contract of a function without a
//! body.
#![tactic(auto)]

ghost use Rattle.quick_core.specs.Laws.{ProgramIsOfItems, NumbersAreRead, RunsAgree};

/// The program of a configuration is that of the items that are present there.
pub fn program_is_of_items()
    ensures { ProgramIsOfItems }
{}

/// The numbers of a file that reads as items are numbers of the quick form, so that an `int` holds them.
pub fn numbers_are_read()
    ensures { NumbersAreRead }
{}

/// A file that reads as items which a configuration accepts runs as the core program of the items that are present there does,
/// at each bound and with each input.
pub fn runs_agree()
    ensures { RunsAgree }
{
    program_is_of_items();
    numbers_are_read();
}
