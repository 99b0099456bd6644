//! The renaming of a reference class (ISO/IEC 9899:2011, 5.1.1.2): what is asked of it, and that it keeps what products do. Here are the
//! definitions (in `specs/`) and the laws, each the contract of a function without a body of its own.
#![tactic(auto)]

ghost use Rattle.renamed_classes.specs.Laws.{ClassesStandOnTextLines, ClassesStandInFiles, ClassesHaveOneName, OccurrencesHaveOneName, ClassNamesAreFree, ClassesFitFiles, NamesAreNoMacros, ClassesMayBeRenamed, BoundAlikeOrNot, BindingsAreTold, TouchedClassesKeepPrograms};

use brought_names::brought_are_named_alike;
use c_lexer::lines_are_one;
use copied_tokens::{
    names_are_read, places_tell_tokens, predefined_come_from_bodies, tokens_are_copied,
};
use product_programs::programs_are_found;
use program_names::{names_are_linked_alike, names_are_one_to_one, units_of_programs_bind_alike};
use program_occurrences::declarations_are_occurrences;
use renamed_projects::touched_projects_run_alike;
use renamed_sources::sources_are_renamed;
use unit_outcomes::tokens_are_spelt;

/// Where nothing of a class comes out of the body of a macro, its tokens are names on text lines.
pub fn classes_stand_on_text_lines()
    ensures { ClassesStandOnTextLines }
{
    declarations_are_occurrences();
    sources_are_renamed();
    tokens_are_copied();
    names_are_read();
}

/// Where nothing of it is fixed either, they all stand in the project's files.
pub fn classes_stand_in_files()
    ensures { ClassesStandInFiles }
{
    declarations_are_occurrences();
    sources_are_renamed();
    tokens_are_copied();
    names_are_read();
}

/// There all of them are written as the name that stands at the place.
pub fn classes_have_one_name()
    ensures { ClassesHaveOneName }
{
    declarations_are_occurrences();
    sources_are_renamed();
    tokens_are_spelt();
    tokens_are_copied();
    names_are_read();
    lines_are_one();
    places_tell_tokens();
    brought_are_named_alike();
}

/// So are their occurrences in each product.
pub fn occurrences_have_one_name()
    ensures { OccurrencesHaveOneName }
{
    declarations_are_occurrences();
    sources_are_renamed();
    tokens_are_spelt();
    tokens_are_copied();
    names_are_read();
    lines_are_one();
    places_tell_tokens();
    brought_are_named_alike();
}

/// And that name isn't predefined.
pub fn class_names_are_free()
    ensures { ClassNamesAreFree }
{
    declarations_are_occurrences();
    sources_are_renamed();
    tokens_are_copied();
    names_are_read();
    lines_are_one();
    places_tell_tokens();
    predefined_come_from_bodies();
}

/// A renaming of a class whose tokens are names on text lines fits the project's files.
pub fn classes_fit_files()
    ensures { ClassesFitFiles }
{
    lines_are_one();
    places_tell_tokens();
    classes_stand_on_text_lines();
    classes_have_one_name();
}

/// Where MacroName isn't broken, neither name is a macro where a renamed token is read.
pub fn names_are_no_macros()
    ensures { NamesAreNoMacros }
{}

/// In each admitted configuration the files with the new name are read as those before.
pub fn classes_may_be_renamed()
    ensures { ClassesMayBeRenamed }
{
    class_names_are_free();
    classes_fit_files();
    names_are_no_macros();
}

/// What can't be bound and linked otherwise is bound and linked alike.
pub fn bound_alike_or_not()
    ensures { BoundAlikeOrNot }
{}

/// In a configuration that the class touches, bindings that are as before tell which names correspond.
pub fn bindings_tell_names()
    ensures { BindingsAreTold }
{
    sources_are_renamed();
    classes_may_be_renamed();
    tokens_are_spelt();
    touched_projects_run_alike();
    units_of_programs_bind_alike();
    names_are_one_to_one();
    names_are_linked_alike();
}

/// In a configuration that the class touches, a renaming that may be made keeps the program.
pub fn touched_classes_keep_programs()
    ensures { TouchedClassesKeepPrograms }
{
    sources_are_renamed();
    classes_may_be_renamed();
    bound_alike_or_not();
    bindings_tell_names();
    programs_are_found();
    touched_projects_run_alike();
}
