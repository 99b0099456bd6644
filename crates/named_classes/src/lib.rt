//! The class to which a byte of a project's files leads (ISO/IEC 9899:2011, 5.1.1.2, 6.2.1): the token that holds the byte, the name that is
//! written there, and the tokens that mean one thing with it. Here are the definitions (in `specs/`) and the laws, each the contract of a
//! function without a body of its own.
#![tactic(auto)]

ghost use Rattle.named_classes.specs.Laws.{NamedClassesAreOne, FoundAreNamed};

use c_lexer::{lines_are_one, texts_have_lines};
use class_edits::bytes_tell_tokens;
use copied_tokens::{names_are_read, places_tell_tokens};
use plain_pp::projects_have_syntax;
use program_occurrences::declarations_are_occurrences;
use read_walks::files_have_misplaced;
use renamed_sources::sources_are_renamed;

/// A byte leads to one class at most.
pub fn named_classes_are_one()
    ensures { NamedClassesAreOne }
{
    bytes_tell_tokens();
    lines_are_one();
    places_tell_tokens();
}

/// Where something is found at a byte, it isn't so that there is no class.
pub fn found_are_named()
    ensures { FoundAreNamed }
{
    declarations_are_occurrences();
    sources_are_renamed();
    names_are_read();
    projects_have_syntax();
    files_have_misplaced();
    texts_have_lines();
    lines_are_one();
}
