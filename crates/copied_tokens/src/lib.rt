//! Of which tokens of files the tokens that preprocessing gives are copies (ISO/IEC 9899:2011, 6.10.3): the definitions (in `specs/`) and
//! the laws, each the contract of a function without a body of its own.
#![tactic(auto)]

ghost use Rattle.copied_tokens.specs.Laws.{TokensAreCopied, NamesAreRead, PlacesTellTokens, PredefinedComeFromBodies};

use plain_pp::projects_have_syntax;

/// Each token that a unit gives is a copy of one on a text line, or comes out of the body of a macro.
pub fn tokens_are_copied()
    ensures { TokensAreCopied }
{
    projects_have_syntax();
}

/// Each name that a unit gives stands where the unit reads a token.
pub fn names_are_read()
    ensures { NamesAreRead }
{}

/// Two tokens of the lines of a file that stand at one place are one.
pub fn places_tell_tokens()
    ensures { PlacesTellTokens }
{}

/// The predefined names that a unit gives come out of the bodies of macros.
pub fn predefined_come_from_bodies()
    ensures { PredefinedComeFromBodies }
{
    projects_have_syntax();
}
