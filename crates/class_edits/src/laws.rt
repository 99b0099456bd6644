//! What is true of listed tokens, with no code.
ghost use Rattle.class_edits.specs.Laws.{ListedAreRenamed, ListedStandApart, ListedClassesAreRenamed, BytesTellTokens};

use c_lexer::lines_are_one;

/// The law that exactly the listed tokens of the files are renamed, to be cited in proofs; the call does nothing.
pub fn listed_are_renamed()
    ensures { ListedAreRenamed }
{}

/// The law that tokens of the files' texts which are listed in their order, each once, stand apart; the call does nothing.
pub fn listed_stand_apart()
    ensures { ListedStandApart }
{
    lines_are_one();
}

/// The law that the renaming of a list which is a class is that of the class; the call does nothing.
pub fn listed_classes_are_renamed()
    ensures { ListedClassesAreRenamed }
{
    listed_are_renamed();
}

/// The law that one token at most holds a byte; the call does nothing.
pub fn bytes_tell_tokens()
    ensures { BytesTellTokens }
{
    lines_are_one();
}
