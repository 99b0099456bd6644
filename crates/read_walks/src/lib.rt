//! What a unit reads outside every skipped group, told line by line, which is what code does: the reads of the walk over a file's
//! lines and a test for tokens of files among them (in `specs/`), and the laws that tie them to the definition by groups (ISO/IEC
//! 9899:2011, 6.10.1), each the contract of a function that computes nothing.
#![tactic(auto)]

ghost use Rattle.read_walks.specs.Laws.{ReadsAreWalked, SourceReadsAreWalked, FilesHaveMisplaced, LinesLeadOn, WalksAreOne, TestIsExact, TestIsJoined, TestIsByToken};

use c_lexer::lines_are_one;

/// What the part of a file reads is read by the walk over its lines.
pub fn reads_are_walked()
    ensures { ReadsAreWalked }
{}

/// What a source reads is read by the walk over its lines.
pub fn source_reads_are_walked()
    ensures { SourceReadsAreWalked }
{
    lines_are_one();
}

/// The lines at which files break have tokens, whatever the files.
pub fn files_have_misplaced()
    ensures { FilesHaveMisplaced }
{}

/// A line leads to one walk or to a refusal, and what it reads stands before what is read behind it.
pub fn lines_lead_on()
    ensures { LinesLeadOn }
{}

/// The walk that a line leads to is told by the reading alone.
pub fn walks_are_one()
    ensures { WalksAreOne }
{}

/// The test for tokens is exact, and is asked list by list and token by token.
pub fn reads_are_tested()
    ensures exact { TestIsExact }
    ensures joined { TestIsJoined }
    ensures by_token { TestIsByToken }
{}
