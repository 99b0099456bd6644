//! What renaming does to the units of a project (ISO/IEC 9899:2011, 6.10): preprocessing and renaming go together. The definitions
//! (in `specs/`) and the laws, each the contract of a function that computes nothing.
#![tactic(auto)]

ghost use Rattle.renamed_units.specs.Laws.{UnitsAreRenamed, UntouchedUnitsAreAlike, RenamedAreNames};

use active_tokens::tokens_come_from_active;
use c_lexer::{lines_are_one, texts_have_lines};
use file_walks::{files_break, lines_have_parts, parts_are_walked};
use pp_lines::values_are_decided;
use read_walks::{files_have_misplaced, reads_are_walked};
use renamings::lines_are_renamed;

/// Where a name and its new name are no macros, the renamed unit gives the renamed tokens, or is refused as before.
pub fn units_are_renamed()
    ensures { UnitsAreRenamed }
{
    parts_are_walked();
    files_break();
    reads_are_walked();
    lines_are_one();
    lines_are_renamed();
    texts_have_lines();
    lines_have_parts();
    values_are_decided();
    files_have_misplaced();
}

/// Where a unit reads no renamed token, the renamed unit gives tokens of the same spellings, or is refused for the same reason.
pub fn untouched_units_are_alike()
    ensures { UntouchedUnitsAreAlike }
{
    parts_are_walked();
    files_break();
    reads_are_walked();
    lines_are_one();
    lines_are_renamed();
    texts_have_lines();
    lines_have_parts();
    values_are_decided();
    files_have_misplaced();
    tokens_come_from_active();
}

/// Only names among the tokens of a unit are renamed, and none where the unit reads no renamed token.
pub fn renamed_are_names()
    ensures { RenamedAreNames }
{
    parts_are_walked();
    files_break();
    reads_are_walked();
    lines_are_one();
    lines_are_renamed();
    texts_have_lines();
    lines_have_parts();
    values_are_decided();
    files_have_misplaced();
    tokens_come_from_active();
}
