//! The edits that give tokens of files another name.
ghost use Rattle.std.specs.Prelude.{◌≡◌, ℕ, List, map, IfOk};
ghost use Rattle.file_edits.specs.Edits as spec;
ghost use Rattle.file_edits.specs.Places.{plain_edit};
ghost use Rattle.renamings.specs.Renamings as renaming;
ghost use Rattle.tied_tokens.specs.Tokens.{plain_file_token, plain_file_tokens};
ghost use Rattle.class_edits.specs.Listed as listed;

use c_text::FileToken;
use cond_formula::NoMemory;
use file_edits::Edit;
use std::alloc::Global;

/// The edit of one token.
fn edit_of(alloc: Global, token: &FileToken, new: &[u8]) -> Result<Edit, NoMemory>
    ensures { IfOk result (λ edit. plain_edit edit ≡ listed.edit_of new.now (plain_file_token token.now)) }
{
    Ok(Edit {
        file: token.file,
        span: token.span,
        text: Vec::from_slice(alloc, new)?,
    })
}

/// The edits that give each of the tokens the new name that stand in the first so many files, in their order. Tokens of other files, as
/// of the built-in headers, have none.
pub fn edits_of(
    alloc: Global,
    files: usize,
    tokens: &[FileToken],
    new: &[u8],
) -> Result<Vec<Edit>, NoMemory>
    ensures listed { IfOk result (λ edits. map plain_edit edits.items ≡ map (listed.edit_of new.now) (listed.tokens_below files (plain_file_tokens tokens.now))) }
    ensures renaming { IfOk result (λ edits. (old : List ℕ) (number : ℕ)
        → spec.edits_of number (map plain_edit edits.items) ≡ renaming.edits_in (listed.renaming_of files (plain_file_tokens tokens.now) old new.now) number) }
{
    let mut edits = Vec::new(alloc);
    for token in tokens {
        if (token.file as usize) < files {
            edits.push(edit_of(alloc, token, new)?)?;
        }
    }
    Ok(edits)
}
