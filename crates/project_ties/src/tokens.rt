//! Tokens of streams, by their numbers.

ghost use Rattle.std.specs.Prelude.{◌≡◌, option_map};
ghost use Rattle.tied_tokens.specs.Tokens.{plain_file_token};
ghost use Rattle.told_ties.specs.Ties.{token_at};

use c_text::FileToken;
use cond_tokens::CondToken;

/// The token of a file of which the stream's token with this number is a copy, if the stream has it.
pub(crate) fn file_token(tokens: &[CondToken], number: u32) -> Option<FileToken>
    ensures { option_map plain_file_token result ≡ token_at tokens.now number }
{
    let entry = tokens.get(number as usize)?;
    Some(FileToken {
        file: entry.token.origin.file,
        span: entry.token.origin.span,
    })
}
