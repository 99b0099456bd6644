//! Tokens of files in their order.

ghost use Rattle.std.specs.Prelude.{◌≡◌, ◌↔◌, ◌≤◌, ◌++◌, ◌∷◌, [], length, take, drop, IsTrue, Contains, IfOk, OnOk};
ghost use Rattle.program_occurrences.specs.Classes.{PlainFileToken};
ghost use Rattle.tied_tokens.specs.Tokens.{plain_file_token, plain_file_tokens, stands_before, AreInOrder};
ghost use Rattle.tied_tokens.specs.Search.{placed};

use c_text::FileToken;
use cond_formula::NoMemory;
use std::alloc::Global;

/// Whether they are one token.
pub(crate) fn is_same(a: &FileToken, b: &FileToken) -> bool
    ensures { IsTrue result ↔ plain_file_token a.now ≡ plain_file_token b.now }
{
    a.file == b.file && a.span.start == b.span.start && a.span.end == b.span.end
}

/// Whether the token is one of these.
pub(crate) fn is_among(tokens: &[FileToken], token: &FileToken) -> bool
    ensures { IsTrue result ↔ Contains (plain_file_tokens tokens.now) (plain_file_token token.now) }
{
    for other in tokens {
        if is_same(other, token) {
            return true;
        }
    }
    false
}

/// Whether the one stands before the other.
fn is_before(a: &FileToken, b: &FileToken) -> bool
    ensures { result ≡ stands_before (plain_file_token a.now) (plain_file_token b.now) }
{
    if a.file != b.file {
        return a.file < b.file;
    }
    if a.span.start != b.span.start {
        return a.span.start < b.span.start;
    }
    a.span.end < b.span.end
}

/// How many tokens at the front stand before this one.
fn place_in(tokens: &[FileToken], token: &FileToken) -> usize
    ensures within { result ≤ length tokens.now }
    ensures placed { take result tokens.now ++ token.now ∷ drop result tokens.now ≡ placed token.now tokens.now }
{
    for (i, other) in tokens.iter().enumerate() {
        if !is_before(other, token) {
            return i;
        }
    }
    tokens.len()
}

/// Puts a token among others that are in order, unless it is one of them.
fn put(sorted: &mut Vec<FileToken>, token: &FileToken) -> Result<(), NoMemory>
    ensures members { OnOk result ((other : PlainFileToken) → Contains (plain_file_tokens sorted.new.items) other
        ↔ Contains (plain_file_tokens sorted.old.items ++ plain_file_token token.now ∷ []) other) }
    ensures in_order { OnOk result (AreInOrder (plain_file_tokens sorted.old.items) → AreInOrder (plain_file_tokens sorted.new.items)) }
{
    if is_among(sorted, token) {
        return Ok(());
    }
    let place = place_in(sorted, token);
    sorted.insert(place, *token)?;
    Ok(())
}

/// The tokens in their order, each once.
pub(crate) fn in_order(alloc: Global, tokens: &[FileToken]) -> Result<Vec<FileToken>, NoMemory>
    ensures members { IfOk result (λ sorted. (token : PlainFileToken) → Contains (plain_file_tokens sorted.items) token ↔ Contains (plain_file_tokens tokens.now) token) }
    ensures in_order { IfOk result (λ sorted. AreInOrder (plain_file_tokens sorted.items)) }
{
    let mut sorted = Vec::with_capacity(alloc, tokens.len())?;
    for token in tokens {
        put(&mut sorted, token)?;
    }
    Ok(sorted)
}
