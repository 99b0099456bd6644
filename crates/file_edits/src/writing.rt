//! How the bytes of an edited file are written. The places where something is put in are looked up one after the
//! other, each by a walk over all edits, which some thousand edits bear; bytes between them are copied at once.
ghost use Rattle.std.specs.Prelude.{◌≡◌, ◌==◌, ◌+◌, ◌-◌, ◌<◌, ◌≤◌, ◌&&◌, ◌++◌, length, map, drop, IfOk};
ghost use Rattle.file_edits.specs.Edits as spec;
ghost use Rattle.file_edits.specs.Places as place;
ghost use Rattle.file_edits.specs.Places.{plain_edit, edits_in, NoneReaches, AreWithin, AreApart};

use crate::edit::Edit;
use std::alloc::{AllocError, Global};

/// Whether the edit is one of this file that begins at this offset.
fn begins_at(edit: &Edit, number: usize, at: usize) -> bool
    ensures { result ≡ (edit.now.file == number && edit.now.span.start == at) }
{
    edit.file as usize == number && edit.span.start as usize == at
}

/// Whether the edit's span is empty, or isn't.
fn is_kind(edit: &Edit, empty: bool) -> bool
    ensures { result ≡ place.is_kind empty (plain_edit edit.now) }
{
    if empty {
        edit.span.start == edit.span.end
    } else {
        edit.span.start != edit.span.end
    }
}

/// Puts in the texts of the edits at an offset whose spans are empty, or aren't.
fn put_in_some(
    out: &mut Vec<u8>,
    edits: &[Edit],
    number: usize,
    at: usize,
    empty: bool,
) -> Result<(), AllocError>
    ensures { IfOk result (λ _. out.new.items ≡ out.old.items ++ place.texts_at empty at (edits_in number edits.now)) }
{
    for edit in edits {
        if begins_at(edit, number, at) && is_kind(edit, empty) {
            out.extend_from_slice(&edit.text)?;
        }
    }
    Ok(())
}

/// Puts in what is put in at an offset.
fn put_in(out: &mut Vec<u8>, edits: &[Edit], number: usize, at: usize) -> Result<(), AllocError>
    ensures { IfOk result (λ _. out.new.items ≡ out.old.items ++ spec.put_in (edits_in number edits.now) at) }
{
    put_in_some(out, edits, number, at, true)?;
    put_in_some(out, edits, number, at, false)?;
    Ok(())
}

/// Where the edits at an offset end, or the offset.
fn covered_to(edits: &[Edit], number: usize, at: usize) -> usize
    ensures { result ≡ place.covered_to at at (edits_in number edits.now) }
{
    let mut end = at;
    for edit in edits {
        if begins_at(edit, number, at) {
            end = end.max(edit.span.end as usize);
        }
    }
    end
}

/// Where the next edit behind an offset begins, or the end of the file.
fn next_start(edits: &[Edit], number: usize, at: usize, size: usize) -> usize
    requires { at < size }
    ensures value { result ≡ place.next_start size at (edits_in number edits.now) }
    ensures behind { at < result }
    ensures within { result ≤ size }
{
    let mut next = size;
    for edit in edits {
        if edit.file as usize == number && at < edit.span.start as usize {
            next = next.min(edit.span.start as usize);
        }
    }
    next
}

/// Writes what comes before the next place where something may be put in, from one such place on.
fn write_on(
    out: &mut Vec<u8>,
    bytes: &[u8],
    number: usize,
    edits: &[Edit],
    at: usize,
) -> Result<usize, AllocError>
    requires inside { at < length bytes.now }
    requires within { AreWithin (length bytes.now) (edits_in number edits.now) }
    requires apart { AreApart (map plain_edit edits.now) }
    requires none_reaches { NoneReaches at (edits_in number edits.now) }
    ensures later { IfOk result (λ next. at < next) }
    ensures inside { IfOk result (λ next. next ≤ length bytes.now) }
    ensures none_reaches { IfOk result (λ next. NoneReaches next (edits_in number edits.now)) }
    ensures written { IfOk result (λ next.
        out.new.items ++ spec.edited_from next (edits_in number edits.now) (drop next bytes.now)
        ≡ out.old.items ++ spec.edited_from at (edits_in number edits.now) (drop at bytes.now)) }
{
    put_in(out, edits, number, at)?;
    let resumed = covered_to(edits, number, at);
    if at < resumed {
        return Ok(resumed);
    }
    let next = next_start(edits, number, at, bytes.len());
    out.extend_from_slice(&bytes[at..next])?;
    Ok(next)
}

/// The bytes of a file with edits made.
pub fn edited(
    alloc: Global,
    bytes: &[u8],
    number: usize,
    edits: &[Edit],
) -> Result<Vec<u8>, AllocError>
    requires within { AreWithin (length bytes.now) (edits_in number edits.now) }
    requires apart { AreApart (map plain_edit edits.now) }
    ensures { IfOk result (λ done. done.items ≡ spec.edited (edits_in number edits.now) bytes.now) }
{
    let mut out = Vec::new(alloc);
    let mut at = 0;
    while at < bytes.len() {
        at = write_on(&mut out, bytes, number, edits, at)?;
    }
    put_in(&mut out, edits, number, at)?;
    Ok(out)
}
