//! Which edits can't be made.
ghost use Rattle.std.specs.Prelude.{◌≡◌, ◌<◌, length, map, position, IfSome};
ghost use Rattle.text_edits.specs.Span.{plain_span};
ghost use Rattle.text_edits.specs.Files.{plain_files};
ghost use Rattle.file_edits.specs.Faults as spec;
ghost use Rattle.file_edits.specs.Places.{plain_edit};
ghost use Rattle.file_edits.specs.View.{overlap_view};

use crate::edit::Edit;
use text_edits::{Files, Span};

fn is_past_end(files: &Files, edit: &Edit) -> bool
    ensures { result ≡ spec.is_past_end (plain_files files.now) (plain_edit edit.now) }
{
    match files.list.get(edit.file as usize) {
        Some(file) => file.bytes.len() < edit.span.end as usize,
        None => true,
    }
}

/// The first edit that isn't within a file.
pub fn past_end(files: &Files, edits: &[Edit]) -> Option<usize>
    ensures { result ≡ position (λ edit. spec.is_past_end (plain_files files.now) (plain_edit edit)) edits.now }
{
    edits.iter().position(|edit| is_past_end(files, edit))
}

fn share_byte(a: &Span, b: &Span) -> bool
    ensures { result ≡ spec.share_byte (plain_span a.now) (plain_span b.now) }
{
    a.start.max(b.start) < a.end.min(b.end)
}

fn is_inside(a: &Span, b: &Span) -> bool
    ensures { result ≡ spec.is_inside (plain_span a.now) (plain_span b.now) }
{
    a.start == a.end && b.start < a.start && a.start < b.end
}

fn edits_overlap(a: &Edit, b: &Edit) -> bool
    ensures { result ≡ spec.edits_overlap (plain_edit a.now) (plain_edit b.now) }
{
    a.file == b.file
        && (share_byte(&a.span, &b.span)
            || is_inside(&a.span, &b.span)
            || is_inside(&b.span, &a.span))
}

/// The first of these edits that the edit overlaps.
fn overlapped(edit: &Edit, before: &[Edit]) -> Option<usize>
    ensures place { result ≡ position (λ other. spec.edits_overlap (plain_edit edit.now) (plain_edit other)) before.now }
    ensures bound { IfSome result (λ first. first < length before.now) }
{
    before.iter().position(|other| edits_overlap(edit, other))
}

/// Of the edits that overlap one before them the first, and before it the first edit that it overlaps. Each pair of
/// edits is looked at once, which some thousand edits bear.
pub fn overlap(edits: &[Edit]) -> Option<(usize, usize)>
    ensures places { overlap_view result ≡ spec.overlap_of (map plain_edit edits.now) }
    ensures first { IfSome result (λ found. found.0 < length edits.now) }
    ensures second { IfSome result (λ found. found.1 < length edits.now) }
{
    for (second, edit) in edits.iter().enumerate() {
        if let Some(first) = overlapped(edit, &edits[..second]) {
            return Some((first, second));
        }
    }
    None
}
