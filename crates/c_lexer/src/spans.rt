//! The spans of parts of a text.
ghost use Rattle.std.specs.Prelude.{◌≡◌, ◌+◌, ◌-◌, ◌<◌, ◌≤◌, length, slice_index};

use text_edits::Span;

/// From the first to the last of these places.
pub fn span_of(places: &[u32]) -> Span
    requires some { 0 < length places.now }
    requires ordered { slice_index places.now 0 ≤ slice_index places.now (length places.now - 1) }
    requires fits { slice_index places.now (length places.now - 1) < 4294967295 }
    ensures start { result.start ≡ slice_index places.now 0 }
    ensures end { result.end ≡ slice_index places.now (length places.now - 1) + 1 }
{
    Span {
        start: places[0],
        end: places[places.len() - 1] + 1,
    }
}
