ghost use Rattle.std.specs.Prelude.{ℕ, ◌≤◌, ◌↔◌, IsTrue};

/// Part of one file: the bytes from `start` on, up to and without `end`, as offsets from the
/// file's first byte. A span may be empty, and then it still has a place.
#[derive(Clone, Copy, Debug, PartialEq, Eq)]
pub struct Span {
    pub start: u32,
    pub end: u32,
    pub ghost ordered: { start ≤ end },
}

impl Span {
    ghost use Rattle.text_edits.specs.Span.{Covers};

    /// Whether the byte at this offset is one of the span's.
    pub fn holds(&self, at: u32) -> bool
        ensures { IsTrue result ↔ Covers self.now at }
    {
        self.start <= at && at < self.end
    }

    /// Whether the two spans share a byte. An empty span shares none.
    pub fn meets(&self, other: &Span) -> bool
        ensures { IsTrue result ↔ ((at : ℕ) × Covers self.now at × Covers other.now at) }
    {
        self.start.max(other.start) < self.end.min(other.end)
    }
}
