ghost use Rattle.std.specs.Prelude.{◌≡◌, ◌↔◌, false};

use text_edits::Span;

/// The number of the built-in file, whose text is that of the built-in headers. No project file has
/// this number.
pub const BUILT_IN_FILE: u32 = 4_294_967_295;

/// Where in the text the token stands that a preprocessed token copies.
#[derive(Clone, Copy, Debug, PartialEq, Eq)]
pub enum Place {
    /// Outside macro calls and `#define` lines.
    Text,
    /// Among the arguments of a macro call in the text.
    MacroArgument,
    /// In a `#define` line.
    MacroBody,
}

/// A token of a file's text, or a place there where its span is empty.
#[derive(Clone, Copy, Debug, PartialEq, Eq)]
pub struct FileToken {
    pub file: u32,
    pub span: Span,
}

/// Where a preprocessed token comes from.
#[derive(Clone, Copy, Debug, PartialEq, Eq)]
pub struct Origin {
    /// The number of the file with the token that is copied.
    pub file: u32,
    /// That token's bytes there.
    pub span: Span,
    pub place: Place,
    /// The outermost macro call that brings the token, from the macro's name to the closing
    /// parenthesis, or the token's own span where no call does.
    pub site: Span,
    /// The number of the file with the site.
    pub site_file: u32,
}

impl Origin {
    /// Whether the token that is copied stands in a file that may be changed.
    pub fn editable(&self) -> bool
        ensures { (result ≡ false) ↔ (self.now.file ≡ BUILT_IN_FILE) }
    {
        self.file != BUILT_IN_FILE
    }
}
