//! Why a configuration of a unit is refused, and where.
ghost use Rattle.std.specs.Prelude.{◌≡◌};
ghost use Rattle.std.specs.Option.{option_map};
ghost use Rattle.c_text.specs.Preprocessing as spec;
ghost use Rattle.c_text.specs.Preprocessing.{refusal_at, bad_token};
ghost use Rattle.c_text.specs.Token.{plain_token};
ghost use Rattle.unit_files.specs.Refusals.{kind_view, plain_refusal};

use c_text::{BadKind, FileToken, Token};

/// The kinds of refusals.
#[derive(Clone, Copy, Debug, PartialEq, Eq)]
pub enum PpKind {
    /// A byte that begins no token.
    BadByte,
    /// A comment that the file ends in.
    OpenComment,
    /// A character or text that its line ends in.
    OpenQuote,
    /// A number, character or text of C that the engine doesn't read.
    OutOfProfile,
    /// An `#elif`, `#else` or `#endif` that fits no group, or an open group at the end of a file.
    Unbalanced,
    /// A directive line that is unknown, or not of its form.
    BadDirective,
    /// The expression of an `#if` or `#elif` has no value.
    BadExpression,
    /// No file has the name of an `#include`.
    NoFile,
    /// Files are nested too deep.
    IncludeDepth,
    /// A `#define` or `#undef` that may not be.
    BadMacro,
    /// A macro call that isn't closed, has another number of arguments, or gives nothing lawful.
    BadCall,
    /// An `#error` line.
    ErrorDirective,
    /// A name that the implementation defines in C and the engine doesn't.
    Predefined,
}

/// A refusal, and the token at which it stands.
#[derive(Clone, Copy, Debug, PartialEq, Eq)]
pub struct Refusal {
    pub kind: PpKind,
    pub at: FileToken,
}

/// The refusal that stands at a token of a file.
pub fn refusal_at(kind: PpKind, token: &Token) -> Refusal
    ensures { plain_refusal result ≡ refusal_at (kind_view kind) (plain_token token.now) }
{
    Refusal {
        kind,
        at: FileToken {
            file: token.origin.file,
            span: token.origin.span,
        },
    }
}

/// The refusal of an active token of this kind.
pub fn bad_kind(kind: BadKind) -> PpKind
    ensures { kind_view result ≡ bad_token kind }
{
    match kind {
        BadKind::BadByte => PpKind::BadByte,
        BadKind::OpenComment => PpKind::OpenComment,
        BadKind::OpenQuote => PpKind::OpenQuote,
        BadKind::OutOfProfile => PpKind::OutOfProfile,
    }
}

/// The earlier of two refusals in one file.
pub fn earlier(one: Option<Refusal>, other: Refusal) -> Refusal
    ensures { plain_refusal result ≡ spec.earlier (option_map plain_refusal one) (plain_refusal other) }
{
    match one {
        Some(refusal) if refusal.at.span.start < other.at.span.start => refusal,
        _ => other,
    }
}
