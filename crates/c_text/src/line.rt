use crate::token::Token;
use text_edits::Span;

/// A logical line: a run of tokens between two newlines outside comments, splices removed
/// (ISO/IEC 9899:2011, 5.1.1.2). A line may have no tokens.
#[derive(Debug, Drop)]
pub struct Line {
    /// Whether its first token is `#`.
    pub directive: bool,
    pub tokens: Vec<Token>,
    /// Its bytes in the file, up to and without its newline.
    pub span: Span,
}
