//! What a node does with an expression among its parts.
ghost use Rattle.std.specs.Prelude.{◌≡◌, false};
ghost use Rattle.c_text.specs.Token.{plain_token};
ghost use Rattle.statement_readings.specs.Walks as walks;
ghost use Rattle.expression_types.specs.Reading as reading;
ghost use Rattle.cond_statements.specs.Uses as spec;
ghost use Rattle.cond_statements.specs.Uses.{use_of};

use c_text::Token;
use c_tree::{Kind, Terminal, terminal};

/// What a node does with an expression among its parts.
#[derive(Clone, Copy, Debug)]
pub enum Use {
    Condition,
    Discarded,
    Returned,
}

/// What a node does with an expression before any `;` among its parts.
pub(crate) fn use_in(kind: Kind) -> Use
    ensures { use_of result ≡ walks.use_in kind false }
{
    match kind {
        Kind::If | Kind::While | Kind::Do | Kind::For => Use::Condition,
        Kind::Return => Use::Returned,
        _ => Use::Discarded,
    }
}

/// Whether a token is an operand.
pub(crate) fn is_operand(token: &Token) -> bool
    ensures { result ≡ reading.is_operand (plain_token token.now) }
{
    let terminal = terminal(token);
    Terminal::Name.is(terminal) || Terminal::Number.is(terminal) || Terminal::Character.is(terminal)
}

/// Whether a `;` among the parts turns what an expression is: in a `for` alone.
pub(crate) fn may_turn(kind: Kind) -> bool
    ensures { result ≡ spec.may_turn kind }
{
    match kind {
        Kind::For => true,
        _ => false,
    }
}

/// Whether a token turns what an expression is.
pub(crate) fn turns(kind: Kind, token: &Token) -> bool
    ensures { result ≡ walks.turns kind (plain_token token.now) }
{
    match kind {
        Kind::For => Terminal::Semicolon.is(terminal(token)),
        _ => false,
    }
}
