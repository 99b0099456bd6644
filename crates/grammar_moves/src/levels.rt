//! How tightly operators bind.

ghost use Rattle.std.specs.Prelude.{◌≡◌, Some};
ghost use Rattle.c_tree.specs.Grammar as grammar;
ghost use Rattle.c_tree.specs.Places as places;
ghost use Rattle.grammar_moves.specs.PlainMoves.{plain_operator};

use c_tree::{Kind, Terminal};

/// What needs no operator.
pub const PRIMARY: u8 = 16;

/// How tightly a kind of expression binds, from 1, the assignment, to 16; 0 for what is no expression.
pub fn level(kind: Kind) -> u8
    ensures { result ≡ grammar.level kind }
{
    match kind {
        Kind::Assignment => 1,
        Kind::Conditional => 2,
        Kind::LogicalOr => 3,
        Kind::LogicalAnd => 4,
        Kind::Or => 5,
        Kind::Xor => 6,
        Kind::And => 7,
        Kind::Equality => 8,
        Kind::Relation => 9,
        Kind::Shift => 10,
        Kind::Sum => 11,
        Kind::Product => 12,
        Kind::Cast => 13,
        Kind::Prefix | Kind::PrefixStep => 14,
        Kind::PostfixStep | Kind::Index | Kind::Call | Kind::Selection => 15,
        Kind::Parenthesized | Kind::Texts => 16,
        _ => 0,
    }
}

/// An operator behind its first operand: the node that it makes, and how tightly that operand must bind.
#[derive(Clone, Copy)]
pub struct Operator {
    pub kind: Kind,
    pub left: u8,
}

fn taking(kind: Kind, left: u8) -> Option<Operator>
    ensures { plain_operator result ≡ places.operator_of kind left }
{
    Some(Operator { kind, left })
}

/// The operator that a token is behind an operand.
pub fn operator_at(token: Terminal) -> Option<Operator>
    ensures { plain_operator result ≡ places.operator_at token }
{
    match token {
        Terminal::Assign | Terminal::CompoundAssign => taking(Kind::Assignment, 14),
        Terminal::Question => taking(Kind::Conditional, 3),
        Terminal::OrOr => taking(Kind::LogicalOr, 3),
        Terminal::AndAnd => taking(Kind::LogicalAnd, 4),
        Terminal::Bar => taking(Kind::Or, 5),
        Terminal::Caret => taking(Kind::Xor, 6),
        Terminal::Ampersand => taking(Kind::And, 7),
        Terminal::Equality => taking(Kind::Equality, 8),
        Terminal::Relation => taking(Kind::Relation, 9),
        Terminal::Shift => taking(Kind::Shift, 10),
        Terminal::Sign => taking(Kind::Sum, 11),
        Terminal::Star | Terminal::Divide => taking(Kind::Product, 12),
        Terminal::Step => taking(Kind::PostfixStep, 15),
        Terminal::OpenBracket => taking(Kind::Index, 15),
        Terminal::OpenParenthesis => taking(Kind::Call, 15),
        Terminal::Select => taking(Kind::Selection, 15),
        _ => None,
    }
}
