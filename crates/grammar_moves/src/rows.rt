//! The fixed lists of parts.

ghost use Rattle.std.specs.Prelude.{◌≡◌, map};
ghost use Rattle.c_tree.specs.Grammar as grammar;
ghost use Rattle.grammar_moves.specs.Slots.{plain_slot, row_kind, row_slots};

use crate::slots::{Category, Choices, Role, Slot};
use c_tree::{Kind, Terminal};

/// A fixed list of parts: those of a kind of node, or the brackets of a declarator, which has a name or none.
#[derive(Clone, Copy)]
pub enum Row {
    Of(Kind),
    Brackets(bool),
}

impl Row {
    /// The kind of the node.
    pub(crate) fn kind(self) -> Kind
        ensures { result ≡ row_kind self }
    {
        match self {
            Row::Of(kind) => kind,
            Row::Brackets(_) => Kind::ArrayDeclarator,
        }
    }

    /// What the node needs; in a declarator, from the bracket on.
    pub(crate) fn slots(self) -> &'static [Slot]
        ensures { map plain_slot result.now ≡ row_slots self }
    {
        match self {
            Row::Of(kind) => slots_of(kind),
            Row::Brackets(_) => brackets(),
        }
    }
}

fn brackets() -> &'static [Slot]
    ensures { map plain_slot result.now ≡ grammar.bracketed_size }
{
    &[
        Slot::Word(Choices::One(Terminal::OpenBracket)),
        Slot::Optional(Category::Expression(2)),
        Slot::Word(Choices::One(Terminal::CloseBracket)),
    ]
}

/// The parts of the kinds that have as many each time; none for the others.
fn slots_of(kind: Kind) -> &'static [Slot]
    ensures { map plain_slot result.now ≡ grammar.row kind }
{
    match kind {
        Kind::Assignment => &[
            Slot::Needed(Category::Expression(14)),
            Slot::Word(Choices::AssignmentSigns),
            Slot::Needed(Category::Expression(1)),
        ],
        Kind::Conditional => &[
            Slot::Needed(Category::Expression(3)),
            Slot::Word(Choices::One(Terminal::Question)),
            Slot::Needed(Category::Expression(1)),
            Slot::Word(Choices::One(Terminal::Colon)),
            Slot::Needed(Category::Expression(2)),
        ],
        Kind::LogicalOr => &[
            Slot::Needed(Category::Expression(3)),
            Slot::Word(Choices::One(Terminal::OrOr)),
            Slot::Needed(Category::Expression(4)),
        ],
        Kind::LogicalAnd => &[
            Slot::Needed(Category::Expression(4)),
            Slot::Word(Choices::One(Terminal::AndAnd)),
            Slot::Needed(Category::Expression(5)),
        ],
        Kind::Or => &[
            Slot::Needed(Category::Expression(5)),
            Slot::Word(Choices::One(Terminal::Bar)),
            Slot::Needed(Category::Expression(6)),
        ],
        Kind::Xor => &[
            Slot::Needed(Category::Expression(6)),
            Slot::Word(Choices::One(Terminal::Caret)),
            Slot::Needed(Category::Expression(7)),
        ],
        Kind::And => &[
            Slot::Needed(Category::Expression(7)),
            Slot::Word(Choices::One(Terminal::Ampersand)),
            Slot::Needed(Category::Expression(8)),
        ],
        Kind::Equality => &[
            Slot::Needed(Category::Expression(8)),
            Slot::Word(Choices::One(Terminal::Equality)),
            Slot::Needed(Category::Expression(9)),
        ],
        Kind::Relation => &[
            Slot::Needed(Category::Expression(9)),
            Slot::Word(Choices::One(Terminal::Relation)),
            Slot::Needed(Category::Expression(10)),
        ],
        Kind::Shift => &[
            Slot::Needed(Category::Expression(10)),
            Slot::Word(Choices::One(Terminal::Shift)),
            Slot::Needed(Category::Expression(11)),
        ],
        Kind::Sum => &[
            Slot::Needed(Category::Expression(11)),
            Slot::Word(Choices::One(Terminal::Sign)),
            Slot::Needed(Category::Expression(12)),
        ],
        Kind::Product => &[
            Slot::Needed(Category::Expression(12)),
            Slot::Word(Choices::ProductSigns),
            Slot::Needed(Category::Expression(13)),
        ],
        Kind::Cast => &[
            Slot::Word(Choices::One(Terminal::OpenParenthesis)),
            Slot::Needed(Category::CastType),
            Slot::Word(Choices::One(Terminal::CloseParenthesis)),
            Slot::Needed(Category::Expression(13)),
        ],
        Kind::Prefix => &[
            Slot::Word(Choices::PrefixSigns),
            Slot::Needed(Category::Expression(13)),
        ],
        Kind::PrefixStep => &[
            Slot::Word(Choices::One(Terminal::Step)),
            Slot::Needed(Category::Expression(14)),
        ],
        Kind::PostfixStep => &[
            Slot::Needed(Category::Expression(15)),
            Slot::Word(Choices::One(Terminal::Step)),
        ],
        Kind::Index => &[
            Slot::Needed(Category::Expression(15)),
            Slot::Word(Choices::One(Terminal::OpenBracket)),
            Slot::Needed(Category::Expression(1)),
            Slot::Word(Choices::One(Terminal::CloseBracket)),
        ],
        Kind::Call => &[
            Slot::Needed(Category::Expression(15)),
            Slot::Word(Choices::One(Terminal::OpenParenthesis)),
            Slot::Optional(Category::Arguments),
            Slot::Word(Choices::One(Terminal::CloseParenthesis)),
        ],
        Kind::Selection => &[
            Slot::Needed(Category::Expression(15)),
            Slot::Word(Choices::One(Terminal::Select)),
            Slot::Word(Choices::One(Terminal::Name)),
        ],
        Kind::Parenthesized => &[
            Slot::Word(Choices::One(Terminal::OpenParenthesis)),
            Slot::Needed(Category::Expression(1)),
            Slot::Word(Choices::One(Terminal::CloseParenthesis)),
        ],
        Kind::Block => &[
            Slot::Word(Choices::One(Terminal::OpenBrace)),
            Slot::Optional(Category::Items),
            Slot::Word(Choices::One(Terminal::CloseBrace)),
        ],
        Kind::ExpressionStatement | Kind::ForStart => &[
            Slot::Optional(Category::Expression(1)),
            Slot::Word(Choices::One(Terminal::Semicolon)),
        ],
        Kind::If => &[
            Slot::Word(Choices::One(Terminal::If)),
            Slot::Word(Choices::One(Terminal::OpenParenthesis)),
            Slot::Needed(Category::Expression(1)),
            Slot::Word(Choices::One(Terminal::CloseParenthesis)),
            Slot::Needed(Category::Statement),
            Slot::Optional(Category::ElsePart),
        ],
        Kind::Else => &[
            Slot::Word(Choices::One(Terminal::Else)),
            Slot::Needed(Category::Statement),
        ],
        Kind::While => &[
            Slot::Word(Choices::One(Terminal::While)),
            Slot::Word(Choices::One(Terminal::OpenParenthesis)),
            Slot::Needed(Category::Expression(1)),
            Slot::Word(Choices::One(Terminal::CloseParenthesis)),
            Slot::Needed(Category::Statement),
        ],
        Kind::Do => &[
            Slot::Word(Choices::One(Terminal::Do)),
            Slot::Needed(Category::Statement),
            Slot::Word(Choices::One(Terminal::While)),
            Slot::Word(Choices::One(Terminal::OpenParenthesis)),
            Slot::Needed(Category::Expression(1)),
            Slot::Word(Choices::One(Terminal::CloseParenthesis)),
            Slot::Word(Choices::One(Terminal::Semicolon)),
        ],
        Kind::For => &[
            Slot::Word(Choices::One(Terminal::For)),
            Slot::Word(Choices::One(Terminal::OpenParenthesis)),
            Slot::Needed(Category::ForStart),
            Slot::Optional(Category::Expression(1)),
            Slot::Word(Choices::One(Terminal::Semicolon)),
            Slot::Optional(Category::Expression(1)),
            Slot::Word(Choices::One(Terminal::CloseParenthesis)),
            Slot::Needed(Category::Statement),
        ],
        Kind::Jump => &[
            Slot::Word(Choices::One(Terminal::Jump)),
            Slot::Word(Choices::One(Terminal::Semicolon)),
        ],
        Kind::Return => &[
            Slot::Word(Choices::One(Terminal::Return)),
            Slot::Optional(Category::Expression(1)),
            Slot::Word(Choices::One(Terminal::Semicolon)),
        ],
        Kind::LocalDeclaration => &[
            Slot::Needed(Category::Specifiers),
            Slot::Needed(Category::Declarators(Role::Local)),
            Slot::Word(Choices::One(Terminal::Semicolon)),
        ],
        Kind::Member => &[
            Slot::Needed(Category::Specifiers),
            Slot::Needed(Category::Declarators(Role::Member)),
            Slot::Word(Choices::One(Terminal::Semicolon)),
        ],
        Kind::Declaration => &[
            Slot::Needed(Category::FileSpecifiers),
            Slot::Needed(Category::Declarators(Role::FileFirst)),
            Slot::Word(Choices::One(Terminal::Semicolon)),
        ],
        Kind::Function => &[
            Slot::Needed(Category::FileSpecifiers),
            Slot::Needed(Category::Declarators(Role::FileFirst)),
            Slot::Needed(Category::Block),
        ],
        Kind::StructDefinition => &[
            Slot::Needed(Category::Tag),
            Slot::Word(Choices::One(Terminal::OpenBrace)),
            Slot::Needed(Category::Members),
            Slot::Word(Choices::One(Terminal::CloseBrace)),
            Slot::Word(Choices::One(Terminal::Semicolon)),
        ],
        Kind::StructDeclaration => &[
            Slot::Needed(Category::Tag),
            Slot::Word(Choices::One(Terminal::Semicolon)),
        ],
        Kind::Braces => &[
            Slot::Word(Choices::One(Terminal::OpenBrace)),
            Slot::Needed(Category::Initialisers),
            Slot::Word(Choices::One(Terminal::CloseBrace)),
        ],
        Kind::Parameter => &[
            Slot::Needed(Category::Specifiers),
            Slot::Optional(Category::AbstractDeclarator),
        ],
        Kind::Declarator => &[Slot::Stars, Slot::Word(Choices::One(Terminal::Name))],
        Kind::ArrayDeclarator => &[
            Slot::Stars,
            Slot::Word(Choices::One(Terminal::Name)),
            Slot::Word(Choices::One(Terminal::OpenBracket)),
            Slot::Optional(Category::Expression(2)),
            Slot::Word(Choices::One(Terminal::CloseBracket)),
        ],
        Kind::FunctionDeclarator => &[
            Slot::Stars,
            Slot::Word(Choices::One(Terminal::Name)),
            Slot::Word(Choices::One(Terminal::OpenParenthesis)),
            Slot::Optional(Category::Parameters),
            Slot::Word(Choices::One(Terminal::CloseParenthesis)),
        ],
        _ => &[],
    }
}
