//! How a part begins with a token.

ghost use Rattle.std.specs.Prelude.{◌≡◌, [], drop, true, false, if◌then◌else◌};
ghost use Rattle.c_tree.specs.declared.terminals.Terminal.TheVariants.{OpenBracket};
ghost use Rattle.c_tree.specs.Terminals.{same};
ghost use Rattle.c_tree.specs.Grammar as grammar;
ghost use Rattle.c_tree.specs.Places as places;
ghost use Rattle.c_tree.specs.declared.kinds.Kind.TheVariants as kinds;
ghost use Rattle.grammar_moves.specs.Slots.{plain_role, plain_category};
ghost use Rattle.grammar_moves.specs.PlainPlaces.{plain_wording, plain_place};
ghost use Rattle.grammar_moves.specs.PlainMoves.{plain_start, plain_node_start, plain_beginning};

use crate::levels::PRIMARY;
use crate::places::Place;
use crate::rows::Row;
use crate::slots::{Category, Role};
use crate::wordings::may_go_on;
use crate::words::{Wording, Words};
use c_tree::{Kind, Terminal};

/// The innermost node that begins with a token, and the place behind it in the expression around it, if there is one.
#[derive(Clone, Copy)]
pub struct Start {
    pub around: Option<Place>,
    /// Whether a part is left out before the token.
    pub skips: bool,
    pub inner: Place,
}

/// The innermost node that begins with a token, and the place behind it in the statement or the declaration around it.
#[derive(Clone, Copy)]
pub struct NodeStart {
    pub around: Option<Place>,
    pub start: Start,
}

/// The innermost node that begins with a token, and the place behind it in the list around it.
#[derive(Clone, Copy)]
pub struct Beginning {
    pub around: Option<Place>,
    pub start: NodeStart,
}

/// A node that begins with the token.
fn at(inner: Place) -> Option<Start>
    ensures { plain_start result ≡ places.begins [] false (plain_place inner) }
{
    Some(Start {
        around: None,
        skips: false,
        inner,
    })
}

/// A node that begins with the token, in an expression of at least this level.
fn in_operand(wanted: u8, inner: Place) -> Option<Start>
    ensures { plain_start result ≡
        places.around (places.operand wanted) (places.begins [] false (plain_place inner)) }
{
    Some(Start {
        around: Some(Place::Operand(wanted)),
        skips: false,
        inner,
    })
}

/// With no statement or declaration around.
fn node_start_of(start: Option<Start>) -> Option<NodeStart>
    ensures { plain_node_start result ≡ plain_start start }
{
    match start {
        Some(start) => Some(NodeStart {
            around: None,
            start,
        }),
        None => None,
    }
}

/// In a node, behind which is this place.
fn in_node(place: Place, start: Option<Start>) -> Option<NodeStart>
    ensures { plain_node_start result ≡ places.around (plain_place place) (plain_start start) }
{
    match start {
        Some(start) => Some(NodeStart {
            around: Some(place),
            start,
        }),
        None => None,
    }
}

/// With no list around.
pub fn beginning_of(start: Option<NodeStart>) -> Option<Beginning>
    ensures { plain_beginning result ≡ plain_node_start start }
{
    match start {
        Some(start) => Some(Beginning {
            around: None,
            start,
        }),
        None => None,
    }
}

/// With nothing else around.
pub fn begun_node(start: Option<Start>) -> Option<Beginning>
    ensures { plain_beginning result ≡ plain_start start }
{
    beginning_of(node_start_of(start))
}

/// In a list, behind whose entry is this place.
fn in_list(place: Place, start: Option<NodeStart>) -> Option<Beginning>
    ensures { plain_beginning result ≡ places.around (plain_place place) (plain_node_start start) }
{
    match start {
        Some(start) => Some(Beginning {
            around: Some(place),
            start,
        }),
        None => None,
    }
}

/// A node with a fixed list of parts begins with its first word.
pub fn row_start(kind: Kind) -> Option<Start>
    ensures { plain_start result ≡ places.begins_row kind }
{
    at(Place::Inside(Row::Of(kind), 1))
}

/// So does one whose first part is left out: it begins with its second.
fn second_start(kind: Kind) -> Option<NodeStart>
    ensures { plain_node_start result ≡ places.begins [] true (places.inside kind (drop 2 (grammar.row kind))) }
{
    node_start_of(Some(Start {
        around: None,
        skips: true,
        inner: Place::Inside(Row::Of(kind), 2),
    }))
}

/// A node of words begins with its first.
pub fn words_start(wording: Wording, token: Terminal) -> Option<Start>
    ensures { plain_start result ≡ places.begins_words (plain_wording wording) token }
{
    if may_go_on(wording, &[token]) {
        at(Place::InWords(wording, Words::one(token)))
    } else {
        None
    }
}

/// An expression of at least a level.
pub fn expression_start(wanted: u8, token: Terminal) -> Option<Start>
    ensures { plain_start result ≡ places.begins_expression wanted token }
{
    match token {
        Terminal::Name | Terminal::Number | Terminal::Character => {
            at(Place::Operator(wanted, PRIMARY))
        }
        Terminal::Text => in_operand(wanted, Place::InTexts),
        Terminal::OpenParenthesis => in_operand(wanted, Place::Opened(wanted)),
        Terminal::Ampersand | Terminal::Star | Terminal::Sign | Terminal::Negation => {
            in_operand(wanted, Place::Inside(Row::Of(Kind::Prefix), 1))
        }
        Terminal::Step => in_operand(wanted, Place::Inside(Row::Of(Kind::PrefixStep), 1)),
        _ => None,
    }
}

/// In a node that begins with an expression.
fn expression_in(kind: Kind, token: Terminal) -> Option<NodeStart>
    ensures { plain_node_start result ≡
        places.around (places.inside kind (drop 1 (grammar.row kind))) (places.begins_expression 1 token) }
{
    in_node(Place::Inside(Row::Of(kind), 1), expression_start(1, token))
}

/// A statement (6.8).
fn statement_start(token: Terminal) -> Option<NodeStart>
    ensures { plain_node_start result ≡ places.begins_statement token }
{
    match token {
        Terminal::OpenBrace => node_start_of(row_start(Kind::Block)),
        Terminal::Semicolon => second_start(Kind::ExpressionStatement),
        Terminal::If => node_start_of(row_start(Kind::If)),
        Terminal::While => node_start_of(row_start(Kind::While)),
        Terminal::Do => node_start_of(row_start(Kind::Do)),
        Terminal::For => node_start_of(row_start(Kind::For)),
        Terminal::Jump => node_start_of(row_start(Kind::Jump)),
        Terminal::Return => node_start_of(row_start(Kind::Return)),
        _ => expression_in(Kind::ExpressionStatement, token),
    }
}

/// In a node that begins with the words of a type.
fn typed_start(kind: Kind, token: Terminal) -> Option<NodeStart>
    ensures { plain_node_start result ≡
        places.around (places.inside kind (drop 1 (grammar.row kind))) (places.begins_words places.type_wording token) }
{
    in_node(
        Place::Inside(Row::Of(kind), 1),
        words_start(Wording::Type, token),
    )
}

/// An item of a block, a declaration or a statement (6.8.2).
fn item_start(token: Terminal) -> Option<NodeStart>
    ensures { plain_node_start result ≡ places.begins_item token }
{
    match typed_start(Kind::LocalDeclaration, token) {
        Some(start) => Some(start),
        None => statement_start(token),
    }
}

/// An initialiser (6.7.9).
pub fn initialiser_start(token: Terminal) -> Option<Start>
    ensures { plain_start result ≡ places.begins_initialiser token }
{
    match token {
        Terminal::OpenBrace => row_start(Kind::Braces),
        _ => expression_start(1, token),
    }
}

/// The first part of a `for` that isn't left out.
fn first_start(token: Terminal) -> Option<NodeStart>
    ensures { plain_node_start result ≡ places.either (places.begins_local token)
        (places.around (places.inside kinds.ForStart (drop 1 (grammar.row kinds.ForStart)))
        (places.begins_expression 1 token)) }
{
    match typed_start(Kind::LocalDeclaration, token) {
        Some(start) => Some(start),
        None => expression_in(Kind::ForStart, token),
    }
}

/// The first part of a `for` (6.8.5.3).
fn for_start(token: Terminal) -> Option<NodeStart>
    ensures { plain_node_start result ≡ places.begins_for token }
{
    match token {
        Terminal::Semicolon => second_start(Kind::ForStart),
        _ => first_start(token),
    }
}

/// A parameter may do without a name, but not that of an inline function.
fn bracket_start(role: Role) -> Option<Start>
    ensures { plain_start result ≡ places.begins_declarator (plain_role role) OpenBracket }
{
    match role {
        Role::Parameter => at(Place::Inside(Row::Brackets(false), 1)),
        _ => None,
    }
}

/// A declarator (6.7.6).
pub fn declarator_start(role: Role, token: Terminal) -> Option<Start>
    ensures { plain_start result ≡ places.begins_declarator (plain_role role) token }
{
    match token {
        Terminal::Star => at(Place::BeforeName(role)),
        Terminal::Name => at(Place::BehindName(role)),
        Terminal::OpenBracket => bracket_start(role),
        _ => None,
    }
}

/// The first of some declarators.
pub fn declarators_start(role: Role, token: Terminal) -> Option<NodeStart>
    ensures { plain_node_start result ≡
        places.around (places.declarator_at (plain_role role)) (places.begins_declarator (plain_role role) token) }
{
    in_node(Place::DeclaratorAt(role), declarator_start(role, token))
}

/// A parameter (6.7.6).
pub fn parameter_start(inline: bool, token: Terminal) -> Option<NodeStart>
    ensures { plain_node_start result ≡ places.begins_parameter inline token }
{
    in_node(
        Place::ParameterBegins(inline),
        words_start(Wording::Type, token),
    )
}

/// The first of some parameters.
pub fn parameters_start(inline: bool, token: Terminal) -> Option<Beginning>
    ensures { plain_beginning result ≡
        places.around (places.parameter_at inline []) (places.begins_parameter inline token) }
{
    in_list(
        Place::ParameterAt(inline, None),
        parameter_start(inline, token),
    )
}

/// A part of a unit (6.9).
fn file_item_start(token: Terminal) -> Option<NodeStart>
    ensures { plain_node_start result ≡ places.begins_file_item token }
{
    in_node(Place::Specifying, words_start(Wording::File, token))
}

/// A list of these, in which each is one node or its parts.
fn list_start(kind: Kind, category: Category, start: Option<NodeStart>) -> Option<Beginning>
    ensures { plain_beginning result ≡
        places.around (places.in_list kind (plain_category category)) (plain_node_start start) }
{
    in_list(Place::InList(kind, category), start)
}

/// A list of these with commas, in which each is one node.
fn separated_start(kind: Kind, category: Category, start: Option<Start>) -> Option<Beginning>
    ensures { plain_beginning result ≡
        places.around (places.entered kind (plain_category category)) (plain_start start) }
{
    in_list(Place::Entered(kind, category), node_start_of(start))
}

/// A part that begins with its first word, which is this.
fn part_with(first: Terminal, kind: Kind, token: Terminal) -> Option<Start>
    ensures { plain_start result ≡ (if same token first then places.begins_row kind else places.no_beginning) }
{
    if token.is(first) {
        row_start(kind)
    } else {
        None
    }
}

/// How a part of a category begins with a token, if it may.
pub fn part_start(category: Category, token: Terminal) -> Option<Beginning>
    ensures { plain_beginning result ≡ places.begins_part (plain_category category) token }
{
    match category {
        Category::Expression(wanted) => begun_node(expression_start(wanted, token)),
        Category::Arguments => {
            separated_start(
                Kind::Arguments,
                Category::Expression(1),
                expression_start(1, token),
            )
        }
        Category::CastType => begun_node(words_start(Wording::Cast, token)),
        Category::Specifiers => begun_node(words_start(Wording::Type, token)),
        Category::Declarators(role) => beginning_of(declarators_start(role, token)),
        Category::Statement => beginning_of(statement_start(token)),
        Category::ElsePart => begun_node(part_with(Terminal::Else, Kind::Else, token)),
        Category::Block => begun_node(part_with(Terminal::OpenBrace, Kind::Block, token)),
        Category::Items => list_start(Kind::Items, Category::Item, item_start(token)),
        Category::Item => beginning_of(item_start(token)),
        Category::ForStart => beginning_of(for_start(token)),
        Category::Initialiser => begun_node(initialiser_start(token)),
        Category::Initialisers => {
            separated_start(
                Kind::Initialisers,
                Category::Initialiser,
                initialiser_start(token),
            )
        }
        Category::Members => {
            list_start(
                Kind::Members,
                Category::Member,
                typed_start(Kind::Member, token),
            )
        }
        Category::Member => beginning_of(typed_start(Kind::Member, token)),
        Category::FileItem => beginning_of(file_item_start(token)),
        Category::FileSpecifiers
        | Category::Tag
        | Category::AbstractDeclarator
        | Category::Parameters => None,
    }
}
