//! What the next token does in a place.

ghost use Rattle.std.specs.Prelude.{◌≡◌, drop};
ghost use Rattle.c_tree.specs.declared.terminals.Terminal.TheVariants as t;
ghost use Rattle.c_tree.specs.Places as places;
ghost use Rattle.grammar_moves.specs.Slots.{plain_role, plain_category, plain_slot, row_kind, row_slots};
ghost use Rattle.grammar_moves.specs.PlainPlaces.{plain_wording, plain_words, plain_specified, plain_flavour};
ghost use Rattle.grammar_moves.specs.PlainPlaces.{plain_naming, row_place, plain_place};
ghost use Rattle.grammar_moves.specs.PlainMoves.{plain_beginning, plain_action, plain_move, SlotActs};

use crate::beginnings::{
    Beginning, beginning_of, begun_node, declarator_start, declarators_start, expression_start,
    initialiser_start, parameter_start, parameters_start, part_start, row_start, words_start,
};
use crate::levels::{level, operator_at};
use crate::places::{Flavour, Naming, Place, Specified};
use crate::rows::Row;
use crate::slots::{Category, Role, Slot};
use crate::wordings::{longer, may_end};
use crate::words::{Wording, Words};
use c_tree::{Kind, Terminal};

/// What a token does, behind the parts that are left out before it.
#[derive(Clone, Copy)]
pub enum Action {
    /// It is the next part, behind which is this place.
    Shifts(Place),
    /// A part begins with it, behind which is this place.
    Enters(Place, Beginning),
    /// It is the second part of a node of which what has been read is the first: the place behind that node, and in it.
    Takes(Place, Place),
    /// The node is whole without it.
    Finishes(Kind),
    /// What has been read is whole, and a part of its own.
    Passes,
    /// It can't stand there.
    Fails,
}

/// What a token does.
#[derive(Clone, Copy)]
pub struct Move {
    /// How many parts are left out before the token.
    pub skipped: usize,
    pub action: Action,
}

fn at_once(action: Action) -> Move
    ensures { plain_move result ≡ plain_action action }
{
    Move { skipped: 0, action }
}

/// A part must begin here.
fn or_fails(behind: Place, beginning: Option<Beginning>) -> Action
    ensures { plain_action result ≡ places.or_fails (plain_place behind) (plain_beginning beginning) }
{
    match beginning {
        Some(beginning) => Action::Enters(behind, beginning),
        None => Action::Fails,
    }
}

/// A part may begin here, or else the node ends.
fn or_ends(behind: Place, beginning: Option<Beginning>, kind: Kind) -> Action
    ensures { plain_action result ≡ places.or_ends (plain_place behind) (plain_beginning beginning) kind }
{
    match beginning {
        Some(beginning) => Action::Enters(behind, beginning),
        None => Action::Finishes(kind),
    }
}

/// What a token does where a slot is next, or nothing if the slot may be left out and is.
fn slot_action(slot: Slot, behind: Place, token: Terminal) -> Option<Action>
    ensures { SlotActs (plain_slot slot) (plain_place behind) token result }
{
    match slot {
        Slot::Word(choices) => {
            if choices.has(token) {
                Some(Action::Shifts(behind))
            } else {
                Some(Action::Fails)
            }
        }
        Slot::Needed(category) => Some(or_fails(behind, part_start(category, token))),
        Slot::Optional(category) => match part_start(category, token) {
            Some(beginning) => Some(Action::Enters(behind, beginning)),
            None => None,
        },
        Slot::Stars => Some(Action::Fails),
    }
}

fn row_move(row: Row, read: usize, token: Terminal) -> Move
    ensures { plain_move result ≡
        places.row_move (row_kind row) (row_place row) (drop read (row_slots row)) token }
{
    let slots = row.slots();
    let mut skipped = 0;
    for place in read..slots.len() {
        let behind = Place::Inside(row, place + 1);
        if let Some(action) = slot_action(slots[place], behind, token) {
            return Move { skipped, action };
        }
        skipped += 1;
    }
    Move {
        skipped,
        action: Action::Finishes(row.kind()),
    }
}

/// An operator takes what has been read as its first operand if that binds tightly enough, and it for the place.
fn operator_action(wanted: u8, own: u8, token: Terminal) -> Action
    ensures { plain_action result ≡ places.operator_move wanted own (places.operator_at token) }
{
    match operator_at(token) {
        Some(operator) if wanted <= level(operator.kind) && operator.left <= own => {
            Action::Takes(
                Place::Operand(wanted),
                Place::Inside(Row::Of(operator.kind), 2),
            )
        }
        _ => Action::Passes,
    }
}

/// Behind a `(`: the type of a cast, or an expression.
fn opened_action(wanted: u8, token: Terminal) -> Action
    ensures { plain_action result ≡ places.opened_move wanted token }
{
    match begun_node(words_start(Wording::Cast, token)) {
        Some(beginning) => {
            if wanted <= level(Kind::Cast) {
                Action::Enters(Place::Inside(Row::Of(Kind::Cast), 2), beginning)
            } else {
                Action::Fails
            }
        }
        None => or_fails(
            Place::Inside(Row::Of(Kind::Parenthesized), 2),
            begun_node(expression_start(1, token)),
        ),
    }
}

fn texts_action(token: Terminal) -> Action
    ensures { plain_action result ≡ places.move places.in_texts token }
{
    match token {
        Terminal::Text => Action::Shifts(Place::InTexts),
        _ => Action::Finishes(Kind::Texts),
    }
}

fn words_action(wording: Wording, words: Words, token: Terminal) -> Action
    ensures { plain_action result ≡ places.words_move (plain_wording wording) (plain_words words) token }
{
    match longer(wording, words, token) {
        Some(longer) => Action::Shifts(Place::InWords(wording, longer)),
        None => {
            if may_end(wording, words.as_slice()) {
                Action::Finishes(Kind::Specifiers)
            } else {
                Action::Fails
            }
        }
    }
}

fn entered_action(kind: Kind, category: Category, token: Terminal) -> Action
    ensures { plain_action result ≡ places.move (places.entered kind (plain_category category)) token }
{
    match token {
        Terminal::Comma => Action::Shifts(Place::SeparatedFrom(kind, category)),
        _ => Action::Finishes(kind),
    }
}

/// A comma behind the last initialiser of a list is lawful.
fn may_end_with_comma(kind: Kind) -> bool
    ensures { result ≡ places.may_end_with_comma kind }
{
    match kind {
        Kind::Initialisers => true,
        _ => false,
    }
}

fn comma_action(kind: Kind, category: Category, token: Terminal) -> Action
    ensures { plain_action result ≡ places.comma_move kind (plain_category category) token }
{
    let behind = Place::Entered(kind, category);
    if may_end_with_comma(kind) {
        or_ends(behind, part_start(category, token), kind)
    } else {
        or_fails(behind, part_start(category, token))
    }
}

fn first_declarator_action(inline: bool, role: Role, token: Terminal) -> Action
    ensures { plain_action result ≡ places.or_fails (places.declaring inline)
        (places.around (places.declarator_at (plain_role role)) (places.begins_declarator (plain_role role) token)) }
{
    or_fails(
        Place::Declaring(inline),
        beginning_of(declarators_start(role, token)),
    )
}

/// Behind `struct` and a name, a definition or declaration of a struct may go on.
fn tagged_action(token: Terminal) -> Action
    ensures { plain_action result ≡ places.specified_move places.by_tag token }
{
    match token {
        Terminal::OpenBrace => Action::Shifts(Place::Inside(Row::Of(Kind::StructDefinition), 2)),
        Terminal::Semicolon => Action::Shifts(Place::Inside(Row::Of(Kind::StructDeclaration), 2)),
        _ => first_declarator_action(false, Role::FileFirst, token),
    }
}

fn specified_action(specified: Specified, token: Terminal) -> Action
    ensures { plain_action result ≡ places.specified_move (plain_specified specified) token }
{
    match specified {
        Specified::ByTag => tagged_action(token),
        Specified::ByInline => first_declarator_action(true, Role::FileInline, token),
        Specified::ByOthers => first_declarator_action(false, Role::FileFirst, token),
    }
}

fn declared_action(inline: bool, flavour: Flavour, token: Terminal) -> Action
    ensures { plain_action result ≡ places.declared_move inline (plain_flavour flavour) token }
{
    match token {
        Terminal::Semicolon if flavour.may_be_declared(inline) => {
            Action::Shifts(Place::Inside(Row::Of(Kind::Declaration), 3))
        }
        Terminal::OpenBrace if flavour.may_be_defined() => or_fails(
            Place::Inside(Row::Of(Kind::Function), 3),
            begun_node(row_start(Kind::Block)),
        ),
        _ => Action::Fails,
    }
}

fn comma_behind_declarator(role: Role, flavour: Flavour) -> Action
    ensures { plain_action result ≡ places.declarator_read_move (plain_role role) (plain_flavour flavour) t.Comma }
{
    if flavour.may_be_declared(role.is_inline()) {
        Action::Shifts(Place::DeclaratorNext(role.later()))
    } else {
        Action::Fails
    }
}

fn assign_behind_declarator(role: Role, flavour: Flavour) -> Action
    ensures { plain_action result ≡ places.declarator_read_move (plain_role role) (plain_flavour flavour) t.Assign }
{
    if flavour.may_be_declared(role.is_inline()) && role.may_be_initialised() {
        Action::Shifts(Place::InitialiserNext(role))
    } else {
        Action::Fails
    }
}

fn declarator_read_action(role: Role, flavour: Flavour, token: Terminal) -> Action
    ensures { plain_action result ≡ places.declarator_read_move (plain_role role) (plain_flavour flavour) token }
{
    match token {
        Terminal::Comma => comma_behind_declarator(role, flavour),
        Terminal::Assign => assign_behind_declarator(role, flavour),
        _ => Action::Finishes(Kind::Declarators),
    }
}

fn initialiser_read_action(role: Role, token: Terminal) -> Action
    ensures { plain_action result ≡ places.initialiser_read_move (plain_role role) token }
{
    match token {
        Terminal::Comma => Action::Shifts(Place::DeclaratorNext(role.later())),
        _ => Action::Finishes(Kind::Declarators),
    }
}

/// A parameter may do without a name.
fn bracket_before_name(role: Role) -> Action
    ensures { plain_action result ≡ places.before_name_move (plain_role role) t.OpenBracket }
{
    match role {
        Role::Parameter => Action::Shifts(Place::Inside(Row::Brackets(false), 1)),
        _ => Action::Fails,
    }
}

fn end_before_name(role: Role) -> Action
    ensures { plain_action result ≡ places.before_name_move (plain_role role) t.Other }
{
    match role {
        Role::Parameter => Action::Finishes(Kind::Declarator),
        _ => Action::Fails,
    }
}

fn before_name_action(role: Role, token: Terminal) -> Action
    ensures { plain_action result ≡ places.before_name_move (plain_role role) token }
{
    match token {
        Terminal::Star => Action::Shifts(Place::BeforeName(role)),
        Terminal::Name => Action::Shifts(Place::BehindName(role)),
        Terminal::OpenBracket => bracket_before_name(role),
        _ => end_before_name(role),
    }
}

fn bracket_behind_name(role: Role) -> Action
    ensures { plain_action result ≡ places.behind_name_move (plain_role role) t.OpenBracket }
{
    match role {
        Role::FileInline => Action::Finishes(Kind::Declarator),
        _ => Action::Shifts(Place::Inside(Row::Brackets(true), 1)),
    }
}

fn parenthesis_behind_name(role: Role) -> Action
    ensures { plain_action result ≡ places.behind_name_move (plain_role role) t.OpenParenthesis }
{
    if role.is_at_file_scope() {
        Action::Shifts(Place::ParametersNext(role))
    } else {
        Action::Finishes(Kind::Declarator)
    }
}

fn behind_name_action(role: Role, token: Terminal) -> Action
    ensures { plain_action result ≡ places.behind_name_move (plain_role role) token }
{
    match token {
        Terminal::OpenBracket => bracket_behind_name(role),
        Terminal::OpenParenthesis => parenthesis_behind_name(role),
        _ => Action::Finishes(Kind::Declarator),
    }
}

/// A function without parameters must be defined, so it is the first declarator.
fn no_parameters(role: Role) -> Move
    ensures { plain_move result ≡ places.parameters_next_move (plain_role role) t.CloseParenthesis }
{
    match role {
        Role::FileLater => at_once(Action::Fails),
        _ => Move {
            skipped: 1,
            action: Action::Shifts(Place::BehindParameters(Flavour::Empty)),
        },
    }
}

fn parameters_next_move(role: Role, token: Terminal) -> Move
    ensures { plain_move result ≡ places.parameters_next_move (plain_role role) token }
{
    match token {
        Terminal::CloseParenthesis => no_parameters(role),
        _ => at_once(or_fails(
            Place::ParametersRead(role, Flavour::Empty),
            parameters_start(role.is_inline(), token),
        )),
    }
}

fn parameters_read_action(role: Role, flavour: Flavour, token: Terminal) -> Action
    ensures { plain_action result ≡ places.parameters_read_move (plain_role role) (plain_flavour flavour) token }
{
    match token {
        Terminal::CloseParenthesis if !role.is_inline() || flavour.may_be_defined() => {
            Action::Shifts(Place::BehindParameters(flavour))
        }
        _ => Action::Fails,
    }
}

fn parameter_read_action(inline: bool, naming: Naming, token: Terminal) -> Action
    ensures { plain_action result ≡ places.parameter_read_move inline (plain_naming naming) token }
{
    match token {
        Terminal::Comma if naming.may_go_on(inline) => {
            Action::Shifts(Place::ParameterNext(inline, naming))
        }
        Terminal::Comma => Action::Fails,
        _ => Action::Finishes(Kind::Parameters),
    }
}

fn parameter_role(inline: bool) -> Role
    ensures { plain_role result ≡ places.parameter_role inline }
{
    if inline {
        Role::InlineParameter
    } else {
        Role::Parameter
    }
}

fn parameter_typed_move(inline: bool, token: Terminal) -> Move
    ensures { plain_move result ≡ places.parameter_typed_move inline token }
{
    match begun_node(declarator_start(parameter_role(inline), token)) {
        Some(beginning) => at_once(Action::Enters(
            Place::ParameterDeclared(Naming::Unnamed),
            beginning,
        )),
        None => Move {
            skipped: 1,
            action: Action::Finishes(Kind::Parameter),
        },
    }
}

/// What the next token does in a place.
pub fn next_move(place: Place, token: Terminal) -> Move
    ensures { plain_move result ≡ places.move (plain_place place) token }
{
    match place {
        Place::Inside(row, read) => row_move(row, read, token),
        Place::Operator(wanted, own) => at_once(operator_action(wanted, own, token)),
        Place::Opened(wanted) => at_once(opened_action(wanted, token)),
        Place::InTexts => at_once(texts_action(token)),
        Place::InWords(wording, words) => at_once(words_action(wording, words, token)),
        Place::InList(kind, category) => {
            at_once(or_ends(place, part_start(category, token), kind))
        }
        Place::Entered(kind, category) => at_once(entered_action(kind, category, token)),
        Place::SeparatedFrom(kind, category) => at_once(comma_action(kind, category, token)),
        Place::Specified(specified) => at_once(specified_action(specified, token)),
        Place::Declared(inline, flavour) => at_once(declared_action(inline, flavour, token)),
        Place::DeclaratorRead(role, flavour) => {
            at_once(declarator_read_action(role, flavour, token))
        }
        Place::DeclaratorNext(role) => at_once(or_fails(
            Place::DeclaratorAt(role),
            begun_node(declarator_start(role, token)),
        )),
        Place::InitialiserNext(role) => at_once(or_fails(
            Place::InitialiserRead(role),
            begun_node(initialiser_start(token)),
        )),
        Place::InitialiserRead(role) => at_once(initialiser_read_action(role, token)),
        Place::BeforeName(role) => at_once(before_name_action(role, token)),
        Place::BehindName(role) => at_once(behind_name_action(role, token)),
        Place::ParametersNext(role) => parameters_next_move(role, token),
        Place::ParametersRead(role, flavour) => {
            at_once(parameters_read_action(role, flavour, token))
        }
        Place::BehindParameters(_) => at_once(Action::Finishes(Kind::FunctionDeclarator)),
        Place::ParameterRead(inline, naming) => {
            at_once(parameter_read_action(inline, naming, token))
        }
        Place::ParameterNext(inline, naming) => at_once(or_fails(
            Place::ParameterAt(inline, Some(naming)),
            beginning_of(parameter_start(inline, token)),
        )),
        Place::ParameterTyped(inline, _) => parameter_typed_move(inline, token),
        Place::ParameterDeclared(_) => at_once(Action::Finishes(Kind::Parameter)),
        Place::Operand(_)
        | Place::Specifying
        | Place::Declaring(_)
        | Place::DeclaratorAt(_)
        | Place::ParameterAt(..)
        | Place::ParameterBegins(_) => at_once(Action::Fails),
    }
}
