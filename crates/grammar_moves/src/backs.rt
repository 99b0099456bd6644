//! Where a reader stands behind a part.

ghost use Rattle.std.specs.Prelude.{◌≡◌};
ghost use Rattle.c_tree.specs.Places as places;
ghost use Rattle.grammar_moves.specs.Slots.{plain_role};
ghost use Rattle.grammar_moves.specs.PlainPlaces.{plain_words, plain_specified, plain_flavour, plain_naming, plain_place};

use crate::levels::{PRIMARY, level};
use crate::places::{Flavour, Naming, Place, Specified, joined_naming};
use crate::rows::Row;
use crate::slots::Role;
use crate::wordings::{are_same, has_word};
use crate::words::Words;
use c_tree::Terminal;

/// How tightly an expression binds, by the place at which it ended.
fn level_at(ended: Place) -> u8
    ensures { result ≡ places.level_at (plain_place ended) }
{
    match ended {
        Place::Inside(Row::Of(kind), _) => level(kind),
        _ => PRIMARY,
    }
}

fn specified_by(words: &[Terminal]) -> Specified
    ensures { plain_specified result ≡ places.specified_by words.now }
{
    if are_same(words, &[Terminal::Struct, Terminal::Name]) {
        Specified::ByTag
    } else if has_word(words, Terminal::Inline) {
        Specified::ByInline
    } else {
        Specified::ByOthers
    }
}

fn words_at(ended: Place) -> Words
    ensures { plain_words result ≡ places.words_at (plain_place ended) }
{
    match ended {
        Place::InWords(_, words) => words,
        _ => Words::none(),
    }
}

fn flavour_of_read(role: Role, flavour: Flavour) -> Flavour
    ensures { plain_flavour result ≡
        places.flavour_at (places.declarator_read (plain_role role) (plain_flavour flavour)) }
{
    match role {
        Role::FileFirst | Role::FileInline => flavour,
        _ => Flavour::Object,
    }
}

/// What a declarator is, by the place at which it ended.
fn flavour_at(ended: Place) -> Flavour
    ensures { plain_flavour result ≡ places.flavour_at (plain_place ended) }
{
    match ended {
        Place::BehindParameters(flavour) => flavour,
        Place::ParameterRead(_, naming) => naming.flavour(),
        Place::DeclaratorRead(role, flavour) => flavour_of_read(role, flavour),
        _ => Flavour::Object,
    }
}

/// What a parameter is, by the place at which it or its declarator ended.
fn naming_at(ended: Place) -> Naming
    ensures { plain_naming result ≡ places.naming_at (plain_place ended) }
{
    match ended {
        Place::BehindName(_) => Naming::Named,
        Place::Inside(Row::Brackets(true), _) => Naming::Named,
        Place::ParameterTyped(_, true) => Naming::LoneVoid,
        Place::ParameterDeclared(naming) => naming,
        _ => Naming::Unnamed,
    }
}

/// The place behind a part, by the place to come back to and the one at which the part ended.
pub fn back(place: Place, ended: Place) -> Place
    ensures { plain_place result ≡ places.back (plain_place place) (plain_place ended) }
{
    match place {
        Place::Operand(wanted) => Place::Operator(wanted, level_at(ended)),
        Place::Specifying => Place::Specified(specified_by(words_at(ended).as_slice())),
        Place::Declaring(inline) => Place::Declared(inline, flavour_at(ended)),
        Place::DeclaratorAt(role) => Place::DeclaratorRead(role, flavour_at(ended)),
        Place::ParametersRead(role, _) => Place::ParametersRead(role, flavour_at(ended)),
        Place::ParameterAt(inline, before) => {
            Place::ParameterRead(inline, joined_naming(before, naming_at(ended)))
        }
        Place::ParameterBegins(inline) => {
            Place::ParameterTyped(
                inline,
                are_same(words_at(ended).as_slice(), &[Terminal::Void]),
            )
        }
        Place::ParameterDeclared(_) => Place::ParameterDeclared(naming_at(ended)),
        _ => place,
    }
}
