//! Places that are the same, places at which nodes end, and those behind parts that are left out.

ghost use Rattle.std.specs.Prelude.{◌≡◌, IsTrue};
ghost use Rattle.choice_states.specs.Lists.{left_out};
ghost use Rattle.c_tree.specs.Places.{Place as PlainPlace, back};
ghost use Rattle.grammar_moves.specs.PlainPlaces.{plain_place};

use c_tree::Kind;
use grammar_moves::{Category, Flavour, Naming, Place, Role, Row};

/// Whether the kinds are the same.
pub fn is_same_kind(a: Kind, b: Kind) -> bool
    ensures { IsTrue result → a ≡ b }
{
    a == b
}

fn is_same_row(a: Row, b: Row) -> bool
    ensures { IsTrue result → a ≡ b }
{
    match (a, b) {
        (Row::Of(a), Row::Of(b)) => a == b,
        (Row::Brackets(a), Row::Brackets(b)) => a == b,
        _ => false,
    }
}

fn is_same_category(a: Category, b: Category) -> bool
    ensures { IsTrue result → a ≡ b }
{
    match (a, b) {
        (Category::Expression(a), Category::Expression(b)) => a == b,
        (Category::Initialiser, Category::Initialiser) => true,
        (Category::Item, Category::Item) => true,
        (Category::Member, Category::Member) => true,
        (Category::FileItem, Category::FileItem) => true,
        _ => false,
    }
}

fn is_same_flavour(a: Flavour, b: Flavour) -> bool
    ensures { IsTrue result → a ≡ b }
{
    match (a, b) {
        (Flavour::Object, Flavour::Object) => true,
        (Flavour::Empty, Flavour::Empty) => true,
        (Flavour::Definable, Flavour::Definable) => true,
        (Flavour::Prototype, Flavour::Prototype) => true,
        _ => false,
    }
}

fn is_same_naming(a: Naming, b: Naming) -> bool
    ensures { IsTrue result → a ≡ b }
{
    match (a, b) {
        (Naming::LoneVoid, Naming::LoneVoid) => true,
        (Naming::Named, Naming::Named) => true,
        (Naming::Unnamed, Naming::Unnamed) => true,
        _ => false,
    }
}

fn is_same_in_declarator(a: Place, b: Place) -> bool
    ensures { IsTrue result → a ≡ b }
{
    match (a, b) {
        (Place::DeclaratorRead(a, f), Place::DeclaratorRead(b, g)) => {
            a == b && is_same_flavour(f, g)
        }
        (Place::DeclaratorNext(a), Place::DeclaratorNext(b)) => a == b,
        (Place::InitialiserNext(a), Place::InitialiserNext(b)) => a == b,
        (Place::InitialiserRead(a), Place::InitialiserRead(b)) => a == b,
        (Place::BeforeName(a), Place::BeforeName(b)) => a == b,
        (Place::BehindName(a), Place::BehindName(b)) => a == b,
        _ => false,
    }
}

fn is_same_in_parameters(a: Place, b: Place) -> bool
    ensures { IsTrue result → a ≡ b }
{
    match (a, b) {
        (Place::ParametersNext(a), Place::ParametersNext(b)) => a == b,
        (Place::ParametersRead(a, f), Place::ParametersRead(b, g)) => {
            a == b && is_same_flavour(f, g)
        }
        (Place::BehindParameters(f), Place::BehindParameters(g)) => is_same_flavour(f, g),
        (Place::ParameterRead(a, m), Place::ParameterRead(b, n)) => {
            a == b && is_same_naming(m, n)
        }
        (Place::ParameterNext(a, m), Place::ParameterNext(b, n)) => {
            a == b && is_same_naming(m, n)
        }
        (Place::ParameterDeclared(m), Place::ParameterDeclared(n)) => is_same_naming(m, n),
        _ => false,
    }
}

/// Whether the places are the same. A `false` says nothing: of some places it isn't worth asking.
pub fn is_same_place(a: Place, b: Place) -> bool
    ensures { IsTrue result → a ≡ b }
{
    match (a, b) {
        (Place::Inside(a, m), Place::Inside(b, n)) => is_same_row(a, b) && m == n,
        (Place::Operator(a, m), Place::Operator(b, n)) => a == b && m == n,
        (Place::InTexts, Place::InTexts) => true,
        (Place::InList(a, c), Place::InList(b, d)) => is_same_kind(a, b) && is_same_category(c, d),
        (Place::Entered(a, c), Place::Entered(b, d)) => is_same_kind(a, b)
            && is_same_category(c, d),
        (Place::SeparatedFrom(a, c), Place::SeparatedFrom(b, d)) => {
            is_same_kind(a, b) && is_same_category(c, d)
        }
        (Place::Declared(a, f), Place::Declared(b, g)) => a == b && is_same_flavour(f, g),
        (a, b) => is_same_in_declarator(a, b) || is_same_in_parameters(a, b),
    }
}

/// A place that says as much of a node as the one at which it ended: of declarators that are no function the role says nothing.
pub fn ending(ended: Place) -> Place
    ensures { (behind : PlainPlace) → back behind (plain_place result) ≡ back behind (plain_place ended) }
{
    match ended {
        Place::DeclaratorRead(_, Flavour::Object) => {
            Place::DeclaratorRead(Role::FileLater, Flavour::Object)
        }
        Place::InitialiserRead(_) => Place::DeclaratorRead(Role::FileLater, Flavour::Object),
        ended => ended,
    }
}

/// The place behind so many parts that are left out.
pub fn behind_left_out(place: Place, count: usize) -> Place
    ensures { plain_place result ≡ left_out count (plain_place place) }
{
    match place {
        Place::Inside(row, read) => Place::Inside(row, read.saturating_add(count)),
        place => place,
    }
}
