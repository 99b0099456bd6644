//! Lists that have begun only where they have an entry.

ghost use Rattle.std.specs.Prelude.{◌≡◌, ◌+◌, ◌==◌, [], ◌∷◌, drop, IsTrue, IfSome, IsNone, if◌then◌else◌};
ghost use Rattle.c_tree.specs.Grammar.{row};
ghost use Rattle.c_tree.specs.Places.{inside, in_list, separated_from, declarator_next};
ghost use Rattle.grammar_moves.specs.declared.places.Place.TheVariants.{Inside};
ghost use Rattle.grammar_moves.specs.Slots.{plain_category, plain_role};
ghost use Rattle.grammar_moves.specs.PlainPlaces.{plain_place, plain_around};
ghost use Rattle.choice_states.specs.Lists as lists;
ghost use Rattle.choice_states.specs.Lists.{list_part, around_of, is_around_list};

use c_tree::Kind;
use grammar_moves::{Category, Place, Role, Row};

/// A list may begin here: the place behind it, and the place in it before its first entry.
pub fn list_at(place: Place) -> Option<(Place, Place)>
    ensures list { IfSome result (λ list. around_of (plain_place list.1) (plain_place list.0) ≡ plain_place place ∷ []) }
    ensures node { IfSome result (λ list. IsTrue (is_around_list (plain_place place))) }
{
    match place {
        Place::Inside(Row::Of(Kind::Block), 1) => Some((
            Place::Inside(Row::Of(Kind::Block), 2),
            Place::InList(Kind::Items, Category::Item),
        )),
        Place::Inside(Row::Of(Kind::StructDefinition), 2) => Some((
            Place::Inside(Row::Of(Kind::StructDefinition), 3),
            Place::InList(Kind::Members, Category::Member),
        )),
        Place::Inside(Row::Of(Kind::Call), 2) => Some((
            Place::Inside(Row::Of(Kind::Call), 3),
            Place::SeparatedFrom(Kind::Arguments, Category::Expression(1)),
        )),
        Place::Inside(Row::Of(Kind::Braces), 1) => Some((
            Place::Inside(Row::Of(Kind::Braces), 2),
            Place::SeparatedFrom(Kind::Initialisers, Category::Initialiser),
        )),
        Place::Inside(Row::Of(Kind::LocalDeclaration), 1) => Some((
            Place::Inside(Row::Of(Kind::LocalDeclaration), 2),
            Place::DeclaratorNext(Role::Local),
        )),
        Place::Inside(Row::Of(Kind::Member), 1) => Some((
            Place::Inside(Row::Of(Kind::Member), 2),
            Place::DeclaratorNext(Role::Member),
        )),
        _ => None,
    }
}

/// Whether this place in a list without commas is before an entry of the list in a node of a kind.
fn is_before_next(list: Kind, category: Category, kind: Kind) -> bool
    ensures { result ≡ lists.is_before_entry (in_list list (plain_category category)) kind }
{
    match list {
        Kind::Items => match category {
            Category::Item => match kind {
                Kind::Block => true,
                _ => false,
            },
            _ => false,
        },
        Kind::Members => match category {
            Category::Member => match kind {
                Kind::StructDefinition => true,
                _ => false,
            },
            _ => false,
        },
        _ => false,
    }
}

/// Whether this place in a list with commas is.
fn is_before_separated(list: Kind, category: Category, kind: Kind) -> bool
    ensures { result ≡ lists.is_before_entry (separated_from list (plain_category category)) kind }
{
    match list {
        Kind::Arguments => match category {
            Category::Expression(wanted) => match kind {
                Kind::Call => wanted == 1,
                _ => false,
            },
            _ => false,
        },
        Kind::Initialisers => match category {
            Category::Initialiser => match kind {
                Kind::Braces => true,
                _ => false,
            },
            _ => false,
        },
        _ => false,
    }
}

/// Whether this place before a declarator is.
fn is_before_declarator(role: Role, kind: Kind) -> bool
    ensures { result ≡ lists.is_before_entry (declarator_next (plain_role role)) kind }
{
    match role {
        Role::Local => match kind {
            Kind::LocalDeclaration => true,
            _ => false,
        },
        Role::Member => match kind {
            Kind::Member => true,
            _ => false,
        },
        _ => false,
    }
}

fn is_before_entry(before: Place, kind: Kind) -> bool
    ensures { result ≡ lists.is_before_entry (plain_place before) kind }
{
    match before {
        Place::InList(list, category) => is_before_next(list, category, kind),
        Place::SeparatedFrom(list, category) => is_before_separated(list, category, kind),
        Place::DeclaratorNext(role) => is_before_declarator(role, kind),
        _ => false,
    }
}

/// The place before this part of a node, if it is the last one read.
fn before_part(kind: Kind, part: usize, read: usize) -> Option<Place>
    ensures { plain_around result ≡ (if read == part + 1 then inside kind (drop part (row kind)) ∷ [] else []) }
{
    if read > 0 && read - 1 == part {
        Some(Place::Inside(Row::Of(kind), part))
    } else {
        None
    }
}

/// The place before the list in a node of a kind, if it is the last part read.
#[tactic(auto, using(crate::proofs::ListPlaces::list_rows))]
fn before_list(kind: Kind, read: usize) -> Option<Place>
    ensures place { plain_around result ≡ lists.before_list kind (drop read (row kind)) (list_part kind) }
    ensures node { IfSome result (λ place. IsTrue (is_around_list (plain_place place))) }
{
    match kind {
        Kind::Block => before_part(Kind::Block, 1, read),
        Kind::StructDefinition => before_part(Kind::StructDefinition, 2, read),
        Kind::Call => before_part(Kind::Call, 2, read),
        Kind::Braces => before_part(Kind::Braces, 1, read),
        Kind::LocalDeclaration => before_part(Kind::LocalDeclaration, 1, read),
        Kind::Member => before_part(Kind::Member, 1, read),
        _ => None,
    }
}

/// The same, if the other place is before an entry of the list.
fn around_in(before: Place, kind: Kind, read: usize) -> Option<Place>
    ensures place { plain_around result ≡ around_of (plain_place before) (inside kind (drop read (row kind))) }
    ensures node { IfSome result (λ place. IsTrue (is_around_list (plain_place place))) }
{
    if is_before_entry(before, kind) {
        before_list(kind, read)
    } else {
        None
    }
}

fn around_row(before: Place, row: Row, read: usize) -> Option<Place>
    ensures place { plain_around result ≡ around_of (plain_place before) (plain_place (Inside row read)) }
    ensures node { IfSome result (λ place. IsTrue (is_around_list (plain_place place))) }
{
    match row {
        Row::Of(kind) => around_in(before, kind, read),
        Row::Brackets(_) => None,
    }
}

fn place_around(before: Place, behind: Place) -> Option<Place>
    ensures place { plain_around result ≡ around_of (plain_place before) (plain_place behind) }
    ensures node { IfSome result (λ place. IsTrue (is_around_list (plain_place place))) }
{
    match behind {
        Place::Inside(row, read) => around_row(before, row, read),
        _ => None,
    }
}

/// The place around a list that hasn't begun, by its place before an entry and the place behind it, if there is such a list.
#[tactic(auto, using(crate::proofs::ListPlaces::place_there, crate::proofs::ListPlaces::no_place))]
pub fn around(before: Place, behind: Place) -> Option<Place>
    ensures around { IfSome result (λ place. around_of (plain_place before) (plain_place behind) ≡ plain_place place ∷ []) }
    ensures none { IsNone result → around_of (plain_place before) (plain_place behind) ≡ [] }
    ensures node { IfSome result (λ place. IsTrue (is_around_list (plain_place place))) }
{
    place_around(before, behind)
}
