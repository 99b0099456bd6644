//! What is done with each item of a list.
ghost use Rattle.std.specs.Prelude.{◌≡◌, map};
ghost use Rattle.std.specs.Option.{option_map};
ghost use Rattle.c_text.specs.Macros as spec;
ghost use Rattle.plain_macros.specs.PlainItems.{plain_item, item_token};
ghost use Rattle.plain_macros.specs.PlainMeanings.{plain_meaning};
ghost use Rattle.plain_macros.specs.PlainTables.{table_of};
ghost use Rattle.plain_macros.specs.PlainLevels.{plain_kind};

use crate::items::Item;
use crate::meaning::Meaning;
use crate::table::Table;
use c_text::{Token, TokenKind};
use std::alloc::Global;

/// How a list is replaced.
#[derive(Clone, Copy)]
pub struct Level<'table, 'list, 'level> {
    pub alloc: Global,
    pub table: &'table Table,
    /// The names of the macros in whose replacement the list stands.
    pub active: &'level [Item<'table, 'list>],
    /// How many levels of lists may still stand below.
    pub left: u32,
}

/// What is done with an item outside calls.
pub enum Kind<'table, 'list> {
    Stays(Item<'table, 'list>),
    Feature(&'table Token),
    Object(&'table [Token]),
    Call {
        params: &'table [Vec<u8>],
        body: &'table [Token],
    },
}

/// What may replace an item: a name that was kept because it was active has no meaning.
#[tactic(auto, unfolding(crate::specs::PlainItems::plain_item))]
fn meaning_of<'table, 'list>(
    table: &'table Table,
    item: &Item<'table, 'list>,
) -> Option<&'table Meaning>
    ensures { option_map (λ m. plain_meaning m.now) result ≡ spec.meaning_of (table_of table.now) (plain_item item.now) }
{
    let token = item.source.token();
    if token.kind == TokenKind::Name && !item.kept {
        table.get(token.text.as_slice())
    } else {
        None
    }
}

fn is_function_name(table: &Table, item: &Item<'_, '_>) -> bool
    ensures { result ≡ spec.is_function (spec.meaning_of (table_of table.now) (plain_item item.now)) }
{
    match meaning_of(table, item) {
        Some(Meaning::Function { .. }) => true,
        _ => false,
    }
}

/// Whether the last item is a function-like macro's name that may still be replaced.
pub fn ends_in_function(table: &Table, items: &[Item<'_, '_>]) -> bool
    ensures { result ≡ spec.ends_in_function (table_of table.now) (map plain_item items.now) }
{
    match items {
        [.., last] => is_function_name(table, last),
        [] => false,
    }
}

/// Whether the token is the name of a macro that is active.
#[tactic(auto, unfolding(crate::specs::PlainItems::plain_item))]
fn is_active(active: &[Item<'_, '_>], item: &Item<'_, '_>) -> bool
    ensures { result ≡ spec.is_named_in (map (λ name. (item_token name).text) active.now) (item_token item.now) }
{
    for name in active {
        if item.source.token().text.as_slice() == name.source.token().text.as_slice() {
            return true;
        }
    }
    false
}

fn kind_of_meaning<'table, 'list>(
    item: &Item<'table, 'list>,
    active: bool,
    opens: bool,
    meaning: &'table Meaning,
) -> Kind<'table, 'list>
    ensures { plain_kind result ≡ spec.treatment (plain_item item.now) active opens (Some (plain_meaning meaning.now)) }
{
    if active {
        return Kind::Stays(item.kept());
    }
    match meaning {
        Meaning::Feature(one) => Kind::Feature(one),
        Meaning::Object(body) => Kind::Object(body.as_slice()),
        Meaning::Function { params, body } if opens => Kind::Call {
            params: params.as_slice(),
            body: body.as_slice(),
        },
        Meaning::Function { .. } => Kind::Stays(*item),
    }
}

/// What is done with an item, by whether a `(` follows it.
pub fn kind_of<'table, 'list>(
    level: &Level<'table, 'list, '_>,
    item: &Item<'table, 'list>,
    opens: bool,
) -> Kind<'table, 'list>
    ensures { plain_kind result ≡ spec.treatment (plain_item item.now) (spec.is_named_in (map (λ name. (item_token name).text) level.now.active.now) (item_token item.now)) opens (spec.meaning_of (table_of level.now.table.now) (plain_item item.now)) }
{
    match meaning_of(level.table, item) {
        None => Kind::Stays(*item),
        Some(meaning) => kind_of_meaning(item, is_active(level.active, item), opens, meaning),
    }
}
