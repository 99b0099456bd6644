//! The words of types and of storage.

ghost use Rattle.std.specs.Prelude.{◌≡◌, ◌++◌, [], ◌∷◌, map, IfSome, IsNone, false};
ghost use Rattle.std.specs.List.{list_any, slice_get};
ghost use Rattle.std.specs.Option.{option_map_or};
ghost use Rattle.c_tree.specs.Terminals.{same};
ghost use Rattle.c_tree.specs.Places as places;
ghost use Rattle.grammar_moves.specs.PlainPlaces.{plain_wording, plain_words};
ghost use Rattle.grammar_moves.specs.WordLists.{storages_of, types_of, Lengthens};

use crate::words::{Wording, Words};
use c_tree::Terminal;

/// The words of storage that may stand first.
fn storages(wording: Wording) -> &'static [&'static [Terminal]]
    ensures { map (λ words. words.now) result.now ≡ storages_of wording }
{
    match wording {
        Wording::Cast | Wording::Type => &[&[]],
        Wording::File => &[
            &[],
            &[Terminal::Static],
            &[Terminal::Static, Terminal::Inline],
            &[Terminal::Extern],
        ],
    }
}

/// The words of types.
fn types(wording: Wording) -> &'static [&'static [Terminal]]
    ensures { map (λ words. words.now) result.now ≡ types_of wording }
{
    match wording {
        Wording::Cast => &[
            &[Terminal::Void],
            &[Terminal::Char],
            &[Terminal::Unsigned, Terminal::Char],
            &[Terminal::Int],
            &[Terminal::Unsigned],
            &[Terminal::Unsigned, Terminal::Int],
            &[Terminal::Long],
            &[Terminal::Long, Terminal::Int],
            &[Terminal::Unsigned, Terminal::Long],
            &[Terminal::Unsigned, Terminal::Long, Terminal::Int],
        ],
        Wording::Type | Wording::File => &[
            &[Terminal::Struct, Terminal::Name],
            &[Terminal::Void],
            &[Terminal::Char],
            &[Terminal::Unsigned, Terminal::Char],
            &[Terminal::Int],
            &[Terminal::Unsigned],
            &[Terminal::Unsigned, Terminal::Int],
            &[Terminal::Long],
            &[Terminal::Long, Terminal::Int],
            &[Terminal::Unsigned, Terminal::Long],
            &[Terminal::Unsigned, Terminal::Long, Terminal::Int],
        ],
    }
}

/// The word at a place in two lists, one behind the other.
fn word_at(first: &[Terminal], second: &[Terminal], place: usize) -> Option<Terminal>
    ensures { result ≡ slice_get (first.now ++ second.now) place }
{
    if place < first.len() {
        Some(first[place])
    } else {
        second.get(place - first.len()).copied()
    }
}

fn is_there(word: Terminal, other: Option<Terminal>) -> bool
    ensures { result ≡ option_map_or (same word) other false }
{
    match other {
        Some(other) => word.is(other),
        None => false,
    }
}

/// Whether the two lists, one behind the other, begin with the words.
fn begins_with(words: &[Terminal], first: &[Terminal], second: &[Terminal]) -> bool
    ensures { result ≡ places.goes_on words.now (first.now ++ second.now) }
{
    for (place, word) in words.iter().enumerate() {
        if !is_there(*word, word_at(first, second, place)) {
            return false;
        }
    }
    true
}

/// Whether the words are the two lists, one behind the other.
fn are_both(words: &[Terminal], first: &[Terminal], second: &[Terminal]) -> bool
    ensures { result ≡ places.are_same words.now (first.now ++ second.now) }
{
    words.len() == first.len() + second.len() && begins_with(words, first, second)
}

fn some_type_begins(words: &[Terminal], storage: &[Terminal], types: &[&[Terminal]]) -> bool
    ensures { result ≡ list_any (λ other. places.goes_on words.now (storage.now ++ other.now)) types.now }
{
    types.iter().any(|other| begins_with(words, storage, other))
}

fn some_begins(words: &[Terminal], storages: &[&[Terminal]], types: &[&[Terminal]]) -> bool
    ensures { result ≡ list_any (λ storage.
        list_any (λ other. places.goes_on words.now (storage.now ++ other.now)) types.now) storages.now }
{
    storages
        .iter()
        .any(|storage| some_type_begins(words, storage, types))
}

/// Whether some list of words begins with these.
pub fn may_go_on(wording: Wording, words: &[Terminal]) -> bool
    ensures { result ≡ list_any (places.goes_on words.now) (places.wordings (plain_wording wording)) }
{
    some_begins(words, storages(wording), types(wording))
}

fn some_type_is(words: &[Terminal], storage: &[Terminal], types: &[&[Terminal]]) -> bool
    ensures { result ≡ list_any (λ other. places.are_same words.now (storage.now ++ other.now)) types.now }
{
    types.iter().any(|other| are_both(words, storage, other))
}

fn some_is(words: &[Terminal], storages: &[&[Terminal]], types: &[&[Terminal]]) -> bool
    ensures { result ≡ list_any (λ storage.
        list_any (λ other. places.are_same words.now (storage.now ++ other.now)) types.now) storages.now }
{
    storages
        .iter()
        .any(|storage| some_type_is(words, storage, types))
}

/// Whether some list of words is these.
pub fn may_end(wording: Wording, words: &[Terminal]) -> bool
    ensures { result ≡ list_any (places.are_same words.now) (places.wordings (plain_wording wording)) }
{
    some_is(words, storages(wording), types(wording))
}

/// The words with one more, if some list of words begins with them.
pub fn longer(wording: Wording, words: Words, word: Terminal) -> Option<Words>
    ensures longer { IfSome result (Lengthens wording words word) }
    ensures none { IsNone result →
        list_any (places.goes_on (plain_words words ++ word ∷ [])) (places.wordings (plain_wording wording))
        ≡ false }
{
    let longer = words.with(word)?;
    if may_go_on(wording, longer.as_slice()) {
        Some(longer)
    } else {
        None
    }
}

/// Whether the words are these.
pub fn are_same(words: &[Terminal], others: &[Terminal]) -> bool
    ensures { result ≡ places.are_same words.now others.now }
{
    are_both(words, others, &[])
}

/// Whether a word is among the words.
pub fn has_word(words: &[Terminal], word: Terminal) -> bool
    ensures { result ≡ list_any (same word) words.now }
{
    words.iter().any(|other| word.is(*other))
}
