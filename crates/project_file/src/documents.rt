//! TOML documents: what their keys hold.
ghost use Rattle.std.specs.Prelude.{◌≡◌, not, Some, option_copied, IfOk, MatchOption, MatchResult, map, string_bytes, option_map};
ghost use Rattle.std.specs.List.{find, list_any};
ghost use Rattle.std.specs.Str.{bytes_eq};
ghost use Rattle.std.specs.BTreeMap.{keys, IsOrdered};
ghost use Rattle.std.specs.String.{string_cmp};
ghost use Rattle.toml.specs.Data.{string, get_member};
ghost use Rattle.toml.specs.View.{view, table_view, items_view};
ghost use Rattle.project_file.specs.Documents as spec;
ghost use Rattle.project_file.specs.View.{Finds, Why, strings_view};
ghost use Rattle.project_file.specs.Checks.{IsTomlFault};

use crate::errors::ProjectError;
use std::alloc::{AllocError, Global};
use toml::{Table, Value};

/// The table of a TOML document.
pub(crate) fn document(alloc: Global, bytes: &[u8]) -> Result<Table, ProjectError>
    ensures { MatchResult result (λ table. spec.IsToml bytes.now (table_view table)) (Why (IsTomlFault bytes.now) ⊥) }
{
    match toml::table_from_slice(alloc, bytes) {
        Ok(table) => Ok(table),
        Err(error) => {
            if error.is_memory() {
                return Err(ProjectError::Memory);
            }
            Err(ProjectError::NotToml)
        }
    }
}

/// Whether the text is among these.
fn is_among(texts: &[&str], text: &str) -> bool
    ensures { result ≡ list_any (λ other. bytes_eq text.now other.now) texts.now }
{
    texts.iter().any(|other| text == *other)
}

/// Whether the key is among those that are listed.
fn is_listed(listed: &[&str], key: &str) -> bool
    ensures { result ≡ spec.is_listed (map (λ other. other.now) listed.now) key.now }
{
    is_among(listed, key)
}

/// The first key, in the order of the table, that isn't listed.
fn first_key_unlisted<'a>(table: &'a Table, listed: &[&str]) -> Option<&'a String>
    ensures found { option_copied result ≡ find (λ key. not (spec.is_listed (map (λ other. other.now) listed.now) (string_bytes key))) (keys table.now) }
    ensures ordered { IsOrdered string_cmp table.now }
{
    table.keys().find(|key| !is_listed(listed, key.as_str()))
}

/// The first key of the table, in byte order, that isn't listed.
pub(crate) fn first_unlisted<'a>(table: &'a Table, listed: &[&str]) -> Option<&'a str>
    ensures { MatchOption result
        (spec.AllListed (map (λ key. key.now) listed.now) (table_view table.now))
        (λ key. spec.IsFirstUnlisted (map (λ key. key.now) listed.now) (table_view table.now) key.now) }
{
    match first_key_unlisted(table, listed) {
        Some(key) => Some(key.as_str()),
        None => None,
    }
}

/// The value that a key holds.
pub(crate) fn value_at<'a>(table: &'a Table, key: &str) -> Option<&'a Value>
    ensures { option_map (λ value. view value.now) result ≡ get_member key.now (table_view table.now) }
{
    table.get(key)
}

/// The texts of an array of strings.
fn strings_in(alloc: Global, values: &[Value]) -> Result<Option<Vec<String>>, AllocError>
    ensures { IfOk result (Finds strings_view (λ texts. items_view values.now ≡ spec.strings texts)) }
{
    let mut texts = Vec::new(alloc);
    for value in values {
        match value.as_str() {
            Some(text) => texts.push(String::from_str(alloc, text)?)?,
            None => return Ok(None),
        }
    }
    Ok(Some(texts))
}

/// The texts of a value, if that is an array of strings.
fn strings_of(alloc: Global, value: &Value) -> Result<Option<Vec<String>>, AllocError>
    ensures { IfOk result (Finds strings_view (spec.AreStrings (Some (view value.now)))) }
{
    match value.as_array() {
        None => Ok(None),
        Some(values) => {
            let texts = strings_in(alloc, values)?;
            Ok(texts)
        }
    }
}

/// The texts of the array of strings that a key holds; none where the key isn't there.
pub(crate) fn strings_at(
    alloc: Global,
    table: &Table,
    key: &str,
) -> Result<Option<Vec<String>>, AllocError>
    ensures { IfOk result (Finds strings_view (spec.AreStrings (get_member key.now (table_view table.now)))) }
{
    match value_at(table, key) {
        None => Ok(Some(Vec::new(alloc))),
        Some(value) => {
            let texts = strings_of(alloc, value)?;
            Ok(texts)
        }
    }
}

/// The string that a key holds.
pub(crate) fn string_at<'a>(table: &'a Table, key: &str) -> Option<&'a str>
    ensures { Finds (λ text. text.now) (λ text. get_member key.now (table_view table.now) ≡ Some (string text)) result }
{
    match value_at(table, key) {
        Some(value) => value.as_str(),
        None => None,
    }
}

/// The string that a key holds, if it is there; `None` where it holds another value.
pub(crate) fn optional_string_at(
    alloc: Global,
    table: &Table,
    key: &str,
) -> Result<Option<Option<String>>, AllocError>
    ensures { IfOk result (Finds (option_map string_bytes) (λ text. get_member key.now (table_view table.now) ≡ option_map string text)) }
{
    match value_at(table, key) {
        None => Ok(Some(None)),
        Some(value) => {
            let text = string_of(alloc, value)?;
            Ok(text)
        }
    }
}

/// The text of a string, as one that is there.
fn string_of(alloc: Global, value: &Value) -> Result<Option<Option<String>>, AllocError>
    ensures { IfOk result (Finds (option_map string_bytes) (λ text. Some (view value.now) ≡ option_map string text)) }
{
    match value.as_str() {
        None => Ok(None),
        Some(text) => {
            let text = String::from_str(alloc, text)?;
            Ok(Some(Some(text)))
        }
    }
}
