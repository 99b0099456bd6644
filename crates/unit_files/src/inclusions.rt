//! The file that an `#include` line names (6.10.2).
ghost use Rattle.std.specs.Prelude.{◌≡◌, ◌+◌, ◌<◌, ◌^◌, ℕ, ◌==◌, List, [], ◌∷◌, ◌++◌, map, reverse, length, IfOk, IfSome, Some, None, if◌then◌else◌};
ghost use Rattle.std.specs.Option.{option_map};
ghost use Rattle.std.specs.String.{string_bytes};
ghost use Rattle.std.specs.List.{flat_map};
ghost use Rattle.c_text.specs.Token.{plain_token};
ghost use Rattle.c_text.specs.Constants.{inside};
ghost use Rattle.c_text.specs.Preprocessing as spec;
ghost use Rattle.unit_files.specs.Inclusions.{plain_source, IsAmong};

use c_text::Token;
use cond_formula::NoMemory;
use std::alloc::Global;

/// What an `#include` finds.
#[derive(Clone, Copy, Debug, PartialEq, Eq)]
pub enum Source {
    /// The number of a file of the project.
    ProjectFile(u32),
    Stdio,
    Stdlib,
}

/// The parts of a path between its `/`.
fn components<'a>(alloc: Global, name: &'a [u8]) -> Result<Vec<&'a [u8]>, NoMemory>
    ensures { IfOk result (λ parts. map (λ part. part.now) parts.items ≡ spec.components name.now) }
{
    name.split(|b| *b == b'/').collect(alloc)
}

/// Leaves the file of a path away.
fn leave_file(parts: &mut Vec<&[u8]>)
    ensures { map (λ part. part.now) parts.new.items ≡ spec.folder (map (λ part. part.now) parts.old.items) }
{
    parts.pop();
}

/// The parts of the path of a file beside the includer.
fn beside<'a>(alloc: Global, includer: &'a [u8], name: &'a [u8]) -> Result<Vec<&'a [u8]>, NoMemory>
    ensures { IfOk result (λ parts. map (λ part. part.now) parts.items ≡ spec.folder (spec.components includer.now) ++ spec.components name.now) }
{
    let mut parts = components(alloc, includer)?;
    leave_file(&mut parts);
    let others = components(alloc, name)?;
    for part in others.as_slice() {
        parts.push(*part)?;
    }
    Ok(parts)
}

/// Goes on with the next part of a path, and answers whether it can be had.
fn go_on<'a>(kept: &mut Vec<&'a [u8]>, part: &'a [u8]) -> Result<bool, NoMemory>
    ensures { IfOk result (λ found. (rest : List (List ℕ)) → spec.resolved (reverse (map (λ p. p.now) kept.old.items)) (part.now ∷ rest) ≡ (if found then spec.resolved (reverse (map (λ p. p.now) kept.new.items)) rest else None)) }
{
    if part == b".".as_slice() {
        return Ok(true);
    }
    if part == b"..".as_slice() {
        return Ok(kept.pop().is_some());
    }
    kept.push(part)?;
    Ok(true)
}

/// The first part, and the others with a `/` before each.
fn joined_from(alloc: Global, first: &[u8], others: &[&[u8]]) -> Result<Vec<u8>, NoMemory>
    ensures { IfOk result (λ name. name.items ≡ first.now ++ spec.further (map (λ p. p.now) others.now)) }
{
    let mut name = Vec::from_slice(alloc, first)?;
    for part in others {
        name.push(b'/')?;
        name.extend_from_slice(part)?;
    }
    Ok(name)
}

/// The parts with a `/` between them.
fn joined(alloc: Global, parts: &[&[u8]]) -> Result<Vec<u8>, NoMemory>
    ensures { IfOk result (λ name. name.items ≡ spec.joined (map (λ p. p.now) parts.now)) }
{
    match parts {
        [] => Ok(Vec::new(alloc)),
        [first, others @ ..] => Ok(joined_from(alloc, first, others)?),
    }
}

/// The path without `.` and `..`.
fn resolved(alloc: Global, parts: &[&[u8]]) -> Result<Option<Vec<u8>>, NoMemory>
    ensures { IfOk result (λ name. option_map (λ n. n.items) name ≡ spec.resolved [] (map (λ p. p.now) parts.now)) }
{
    let mut kept = Vec::new(alloc);
    for part in parts {
        if !go_on(&mut kept, part)? {
            return Ok(None);
        }
    }
    Ok(Some(joined(alloc, kept.as_slice())?))
}

/// The number of the header with this name, if there is one.
fn place_in(headers: &[String], name: &[u8]) -> Option<u32>
    requires { length headers.now < 2 ^ 32 }
    ensures { result ≡ spec.place_in (map string_bytes headers.now) 0 name.now }
{
    for (i, header) in headers.iter().enumerate() {
        if header.as_bytes() == name {
            return Some(i as u32);
        }
    }
    None
}

fn header_at(headers: &[String], name: Option<Vec<u8>>) -> Option<Source>
    requires { length headers.now < 2 ^ 32 }
    ensures { option_map plain_source result ≡ spec.header_at (map string_bytes headers.now) (option_map (λ n. n.items) name) }
{
    match name {
        Some(name) => match place_in(headers, name.as_slice()) {
            Some(number) => Some(Source::ProjectFile(number)),
            None => None,
        },
        None => None,
    }
}

fn built_in(name: &[u8]) -> Option<Source>
    ensures { option_map plain_source result ≡ spec.built_in name.now }
{
    if name == b"stdio.h".as_slice() {
        Some(Source::Stdio)
    } else if name == b"stdlib.h".as_slice() {
        Some(Source::Stdlib)
    } else {
        None
    }
}

/// The header that the parts of a path name.
fn header_of(alloc: Global, headers: &[String], parts: &[&[u8]]) -> Result<Option<Source>, NoMemory>
    requires { length headers.now < 2 ^ 32 }
    ensures { IfOk result (λ source. option_map plain_source source ≡ spec.header_at (map string_bytes headers.now) (spec.resolved [] (map (λ p. p.now) parts.now))) }
{
    let name = resolved(alloc, parts)?;
    Ok(header_at(headers, name))
}

/// What a text between quotes names in a file with the name of the includer.
fn quoted_source(
    alloc: Global,
    headers: &[String],
    includer: &[u8],
    name: &[u8],
) -> Result<Option<Source>, NoMemory>
    requires { length headers.now < 2 ^ 32 }
    ensures { IfOk result (λ source. option_map plain_source source ≡ spec.quoted_source (map string_bytes headers.now) includer.now name.now) }
{
    let near = beside(alloc, includer, name)?;
    if let Some(source) = header_of(alloc, headers, near.as_slice())? {
        return Ok(Some(source));
    }
    let alone = components(alloc, name)?;
    if let Some(source) = header_of(alloc, headers, alone.as_slice())? {
        return Ok(Some(source));
    }
    Ok(built_in(name))
}

/// A text without its quotes.
fn inside(text: &[u8]) -> &[u8]
    ensures { result.now ≡ inside text.now }
{
    match text {
        [_, inside @ .., _] => inside,
        _ => &[],
    }
}

/// The spellings of the tokens, one behind the other.
fn spelled(alloc: Global, tokens: &[Token]) -> Result<Vec<u8>, NoMemory>
    ensures { IfOk result (λ name. name.items ≡ flat_map (λ token. token.text) (map plain_token tokens.now)) }
{
    let mut name = Vec::new(alloc);
    for token in tokens {
        name.extend_from_slice(token.text.as_slice())?;
    }
    Ok(name)
}

/// The tokens without the first and the last.
fn without_ends(tokens: &[Token]) -> &[Token]
    ensures { map plain_token result.now ≡ spec.without_ends (map plain_token tokens.now) }
{
    match tokens {
        [_, inside @ .., _] => inside,
        _ => &[],
    }
}

fn bracketed_source(alloc: Global, tokens: &[Token]) -> Result<Option<Source>, NoMemory>
    ensures { IfOk result (λ source. option_map plain_source source ≡ spec.built_in (flat_map (λ token. token.text) (spec.without_ends (map plain_token tokens.now)))) }
{
    let name = spelled(alloc, without_ends(tokens))?;
    Ok(built_in(name.as_slice()))
}

fn source_named(
    alloc: Global,
    headers: &[String],
    includer: &[u8],
    tokens: &[Token],
) -> Result<Option<Source>, NoMemory>
    requires { length headers.now < 2 ^ 32 }
    ensures { IfOk result (λ source. option_map plain_source source ≡ spec.source_of (map string_bytes headers.now) includer.now (map plain_token tokens.now)) }
{
    match tokens {
        [only] => Ok(quoted_source(alloc, headers, includer, inside(only.text.as_slice()))?),
        _ => Ok(bracketed_source(alloc, tokens)?),
    }
}

/// What the tokens behind `#include` name in a file with the name of the includer. Headers have
/// their places as numbers.
pub fn source_of(
    alloc: Global,
    headers: &[String],
    includer: &[u8],
    tokens: &[Token],
) -> Result<Option<Source>, NoMemory>
    requires { length headers.now < 2 ^ 32 }
    ensures value { IfOk result (λ source. option_map plain_source source ≡ spec.source_of (map string_bytes headers.now) includer.now (map plain_token tokens.now)) }
    ensures among { IfOk result (λ found. IfSome found (λ source. IsAmong (length headers.now) source)) }
{
    let found = source_named(alloc, headers, includer, tokens)?;
    Ok(found)
}
