//! Directive lines that belong to no group.
ghost use Rattle.std.specs.Prelude.{◌≡◌, ◌<◌, ◌^◌, map, length, drop, Option, Some, None, IfOk, IfSome, true, if◌then◌else◌};
ghost use Rattle.std.specs.Option.{option_map};
ghost use Rattle.std.specs.List.{list_any};
ghost use Rattle.std.specs.Str.{bytes_eq};
ghost use Rattle.std.specs.String.{string_bytes};
ghost use Rattle.c_text.specs.Token.{plain_token};
ghost use Rattle.c_text.specs.PlainMacros.{plain_macro};
ghost use Rattle.c_text.specs.Preprocessing as spec;
ghost use Rattle.c_text.specs.Preprocessing.{on, refused, unless, redefined};
ghost use Rattle.plain_macros.specs.PlainMeanings.{plain_meaning};
ghost use Rattle.plain_macros.specs.PlainTables.{table_of};
ghost use Rattle.pp_lines.specs.PlainDirectives.{plain_directive};
ghost use Rattle.unit_files.specs.Refusals.{plain_refusal};
ghost use Rattle.unit_files.specs.Settings.{IsSettingOf, MayEnter};
ghost use Rattle.plain_pp.specs.Readings.{plain_reading, Follows, Directs};

use crate::errors::{PpError, check, error_of};
use crate::readings::Reading;
use c_text::{Line, Macro, Token};
use plain_macros::Meaning;
use pp_lines::{Directive, directive};
use std::alloc::Global;
use unit_files::{
    PpKind, Refusal, Source, Surroundings, behind, is_feature, refusal_at, refused_ignored,
    refused_token, source_of,
};

/// Whether a second definition of the name is the same, if there is a first.
fn is_same(reading: &Reading, name: &[u8], meaning: &Meaning) -> Option<bool>
    ensures { result ≡ option_map (λ old. spec.same_meaning old (plain_meaning meaning.now)) (table_of reading.now.table name.now) }
{
    match reading.table.get(name) {
        Some(old) => Some(old.same_as(meaning)),
        None => None,
    }
}

/// Lets a name stand for this, unless it stands for something else. The first definition stays.
fn redefine(
    reading: &mut Reading,
    hash: &Token,
    found: Option<Refusal>,
    name: Vec<u8>,
    meaning: Meaning,
) -> Result<(), PpError>
    ensures { Follows result (spec.redefined (plain_reading reading.old) (plain_token hash.now) (option_map plain_refusal found) name.items (table_of reading.old.table name.items) (plain_meaning meaning)) (plain_reading reading.new) }
{
    match is_same(reading, name.as_slice(), &meaning) {
        None => {
            check(found)?;
            reading.define(name, meaning)?;
            Ok(())
        }
        Some(true) => {
            check(found)?;
            Ok(())
        }
        Some(false) => Err(error_of(refusal_at(PpKind::BadMacro, hash))),
    }
}

/// A `#define` line with these tokens.
fn define(
    alloc: Global,
    features: &[String],
    reading: &mut Reading,
    hash: &Token,
    tokens: &[Token],
    definition: Macro,
) -> Result<(), PpError>
    ensures { let m = plain_macro definition in
        Follows result
        (if list_any (bytes_eq m.name) (map string_bytes features.now)
        then refused (spec.refusal_at spec.bad_macro (plain_token hash.now))
        else redefined (plain_reading reading.old) (plain_token hash.now)
        (spec.refused_token (drop 2 (map plain_token tokens.now))) m.name (table_of reading.old.table m.name) (spec.meaning m m.params))
        (plain_reading reading.new) }
{
    if is_feature(features, definition.name.as_slice()) {
        return Err(error_of(refusal_at(PpKind::BadMacro, hash)));
    }
    let name = Vec::from_slice(alloc, definition.name.as_slice())?;
    let meaning = Meaning::of(definition);
    redefine(
        reading,
        hash,
        refused_token(behind(tokens, 2)),
        name,
        meaning,
    )?;
    Ok(())
}

/// An `#undef` line with these tokens.
fn undefine(
    features: &[String],
    reading: &mut Reading,
    hash: &Token,
    tokens: &[Token],
    name: &Token,
) -> Result<(), PpError>
    ensures { let text = (plain_token name.now).text in
        Follows result
        (if list_any (bytes_eq text) (map string_bytes features.now)
        then refused (spec.refusal_at spec.bad_macro (plain_token hash.now))
        else unless (spec.refused_ignored (drop 3 (map plain_token tokens.now)))
        (on (record (plain_reading reading.old) { table = spec.put (table_of reading.old.table) text None })))
        (plain_reading reading.new) }
{
    if is_feature(features, name.text.as_slice()) {
        return Err(error_of(refusal_at(PpKind::BadMacro, hash)));
    }
    check(refused_ignored(behind(tokens, 3)))?;
    reading.undefine(name.text.as_slice());
    Ok(())
}

/// An `#include` line with these tokens behind its name: what is read next.
fn include(
    alloc: Global,
    place: &Surroundings<'_>,
    hash: &Token,
    names: &[Token],
) -> Result<Option<Source>, PpError>
    requires { length place.now.headers.now < 2 ^ 32 }
    ensures finds { IfOk result (λ found. IfSome found (λ source. MayEnter place.now source)) }
    ensures flow { (s : spec.Setting) → IsSettingOf place.now s → (r : spec.Reading)
        → Directs result (spec.included s r (plain_token hash.now) (map plain_token names.now) s.deeper (spec.source_of s.headers s.name (map plain_token names.now))) s.deeper r }
{
    let Some(source) = source_of(alloc, place.headers, place.name, names)? else {
        return Err(error_of(refusal_at(PpKind::NoFile, hash)));
    };
    if !place.may_include {
        return Err(error_of(refusal_at(PpKind::IncludeDepth, hash)));
    }
    check(refused_token(names))?;
    Ok(Some(source))
}

/// A line that says this, whose tokens these are.
fn directed(
    alloc: Global,
    place: &Surroundings<'_>,
    reading: &mut Reading,
    hash: &Token,
    tokens: &[Token],
    says: Directive,
) -> Result<Option<Source>, PpError>
    requires { length place.now.headers.now < 2 ^ 32 }
    ensures finds { IfOk result (λ found. IfSome found (λ source. MayEnter place.now source)) }
    ensures flow { (s : spec.Setting) → IsSettingOf place.now s
        → Directs result (spec.directed s (plain_reading reading.old) (plain_token hash.now) (map plain_token tokens.now) (plain_directive says)) s.deeper (plain_reading reading.new) }
{
    match says {
        Directive::Define(definition) => {
            define(alloc, place.features, reading, hash, tokens, definition)?;
            Ok(None)
        }
        Directive::Undef(name) => {
            undefine(place.features, reading, hash, tokens, &name)?;
            Ok(None)
        }
        Directive::Include(names) => Ok(include(alloc, place, hash, names.as_slice())?),
        Directive::BadDefine => Err(error_of(refusal_at(PpKind::BadMacro, hash))),
        Directive::Error => Err(error_of(refusal_at(PpKind::ErrorDirective, hash))),
        Directive::Null => Ok(None),
        _ => Err(error_of(refusal_at(PpKind::BadDirective, hash))),
    }
}

/// Reads a directive line that belongs to no group, and answers which file is read next, if any.
pub fn read_directive(
    alloc: Global,
    place: &Surroundings<'_>,
    reading: &mut Reading,
    line: &Line,
) -> Result<Option<Source>, PpError>
    requires { length place.now.headers.now < 2 ^ 32 }
    ensures finds { IfOk result (λ found. IfSome found (λ source. MayEnter place.now source)) }
    ensures flow { (s : spec.Setting) → IsSettingOf place.now s
        → Directs result (spec.read_directive s (plain_reading reading.old) (map plain_token line.now.tokens.items)) s.deeper (plain_reading reading.new) }
{
    match line.tokens.as_slice() {
        [] => Ok(None),
        tokens @ [hash, ..] => {
            let says = directive(alloc, line)?;
            Ok(directed(alloc, place, reading, hash, tokens, says)?)
        }
    }
}
