//! Directive lines that belong to no group, in all configurations.
ghost use Rattle.std.specs.Prelude.{◌≡◌, ◌<◌, ◌^◌, ◌&&◌, ◌||◌, ℕ, Bool, List, map, not, is_some, length, drop, IfOk, OnOk, IfSome, if◌then◌else◌};
ghost use Rattle.std.specs.Option.{option_map};
ghost use Rattle.std.specs.List.{list_any};
ghost use Rattle.std.specs.Str.{bytes_eq};
ghost use Rattle.std.specs.String.{string_bytes};
ghost use Rattle.c_text.specs.Token.{PlainToken, plain_token};
ghost use Rattle.c_text.specs.PlainMacros.{plain_macro};
ghost use Rattle.c_text.specs.Directives.{define_line, undef_line, include_line, directive_of};
ghost use Rattle.c_text.specs.Preprocessing as spec;
ghost use Rattle.c_text.specs.Preprocessing.{Setting, Reading, Flow, then_read};
ghost use Rattle.cond_formula.specs.Features.{has};
ghost use Rattle.cond_formula.specs.Conditions.{condition_of, value};
ghost use Rattle.macro_table.specs.MacroTables.{macro_meaning, clashes, with_macro, table_at};
ghost use Rattle.pp_lines.specs.PlainDirectives.{plain_directive};
ghost use Rattle.unit_files.specs.Inclusions.{plain_source};
ghost use Rattle.cond_readings.specs.Readings.{reading_at, taken};
ghost use Rattle.unit_files.specs.Settings.{IsSettingOf, MayEnter, entered};
ghost use Rattle.cond_readings.specs.Settings.{IsFound, named_by};

use crate::readings::CondReading;
use crate::refusals::{refuse, refuse_ignored};
use c_text::{Line, Macro, Token};
use cond_formula::{Formula, NoMemory};
use macro_table::MacroTable;
use pp_lines::{Directive, directive};
use reduced_conditions::{both, outside};
use std::alloc::Global;
use unit_files::{Source, Surroundings, behind, is_feature, source_of};

// Whether no `#define` line with these tokens may define the name.
fn bars_define(features: &[String], name: &[u8], tokens: &[Token]) -> bool
    ensures { result ≡ (list_any (bytes_eq name.now) (map string_bytes features.now) || is_some (spec.refused_token (drop 2 (map plain_token tokens.now)))) }
{
    is_feature(features, name) || refuse(behind(tokens, 2))
}

// Whether no `#undef` line with these tokens may name this.
fn bars_undef(features: &[String], name: &[u8], tokens: &[Token]) -> bool
    ensures { result ≡ (list_any (bytes_eq name.now) (map string_bytes features.now) || is_some (spec.refused_ignored (drop 3 (map plain_token tokens.now)))) }
{
    is_feature(features, name) || refuse_ignored(behind(tokens, 3))
}

// Defines a macro where the condition holds. The answer is where it is refused; there the table stays. A definition that is read
// again, as that of a header's guard, is kept under a condition that says nothing of where the name is defined already.
fn define_in(
    alloc: Global,
    table: &mut MacroTable,
    here: &Formula,
    m: &Macro,
) -> Result<Formula, NoMemory>
    ensures refused { IfOk result (λ f. (on : ℕ → Bool) → value on (condition_of f) ≡ (value on (condition_of here.now) && clashes (table_at on table.old m.now.name.items) (macro_meaning (plain_macro m.now)))) }
    ensures table { OnOk result ((on : ℕ → Bool) (name : List ℕ) → table_at on table.new name ≡ (if value on (condition_of here.now) then with_macro (table_at on table.old) (plain_macro m.now) name else table_at on table.old name)) }
{
    let defined = table.when_defined(alloc, m.name.as_slice())?;
    let when = outside(alloc, here, &defined)?;
    let clash = table.define_lawful(alloc, &when, m)?;
    let refused = both(alloc, here.try_clone(alloc)?, clash)?;
    Ok(refused)
}

// A `#define` line with these tokens, where the condition holds.
fn define(
    alloc: Global,
    place: &Surroundings<'_>,
    reading: &mut CondReading,
    here: &Formula,
    tokens: &[Token],
    m: &Macro,
) -> Result<(), NoMemory>
    ensures { OnOk result ((c : List Bool) (s : Setting) → IsSettingOf place.now s → (hash : PlainToken)
        → reading_at (has c) (map string_bytes place.now.features.now) reading.new ≡ taken (value (has c) (condition_of here.now)) (λ r. spec.directed s r hash (map plain_token tokens.now) (define_line (plain_macro m.now))) (reading_at (has c) (map string_bytes place.now.features.now) reading.old)) }
{
    if bars_define(place.features, m.name.as_slice(), tokens) {
        reading.refuse(alloc, here.try_clone(alloc)?)?;
        return Ok(());
    }
    let refused = define_in(alloc, &mut reading.table, here, m)?;
    reading.refuse(alloc, refused)?;
    Ok(())
}

// An `#undef` line with these tokens, where the condition holds.
fn undefine(
    alloc: Global,
    place: &Surroundings<'_>,
    reading: &mut CondReading,
    here: &Formula,
    tokens: &[Token],
    name: &Token,
) -> Result<(), NoMemory>
    ensures { OnOk result ((c : List Bool) (s : Setting) → IsSettingOf place.now s → (hash : PlainToken)
        → reading_at (has c) (map string_bytes place.now.features.now) reading.new ≡ taken (value (has c) (condition_of here.now)) (λ r. spec.directed s r hash (map plain_token tokens.now) (undef_line (plain_token name.now))) (reading_at (has c) (map string_bytes place.now.features.now) reading.old)) }
{
    let text = name.text.as_slice();
    if bars_undef(place.features, text, tokens) {
        reading.refuse(alloc, here.try_clone(alloc)?)?;
        return Ok(());
    }
    reading.table.undef_lawful(alloc, here, text)?;
    Ok(())
}

// Whether an `#include` line with these tokens behind its name may find anything.
fn may_be_found(may_include: bool, names: &[Token]) -> bool
    ensures { result ≡ (may_include && not (is_some (spec.refused_token (map plain_token names.now)))) }
{
    may_include && !refuse(names)
}

// What an `#include` line with these tokens behind its name finds, where files may be read.
fn found_by(
    alloc: Global,
    place: &Surroundings<'_>,
    names: &[Token],
) -> Result<Option<Source>, NoMemory>
    requires { length place.now.headers.now < 2 ^ 32 }
    ensures finds { IfOk result (λ found. IfSome found (λ source. MayEnter place.now source)) }
    ensures named { IfOk result (λ found. option_map plain_source found ≡ named_by place.now (include_line (map plain_token names.now))) }
    ensures flow { IfOk result (λ found. (s : Setting) → IsSettingOf place.now s → (hash : PlainToken) (tokens : List PlainToken) (r : Reading)
        → IsFound s.deeper (option_map plain_source found) (spec.directed s r hash tokens (include_line (map plain_token names.now))) r) }
{
    if !may_be_found(place.may_include, names) {
        return Ok(None);
    }
    let found = source_of(alloc, place.headers, place.name, names)?;
    Ok(found)
}

// An `#include` line with these tokens behind its name, where the condition holds.
fn include(
    alloc: Global,
    place: &Surroundings<'_>,
    reading: &mut CondReading,
    here: &Formula,
    names: &[Token],
) -> Result<Option<Source>, NoMemory>
    requires { length place.now.headers.now < 2 ^ 32 }
    ensures finds { IfOk result (λ found. IfSome found (λ source. MayEnter place.now source)) }
    ensures named { IfOk result (λ found. option_map plain_source found ≡ named_by place.now (include_line (map plain_token names.now))) }
    ensures flow { IfOk result (λ found. (c : List Bool) (s : Setting) → IsSettingOf place.now s → (hash : PlainToken) (tokens : List PlainToken) (next : Reading → Flow)
        → taken (value (has c) (condition_of here.now)) (λ r. then_read (spec.directed s r hash tokens (include_line (map plain_token names.now))) next) (reading_at (has c) (map string_bytes place.now.features.now) reading.old)
        ≡ taken (value (has c) (condition_of here.now)) (λ r. then_read (entered s.deeper (option_map plain_source found) r) next) (reading_at (has c) (map string_bytes place.now.features.now) reading.new)) }
{
    let found = found_by(alloc, place, names)?;
    if found.is_some() {
        return Ok(found);
    }
    reading.refuse(alloc, here.try_clone(alloc)?)?;
    Ok(None)
}

// A line that says this, whose tokens these are, where the condition holds.
fn directed(
    alloc: Global,
    place: &Surroundings<'_>,
    reading: &mut CondReading,
    here: &Formula,
    tokens: &[Token],
    says: &Directive,
) -> Result<Option<Source>, NoMemory>
    requires { length place.now.headers.now < 2 ^ 32 }
    ensures finds { IfOk result (λ found. IfSome found (λ source. MayEnter place.now source)) }
    ensures named { IfOk result (λ found. option_map plain_source found ≡ named_by place.now (plain_directive says.now)) }
    ensures flow { IfOk result (λ found. (c : List Bool) (s : Setting) → IsSettingOf place.now s → (hash : PlainToken) (next : Reading → Flow)
        → taken (value (has c) (condition_of here.now)) (λ r. then_read (spec.directed s r hash (map plain_token tokens.now) (plain_directive says.now)) next) (reading_at (has c) (map string_bytes place.now.features.now) reading.old)
        ≡ taken (value (has c) (condition_of here.now)) (λ r. then_read (entered s.deeper (option_map plain_source found) r) next) (reading_at (has c) (map string_bytes place.now.features.now) reading.new)) }
{
    match says {
        Directive::Define(m) => {
            define(alloc, place, reading, here, tokens, m)?;
            Ok(None)
        }
        Directive::Undef(name) => {
            undefine(alloc, place, reading, here, tokens, name)?;
            Ok(None)
        }
        Directive::Include(names) => { Ok(include(alloc, place, reading, here, names.as_slice())?) }
        Directive::Null => Ok(None),
        _ => {
            reading.refuse(alloc, here.try_clone(alloc)?)?;
            Ok(None)
        }
    }
}

/// Reads a directive line that belongs to no group where a condition holds, and answers which file is read next there.
pub fn read_directive(
    alloc: Global,
    place: &Surroundings<'_>,
    reading: &mut CondReading,
    here: &Formula,
    line: &Line,
) -> Result<Option<Source>, NoMemory>
    requires { length place.now.headers.now < 2 ^ 32 }
    ensures finds { IfOk result (λ found. IfSome found (λ source. MayEnter place.now source)) }
    ensures named { IfOk result (λ found. option_map plain_source found ≡ named_by place.now (directive_of (map plain_token line.now.tokens.items))) }
    ensures flow { IfOk result (λ found. (c : List Bool) (s : Setting) → IsSettingOf place.now s → (next : Reading → Flow)
        → taken (value (has c) (condition_of here.now)) (λ r. then_read (spec.read_directive s r (map plain_token line.now.tokens.items)) next) (reading_at (has c) (map string_bytes place.now.features.now) reading.old)
        ≡ taken (value (has c) (condition_of here.now)) (λ r. then_read (entered s.deeper (option_map plain_source found) r) next) (reading_at (has c) (map string_bytes place.now.features.now) reading.new)) }
{
    match line.tokens.as_slice() {
        [] => Ok(None),
        tokens => {
            let says = directive(alloc, line)?;
            Ok(directed(alloc, place, reading, here, tokens, &says)?)
        }
    }
}
