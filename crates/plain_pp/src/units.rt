//! The reading of a unit.
ghost use Rattle.std.specs.Prelude.{◌≡◌, ◌<◌, length, nat_lt, IfSome, option_map};
ghost use Rattle.c_text.specs.Preprocessing as spec;
ghost use Rattle.c_text.specs.Preprocessing.{IsSyntaxOf};
ghost use Rattle.unit_files.specs.Inclusions.{plain_source, IsAmong};
ghost use Rattle.unit_files.specs.Settings.{IsSettingOf, entered};
ghost use Rattle.plain_pp.specs.Readings.{Follows, plain_reading};
ghost use Rattle.unit_files.specs.SourceFiles.{AreSources, AreSmall, deeper_of};

use crate::errors::PpError;
use crate::readings::Reading;
use crate::walk::Walker;
use c_lexer::lex;
use std::alloc::Global;
use unit_files::{
    Source, Sources, Surroundings, its_lines, source_number, sources_are_walked, sources_break,
};

/// What the reading of a source stands on, where so many files more may be nested.
fn place_of<'a>(sources: &Sources<'a>, source: Source, more: u32) -> Surroundings<'a>
    requires { IsAmong (length sources.now.files.now) source }
    ensures setting { (s : spec.Sources) (x : spec.Syntax) → AreSources sources.now s → IsSyntaxOf s x
        → IsSettingOf result (spec.setting s x (plain_source source) (deeper_of s x more)) }
    ensures headers { result.headers.now ≡ sources.now.headers.now }
    ensures deeper { result.may_include ≡ nat_lt 0 more }
{
    Surroundings {
        features: sources.features,
        headers: sources.headers,
        name: sources.name_of(source),
        may_include: more > 0,
    }
}

/// Reads the file that a line includes, if it does.
#[cycle(files)]
fn enter(
    alloc: Global,
    sources: &Sources<'_>,
    found: Option<Source>,
    more: u32,
    reading: &mut Reading,
) -> Result<(), PpError>
    requires there { IfSome found (λ source. (0 < more) × IsAmong (length sources.now.headers.now) source) }
    requires small { AreSmall sources.now }
    ensures { (s : spec.Sources) (x : spec.Syntax) → AreSources sources.now s → IsSyntaxOf s x
        → Follows result (entered (deeper_of s x more) (option_map plain_source found) (plain_reading reading.old)) (plain_reading reading.new) }
{
    match found {
        Some(source) => read_source(alloc, sources, source, more - 1, reading),
        None => Ok(()),
    }
}

/// Reads a source, in which so many files more may be nested.
#[cycle(files)]
pub fn read_source(
    alloc: Global,
    sources: &Sources<'_>,
    source: Source,
    more: u32,
    reading: &mut Reading,
) -> Result<(), PpError>
    requires there { IsAmong (length sources.now.files.now) source }
    requires small { AreSmall sources.now }
    ensures { (s : spec.Sources) (x : spec.Syntax) → AreSources sources.now s → IsSyntaxOf s x
        → Follows result (spec.read_source s x more (plain_source source) (plain_reading reading.old)) (plain_reading reading.new) }
{
    sources_are_walked();
    sources_break();
    let text = sources.text_of(source);
    let file = source_number(source);
    let all = lex(alloc, file, text)?;
    let lines = its_lines(source, all.as_slice());
    let place = place_of(sources, source, more);
    let mut walker = Walker::new(alloc);
    for line in lines {
        let found = walker.read_line(alloc, &place, file, reading, line)?;
        enter(alloc, sources, found, more, reading)?;
    }
    walker.finish(alloc, file, text.len() as u32, reading)
}
