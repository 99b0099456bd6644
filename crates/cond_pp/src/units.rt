//! The reading of a unit, in all configurations.
ghost use Rattle.std.specs.Prelude.{◌≡◌, ◌<◌, Bool, List, length, map, nat_lt, true, ◌||◌, IfSome, OnOk, IsTrue};
ghost use Rattle.std.specs.String.{string_bytes};
ghost use Rattle.cond_formula.specs.Features.{has};
ghost use Rattle.cond_formula.specs.Conditions.{condition_of, value};
ghost use Rattle.c_text.specs.Token.{PlainToken};
ghost use Rattle.c_text.specs.Preprocessing as spec;
ghost use Rattle.c_text.specs.Preprocessing.{IsSyntaxOf};
ghost use Rattle.active_tokens.specs.Active.{AreMisplaced, reads_of_source};
ghost use Rattle.read_walks.specs.SourceReads.{deeper_reads_of};
ghost use Rattle.unit_files.specs.Inclusions.{plain_source, IsAmong};
ghost use Rattle.unit_files.specs.SourceFiles.{AreSources, AreSmall, deeper_of};
ghost use Rattle.cond_readings.specs.Readings.{reading_at, taken};
ghost use Rattle.unit_files.specs.Settings.{IsSettingOf};
ghost use Rattle.cond_pp.specs.Walks.{including, reads_included};
ghost use Rattle.cond_pp.specs.Watches.{is_seen, read_where};

use crate::walk::{CondWalker, Inclusion};
use crate::watch::Watch;
use c_lexer::lex;
use cond_formula::{Formula, NoMemory, Oracle};
use cond_readings::CondReading;
use read_walks::{lines_lead_on, reads_are_tested, source_reads_are_walked, walks_are_one};
use std::alloc::Global;
use unit_files::{Source, Sources, Surroundings, its_lines, source_number, sources_are_walked};

// What the reading of a source stands on, where so many files more may be nested.
fn place_of<'a>(sources: &Sources<'a>, source: Source, more: u32) -> Surroundings<'a>
    requires { IsAmong (length sources.now.files.now) source }
    ensures setting { (s : spec.Sources) (x : spec.Syntax) → AreSources sources.now s → IsSyntaxOf s x
        → IsSettingOf result (spec.setting s x (plain_source source) (deeper_of s x more)) }
    ensures features { result.features.now ≡ sources.now.features.now }
    ensures headers { result.headers.now ≡ sources.now.headers.now }
    ensures deeper { result.may_include ≡ nat_lt 0 more }
{
    Surroundings {
        features: sources.features,
        headers: sources.headers,
        name: sources.name_of(source),
        may_include: more > 0,
    }
}

// Reads the file that a line includes, if it does.
#[cycle(files)]
fn enter<O: Oracle>(
    alloc: Global,
    sources: &Sources<'_>,
    found: Option<Inclusion>,
    more: u32,
    reading: &mut CondReading,
    oracle: &mut O,
    watch: &mut Watch<'_>,
) -> Result<(), NoMemory>
    requires there { IfSome found (λ i. (0 < more) × IsAmong (length sources.now.headers.now) i.source) }
    requires small { AreSmall sources.now }
    ensures kept { O.admits oracle.new ≡ O.admits oracle.old }
    ensures read { OnOk result ((c : List Bool) (s : spec.Sources) (x : spec.Syntax) → IsTrue (value (has c) (O.admits oracle.old)) → AreSources sources.now s → IsSyntaxOf s x
        → reading_at (has c) (map string_bytes sources.now.features.now) reading.new ≡ taken true (λ r. including (has c) (deeper_of s x more) found r) (reading_at (has c) (map string_bytes sources.now.features.now) reading.old)) }
    ensures sought { watch.new.sought ≡ watch.old.sought }
    ensures found { OnOk result ((c : List Bool) (s : spec.Sources) (x : spec.Syntax) (are : IsSyntaxOf s x) (misplaced : spec.Source → List PlainToken) → IsTrue (value (has c) (O.admits oracle.old)) → AreSources sources.now s → AreMisplaced are misplaced
        → value (has c) (condition_of watch.new.found) ≡ (value (has c) (condition_of watch.old.found)
        || is_seen watch.old (read_where true (λ r. reads_included (has c) (deeper_reads_of s x misplaced more) found r) (reading_at (has c) (map string_bytes sources.now.features.now) reading.old)))) }
{
    match found {
        Some(Inclusion { source, when }) => Ok(read_source(
            alloc,
            sources,
            source,
            when,
            more - 1,
            reading,
            oracle,
            watch,
        )?),
        None => Ok(()),
    }
}

/// Reads a source where a condition holds, in which so many files more may be nested.
#[cycle(files)]
pub fn read_source<O: Oracle>(
    alloc: Global,
    sources: &Sources<'_>,
    source: Source,
    when: Formula,
    more: u32,
    reading: &mut CondReading,
    oracle: &mut O,
    watch: &mut Watch<'_>,
) -> Result<(), NoMemory>
    requires there { IsAmong (length sources.now.files.now) source }
    requires small { AreSmall sources.now }
    ensures kept { O.admits oracle.new ≡ O.admits oracle.old }
    ensures read { OnOk result ((c : List Bool) (s : spec.Sources) (x : spec.Syntax) → IsTrue (value (has c) (O.admits oracle.old)) → AreSources sources.now s → IsSyntaxOf s x
        → reading_at (has c) (map string_bytes sources.now.features.now) reading.new ≡ taken (value (has c) (condition_of when)) (λ r. spec.read_source s x more (plain_source source) r) (reading_at (has c) (map string_bytes sources.now.features.now) reading.old)) }
    ensures sought { watch.new.sought ≡ watch.old.sought }
    ensures found { OnOk result ((c : List Bool) (s : spec.Sources) (x : spec.Syntax) (are : IsSyntaxOf s x) (misplaced : spec.Source → List PlainToken) → IsTrue (value (has c) (O.admits oracle.old)) → AreSources sources.now s → AreMisplaced are misplaced
        → value (has c) (condition_of watch.new.found) ≡ (value (has c) (condition_of watch.old.found)
        || is_seen watch.old (read_where (value (has c) (condition_of when)) (λ r. reads_of_source s x misplaced more (plain_source source) r) (reading_at (has c) (map string_bytes sources.now.features.now) reading.old)))) }
{
    sources_are_walked();
    source_reads_are_walked();
    lines_lead_on();
    walks_are_one();
    reads_are_tested();
    let text = sources.text_of(source);
    let file = source_number(source);
    let all = lex(alloc, file, text)?;
    let lines = its_lines(source, all.as_slice());
    let place = place_of(sources, source, more);
    let mut walker = CondWalker::new(alloc, when);
    for line in lines {
        let found = walker.read_line(alloc, &place, reading, oracle, line, watch)?;
        enter(alloc, sources, found, more, reading, oracle, watch)?;
    }
    Ok(walker.finish(alloc, &place, reading, oracle, watch)?)
}
