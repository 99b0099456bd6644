//! Streams of the projects of the cases, and the trees of all configurations that are made of them: in each admitted configuration,
//! whatever is asked of their conditions, they are what preprocessing and parsing give there.
ghost use Rattle.std.specs.Prelude.{◌≡◌, ◌<◌, ◌≤◌, map, length, All};
ghost use Rattle.text_edits.specs.Files.{plain_files};
ghost use Rattle.project_file.specs.View.{project_view};
ghost use Rattle.project_store.specs.Reads.{names_of};

use anyhow::{Context, Result};
use c_text::Token;
use choice_parser::{Parsed, parse_all};
use cond_formula::{Config, Oracle, PlainOracle};
use cond_pp::preprocess_all;
use cond_tokens::CondStream;
use plain_pp::{PpError, preprocess};
use project_store::{MemoryStore, Project, read_files, read_project};
use std::alloc::{AllocError, Global};
use std::fs;
use std::rt::Files as FileAccess;
use text_edits::Files;
use tree_comparisons::{Comparison, compared};
use vector_cases::{Case, Output, copy_of};
use verdict_query::ModelOracle;

/// The most features whose configurations are all looked at: those of the features behind them have them off.
const MOST_FEATURES: usize = 7;

/// What a stage of all configurations and its twin say of one.
#[derive(Clone, Copy, Debug, PartialEq, Eq)]
enum Agreement {
    Same,
    BothRefuse,
    Differ,
}

/// Units in configurations.
#[derive(Clone, Copy, Debug)]
struct Tally {
    same: u32,
    refused: u32,
    different: u32,
}

impl Tally {
    fn new() -> Tally {
        Tally {
            same: 0,
            refused: 0,
            different: 0,
        }
    }

    /// Counts one more.
    fn count(&mut self, agreement: Agreement) {
        let counted = match agreement {
            Agreement::Same => &mut self.same,
            Agreement::BothRefuse => &mut self.refused,
            Agreement::Differ => &mut self.different,
        };
        *counted = counted.saturating_add(1);
    }

    fn show<R: Print>(&self, rt: &R, what: &str, same_what: &str, file: &str) -> Result<()> {
        let Tally {
            same,
            refused,
            different,
        } = *self;
        println!(rt;
            "{what} of {file}: {same} have the same {same_what}, {refused} are refused by both, {different} differ"
        )?;
        Ok(())
    }
}

/// Streams beside tokens, and forests beside trees.
#[derive(Clone, Copy, Debug)]
struct Tallies {
    streams: Tally,
    forests: Tally,
}

/// What is read of a unit in all configurations.
#[derive(Drop)]
struct Readings {
    stream: CondStream,
    parsed: Parsed,
}

/// A project with its files, and the place of a unit among its units.
#[derive(Clone, Copy)]
struct ProjectUnit<'a> {
    project: &'a Project,
    files: &'a Files,
    unit: u32,
}

/// The tokens that are present in the configuration.
fn seen(alloc: Global, stream: &CondStream, c: Config) -> Result<Vec<&Token>, AllocError> {
    let mut tokens = Vec::new(alloc);
    for entry in &stream.tokens {
        if entry.when.value(c) {
            tokens.push(&entry.token)?;
        }
    }
    Ok(tokens)
}

/// Whether the tokens are spelled alike and come from the same places.
fn are_same(tokens: &[Token], others: &[&Token]) -> bool {
    tokens.len() == others.len()
        && tokens.iter().zip(others).all(|(token, other)| token.same_spelling(other)
            && token.origin == other.origin)
}

/// Compares the trees of all configurations with the tree of the tokens in one.
fn compare_trees(
    alloc: Global,
    tokens: &[Token],
    parsed: &Parsed,
    c: Config,
) -> Result<Agreement, AllocError> {
    if tokens.len() >= u32::MAX as usize {
        return Err(AllocError);
    }
    match compared(alloc, tokens, parsed, c)? {
        Comparison::SameTree => Ok(Agreement::Same),
        Comparison::BothRefuse => Ok(Agreement::BothRefuse),
        _ => Ok(Agreement::Differ),
    }
}

/// The trees of a stream in all configurations.
fn parsed<O: Oracle>(
    alloc: Global,
    stream: &CondStream,
    oracle: &mut O,
) -> Result<Parsed, AllocError> {
    if stream.tokens.len() >= u32::MAX as usize {
        return Err(AllocError);
    }
    parse_all(alloc, stream, oracle)
}

impl ProjectUnit<'_> {
    fn compare(
        &self,
        alloc: Global,
        readings: &Readings,
        c: Config,
        tallies: &mut Tallies,
    ) -> Result<bool, AllocError>
        requires there { self.now.unit < length self.now.project.now.units.items }
        requires named { map (λ f. f.name) (plain_files self.now.files.now) ≡ names_of (project_view self.now.project.now) }
        requires short { All (λ f. length f.bytes ≤ 4294967295) (plain_files self.now.files.now) }
        requires few { length self.now.files.now.list.items < 4294967295 }
    {
        let refused = readings.stream.refused.value(c);
        match preprocess(alloc, self.project, self.files, self.unit, c) {
            Ok(tokens) => {
                if refused || !are_same(&tokens, &seen(alloc, &readings.stream, c)?) {
                    tallies.streams.count(Agreement::Differ);
                    return Ok(false);
                }
                tallies.streams.count(Agreement::Same);
                let trees = compare_trees(alloc, &tokens, &readings.parsed, c)?;
                tallies.forests.count(trees);
                Ok(trees != Agreement::Differ)
            }
            Err(PpError::Refused(_, _)) => {
                let agreement = if refused {
                    Agreement::BothRefuse
                } else {
                    Agreement::Differ
                };
                tallies.streams.count(agreement);
                Ok(refused)
            }
            Err(PpError::Memory) => Err(AllocError),
        }
    }

    /// Compares what comes of this oracle in each admitted configuration, and prints where it differs.
    fn compare_all<R: Print + AllocGlobal, O: Oracle>(
        &self,
        rt: &R,
        oracle: &mut O,
        label: &str,
        tallies: &mut Tallies,
    ) -> Result<()>
        requires there { self.now.unit < length self.now.project.now.units.items }
        requires named { map (λ f. f.name) (plain_files self.now.files.now) ≡ names_of (project_view self.now.project.now) }
        requires short { All (λ f. length f.bytes ≤ 4294967295) (plain_files self.now.files.now) }
        requires few { length self.now.files.now.list.items < 4294967295 }
    {
        let alloc: Global = rt.alloc();
        let stream = preprocess_all(alloc, self.project, self.files, self.unit, oracle)?;
        let parsed = parsed(alloc, &stream, oracle)?;
        let readings = Readings { stream, parsed };
        let configurations = 1u128 << self.project.features.len().min(MOST_FEATURES);
        for bits in 0..configurations {
            let c = Config { bits };
            if !self.project.model.admits(c) {
                continue;
            }
            if !self.compare(alloc, &readings, c, tallies)? {
                let unit = self.unit;
                println!(rt; "{label}: unit {unit} differs in configuration {bits}")?;
            }
        }
        Ok(())
    }
}

fn compare_units<R: Print + AllocGlobal>(
    rt: &R,
    project: &Project,
    files: &Files,
    label: &str,
    tallies: &mut Tallies,
) -> Result<()>
    requires named { map (λ f. f.name) (plain_files files.now) ≡ names_of (project_view project.now) }
    requires short { All (λ f. length f.bytes ≤ 4294967295) (plain_files files.now) }
    requires few { length files.now.list.items < 4294967295 }
{
    for number in 0..project.units.len() {
        let it = ProjectUnit {
            project,
            files,
            unit: number as u32,
        };
        it.compare_all(rt, &mut PlainOracle, label, tallies)?;
        let mut oracle = ModelOracle::new(rt.alloc(), &project.model);
        it.compare_all(rt, &mut oracle, label, tallies)?;
    }
    Ok(())
}

/// Compares the units of a case's project, where it has one whose files are there.
fn compare<R: Print + AllocGlobal>(
    rt: &R,
    case: &Case,
    label: &str,
    tallies: &mut Tallies,
) -> Result<()> {
    let alloc: Global = rt.alloc();
    let mut store = MemoryStore::new(alloc, copy_of(alloc, &case.files)?, Vec::new(alloc));
    let Some(name) = case.words.get(1) else {
        return Ok(());
    };
    let Ok(project) = read_project(alloc, &mut store, name) else {
        return Ok(());
    };
    let Ok(files) = read_files(alloc, &mut store, &project) else {
        return Ok(());
    };
    if files.list.len() >= u32::MAX as usize {
        return Ok(());
    }
    compare_units(rt, &project, &files, label, tallies)
}

/// Compares the streams and forests of all projects of a file of cases, and prints how many agree.
pub(crate) fn run<R: FileAccess + Print + AllocGlobal>(rt: &R, file: &'static str) -> Result<()> {
    let alloc: Global = rt.alloc();
    let text = fs::read_to_string(rt, file).context(file)?;
    let mut tallies = Tallies {
        streams: Tally::new(),
        forests: Tally::new(),
    };
    let mut number: u32 = 0;
    for line in text.lines() {
        number = number.saturating_add(1);
        let case = Case::read(alloc, Output::Nothing, line)?;
        let label = format!(in alloc; "{file}:{number}")?;
        compare(rt, &case, &label, &mut tallies)?;
    }
    tallies.streams.show(rt, "streams", "tokens", file)?;
    tallies.forests.show(rt, "forests", "tree", file)
}
