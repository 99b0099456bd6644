//! From a project's files to its core program in one configuration.
ghost use Rattle.std.specs.Prelude.{◌≡◌, ◌<◌, ◌≤◌, length, map, All, IfOk, MatchResult};
ghost use Rattle.std.specs.List.{AllZip};
ghost use Rattle.text_edits.specs.Files.{plain_files};
ghost use Rattle.cond_formula.specs.Features.{has};
ghost use Rattle.c_text.specs.Token.{plain_token};
ghost use Rattle.c_tree.specs.Trees.{plain_tree};
ghost use Rattle.c_tree.specs.Units.{IsTreeOf};
ghost use Rattle.core_meaning.specs.Plain.{plain_program};
ghost use Rattle.core_meaning.specs.Linking.{IsElaborated};
ghost use Rattle.project_file.specs.View.{project_view};
ghost use Rattle.project_store.specs.Reads.{names_of};
ghost use Rattle.project_program.specs.declared.programs.ProgramError.TheVariants.{Memory as WantOfMemory};
ghost use Rattle.project_program.specs.Programs.{present_units, UnitGives, AreTokens, IsProgram, WhyNone};
ghost use Rattle.project_program.specs.Steps.{plain_tokens, WhyNoTokens, WhyNoTree, WhyNoTrees, WhyNotElaborated};

use c_text::Token;
use c_tree::Tree;
use cond_formula::{Config, NoMemory};
use core_meaning::CoreProgram;
use plain_elab::elaborate;
use plain_parse::{ParseError, parse};
use plain_pp::{PpError, preprocess};
use plain_scope::ElabError;
use project_file::Project;
use std::alloc::{AllocError, AllocFailed, Global};
use text_edits::Files;

/// The stages of translation that may refuse a configuration, in their order.
#[derive(Clone, Copy, Debug, PartialEq, Eq)]
pub enum Stage {
    /// A unit that is present isn't preprocessed (6.10).
    Preprocess,
    /// The tokens of a unit have no tree (6.5 to 6.9).
    Parse,
    /// A name or a type of a unit is refused (6.2, 6.3, 6.5 to 6.9).
    Types,
    /// The units don't link (6.2.2, 6.9).
    Link,
}

impl Stage {
    ghost use Rattle.project_program.specs.Programs.{stage_name};

    /// The word for the stage in what is printed.
    pub fn name(self) -> &'static str
        ensures { result.now ≡ stage_name self }
    {
        match self {
            Stage::Preprocess => "preprocess",
            Stage::Parse => "parse",
            Stage::Types => "type",
            Stage::Link => "link",
        }
    }
}

/// Why a configuration has no program.
#[derive(Clone, Copy, Debug, PartialEq, Eq, Drop)]
pub enum ProgramError {
    /// It is refused at this stage.
    NotAccepted(Stage),
    Memory,
}

impl From<AllocError> for ProgramError {
    ghost from_gives = { λ _ error. error ≡ WantOfMemory };

    fn from(_: AllocError) -> ProgramError {
        ProgramError::Memory
    }
}

impl<T: Drop> From<AllocFailed<T>> for ProgramError {
    ghost from_gives = { λ _ error. error ≡ WantOfMemory };

    fn from(_: AllocFailed<T>) -> ProgramError {
        ProgramError::Memory
    }
}

/// The places of the units that are present.
fn present_units(alloc: Global, project: &Project, c: Config) -> Result<Vec<usize>, NoMemory>
    ensures places { IfOk result (λ places. places.items ≡ present_units (project_view project.now) (has c)) }
    ensures inside { IfOk result (λ places. All (λ place. place < length project.now.units.items) places.items) }
{
    let mut places = Vec::new(alloc);
    for (place, unit) in project.units.iter().enumerate() {
        if unit.when.value(c) {
            places.push(place)?;
        }
    }
    Ok(places)
}

/// The tokens of a unit that is present.
fn unit_tokens(
    alloc: Global,
    project: &Project,
    files: &Files,
    place: usize,
    c: Config,
) -> Result<Vec<Token>, ProgramError>
    requires there { place < length project.now.units.items }
    requires named { map (λ f. f.name) (plain_files files.now) ≡ names_of (project_view project.now) }
    requires short { All (λ f. length f.bytes ≤ 4294967295) (plain_files files.now) }
    requires few { length files.now.list.items < 4294967295 }
    ensures { MatchResult result
        (λ tokens. UnitGives (project_view project.now) (plain_files files.now) (has c) place (map plain_token tokens.items))
        (WhyNoTokens (project_view project.now) (plain_files files.now) (has c) place) }
{
    let Ok(number) = u32::try_from(place) else {
        return Err(ProgramError::Memory);
    };
    match preprocess(alloc, project, files, number, c) {
        Ok(tokens) => Ok(tokens),
        Err(PpError::Refused(_, _)) => Err(ProgramError::NotAccepted(Stage::Preprocess)),
        Err(PpError::Memory) => Err(ProgramError::Memory),
    }
}

/// The tokens of each unit that is present.
fn all_tokens(
    alloc: Global,
    project: &Project,
    files: &Files,
    c: Config,
) -> Result<Vec<Vec<Token>>, ProgramError>
    requires named { map (λ f. f.name) (plain_files files.now) ≡ names_of (project_view project.now) }
    requires short { All (λ f. length f.bytes ≤ 4294967295) (plain_files files.now) }
    requires few { length files.now.list.items < 4294967295 }
    ensures { MatchResult result
        (λ tokens. AreTokens (project_view project.now) (plain_files files.now) (has c) (plain_tokens tokens.items))
        (WhyNone (project_view project.now) (plain_files files.now) (has c)) }
{
    let places = present_units(alloc, project, c)?;
    let mut all = Vec::new(alloc);
    for i in 0..places.len() {
        let tokens = unit_tokens(alloc, project, files, places[i], c)?;
        all.push(tokens)?;
    }
    Ok(all)
}

/// The tree of one unit's tokens.
fn unit_tree(alloc: Global, tokens: &[Token]) -> Result<Tree, ProgramError>
    ensures { MatchResult result
        (λ tree. IsTreeOf (map plain_token tokens.now) (plain_tree tree))
        (WhyNoTree (map plain_token tokens.now)) }
{
    if tokens.len() >= u32::MAX as usize {
        return Err(ProgramError::Memory);
    }
    match parse(alloc, tokens) {
        Ok(tree) => Ok(tree),
        Err(ParseError::Memory) => Err(ProgramError::Memory),
        Err(ParseError::Unexpected(_)) => Err(ProgramError::NotAccepted(Stage::Parse)),
        Err(ParseError::TooHigh) => Err(ProgramError::NotAccepted(Stage::Parse)),
    }
}

/// The trees of all units.
fn all_trees(alloc: Global, units: &[Vec<Token>]) -> Result<Vec<Tree>, ProgramError>
    ensures { MatchResult result
        (λ trees. AllZip IsTreeOf (plain_tokens units.now) (map plain_tree trees.items))
        (WhyNoTrees (plain_tokens units.now)) }
{
    let mut trees = Vec::new(alloc);
    for tokens in units {
        let tree = unit_tree(alloc, tokens.as_slice())?;
        trees.push(tree)?;
    }
    Ok(trees)
}

/// The core program of the trees.
fn elaborated(alloc: Global, trees: &[Tree]) -> Result<CoreProgram, ProgramError>
    ensures { MatchResult result
        (λ p. IsElaborated (map plain_tree trees.now) (plain_program p))
        (WhyNotElaborated (map plain_tree trees.now)) }
{
    match elaborate(alloc, trees) {
        Ok(p) => Ok(p),
        Err(ElabError::BadType(_, _)) => Err(ProgramError::NotAccepted(Stage::Types)),
        Err(ElabError::Link(_, _)) => Err(ProgramError::NotAccepted(Stage::Link)),
        Err(ElabError::Memory) => Err(ProgramError::Memory),
    }
}

/// The core program of the units that are present in a configuration, or the first stage that refuses it. `files` are the
/// project's headers and then its units.
pub fn program(
    alloc: Global,
    project: &Project,
    files: &Files,
    c: Config,
) -> Result<CoreProgram, ProgramError>
    requires named { map (λ f. f.name) (plain_files files.now) ≡ names_of (project_view project.now) }
    requires short { All (λ f. length f.bytes ≤ 4294967295) (plain_files files.now) }
    requires few { length files.now.list.items < 4294967295 }
    ensures { MatchResult result
        (λ p. IsProgram (project_view project.now) (plain_files files.now) (has c) (plain_program p))
        (WhyNone (project_view project.now) (plain_files files.now) (has c)) }
{
    let tokens = all_tokens(alloc, project, files, c)?;
    let trees = all_trees(alloc, tokens.as_slice())?;
    let p = elaborated(alloc, trees.as_slice())?;
    Ok(p)
}
