//! The core program of units.
ghost use Rattle.std.specs.Prelude.{◌≡◌, [], List, length, false, MatchResult, map};
ghost use Rattle.c_tree.specs.Trees.{PlainTree, plain_tree};
ghost use Rattle.core_meaning.specs.Checking.{give};
ghost use Rattle.core_meaning.specs.Linking as spec;
ghost use Rattle.core_meaning.specs.Plain.{plain_program};
ghost use Rattle.plain_scope.specs.Judgements.{Answers, RefusedAs};
ghost use Rattle.plain_link.specs.PlainUnits.{plain_unit, plain_units};
ghost use Rattle.plain_numbers.specs.Numbering.{AreNumbered};
ghost use Rattle.plain_numbers.specs.PlainTexts as text_specs;
ghost use Rattle.plain_numbers.specs.PlainTexts.{plain_texts};
ghost use Rattle.plain_elab.specs.PlainStates.{plain_judged};
ghost use Rattle.plain_elab.specs.Elaborated.{NotElaborated};

use crate::collecting::texts_of;
use crate::judging::{judged, unnumbered};
use c_tree::Tree;
use core_meaning::{CoreProgram, judgings_list_alike};
use plain_link::{Left, link};
use plain_numbers::{Texts, listed, numbered};
use plain_program::program;
use plain_scope::{ElabError, Numbers, Struct};
use std::alloc::Global;
use std::collections::HashMap;

/// All units before their names have numbers.
fn judged_first(alloc: Global, units: &[Tree]) -> Result<(Vec<Left>, Vec<Struct>), ElabError>
    ensures { Answers (spec.judged_units spec.no_numbers 0 0 [] (map plain_tree units.now)) (plain_judged 0) result }
{
    let none = unnumbered(alloc, units.len())?;
    let texts = HashMap::new(alloc);
    let first = judged(alloc, units, none.as_slice(), &texts)?;
    Ok(first)
}

/// The numbers of the names of units, and how many objects have one.
fn numbers_of(alloc: Global, units: &[Left]) -> Result<(Vec<Numbers>, usize), ElabError>
    ensures numbers { MatchResult result (λ found. AreNumbered (map (plain_unit 0) units.now) 0 found.0.items (map (plain_unit 0) units.now)) (λ error. error ≡ ElabError.Memory) }
    ensures count { MatchResult result (λ found. found.1 ≡ length (spec.listed (map (plain_unit 0) units.now) false)) (λ error. error ≡ ElabError.Memory) }
{
    let objects = listed(alloc, units, false)?;
    let functions = listed(alloc, units, true)?;
    let numbers = numbered(alloc, units, &objects, &functions)?;
    Ok((numbers, objects.list.len()))
}

/// All units with the numbers of their names.
#[derive(Drop)]
pub struct Whole {
    units: Vec<Left>,
    structs: Vec<Struct>,
    /// How many objects have numbers.
    objects: usize,
}

/// All units, judged once to know their names, and then with the numbers that these have.
fn judged_whole(alloc: Global, units: &[Tree], texts: &Texts) -> Result<Whole, ElabError>
    requires numbered { text_specs.AreNumbered texts.now }
    requires texts { plain_texts texts.now ≡ spec.literals_of (map plain_tree units.now) }
    ensures { MatchResult result
        (λ whole. (spec.judged_program (map plain_tree units.now) ≡ give (plain_units whole.objects whole.units.items whole.structs.items))
        × (whole.objects ≡ length (spec.listed (map (plain_unit 0) whole.units.items) false)))
        (RefusedAs (spec.judged_program (map plain_tree units.now))) }
{
    judgings_list_alike();
    let (first, _) = judged_first(alloc, units)?;
    let (numbers, objects) = numbers_of(alloc, first.as_slice())?;
    let (units, structs) = judged(alloc, units, numbers.as_slice(), &texts.numbers)?;
    Ok(Whole {
        units,
        structs,
        objects,
    })
}

/// The core program of units that link. As many objects have numbers as when the units were judged first.
fn linked_program(
    alloc: Global,
    units: Vec<Left>,
    structs: &[Struct],
    objects_then: usize,
    literals: Vec<Vec<u8>>,
) -> Result<CoreProgram, ElabError>
    requires { objects_then ≡ length (spec.listed (map (plain_unit 0) units.items) false) }
    ensures { MatchResult result
        (λ program. (trees : List PlainTree) → map (λ bytes. bytes.items) literals.items ≡ spec.literals_of trees →
        plain_program program ≡ spec.program_of trees (plain_units objects_then units.items structs.now))
        (λ error. error ≡ ElabError.Memory) }
{
    let objects = listed(alloc, units.as_slice(), false)?;
    let functions = listed(alloc, units.as_slice(), true)?;
    let program = program(alloc, units, structs, &objects, &functions, literals)?;
    Ok(program)
}

/// The core program of the present units' trees in the project's order, or the first refusal: types in the order of the
/// text, and then linking.
pub fn elaborate(alloc: Global, units: &[Tree]) -> Result<CoreProgram, ElabError>
    ensures { MatchResult result
        (λ program. spec.IsElaborated (map plain_tree units.now) (plain_program program))
        (NotElaborated (map plain_tree units.now)) }
{
    let texts = texts_of(alloc, units)?;
    let whole = judged_whole(alloc, units, &texts)?;
    link(alloc, whole.units.as_slice(), whole.structs.as_slice())?;
    let Whole {
        units,
        structs,
        objects,
    } = whole;
    let program = linked_program(alloc, units, structs.as_slice(), objects, texts.list)?;
    Ok(program)
}
