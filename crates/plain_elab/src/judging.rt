//! Units that are judged one after another.
ghost use Rattle.std.specs.Prelude.{◌≡◌, ℕ, [], length, IfOk, map};
ghost use Rattle.c_tree.specs.Trees.{plain_tree};
ghost use Rattle.core_meaning.specs.Linking.{judged_units};
ghost use Rattle.plain_scope.specs.Judgements.{Answers};
ghost use Rattle.plain_elab.specs.PlainStates.{plain_judged, numbers_at, HasNoNumbers, HaveNoNumbers};

use c_tree::Tree;
use cond_formula::NoMemory;
use plain_link::Left;
use plain_scope::{ElabError, Numbers, Struct};
use plain_units::judge_unit;
use std::alloc::Global;
use std::collections::HashMap;

/// All units with the numbers of their names, and their structs.
pub fn judged(
    alloc: Global,
    units: &[Tree],
    numbers: &[Numbers],
    texts: &HashMap<Vec<u8>, u32>,
) -> Result<(Vec<Left>, Vec<Struct>), ElabError>
    ensures { (globals : ℕ) →
        Answers (judged_units (numbers_at numbers.now texts.now) globals 0 [] (map plain_tree units.now)) (plain_judged globals) result }
{
    let mut left = Vec::with_capacity(alloc, units.len())?;
    let mut structs = Vec::new(alloc);
    for i in 0..units.len() {
        let Some(numbers) = numbers.get(i) else {
            return Err(ElabError::Memory);
        };
        let (one, all) = judge_unit(alloc, structs, numbers, texts, &units[i])?;
        structs = all;
        left.push(one)?;
    }
    Ok((left, structs))
}

fn no_number(alloc: Global) -> Numbers
    ensures { HasNoNumbers result }
{
    Numbers {
        globals: HashMap::new(alloc),
        functions: HashMap::new(alloc),
    }
}

/// As many units without numbers.
pub fn unnumbered(alloc: Global, count: usize) -> Result<Vec<Numbers>, NoMemory>
    ensures count { IfOk result (λ numbers. length numbers.items ≡ count) }
    ensures none { IfOk result (λ numbers. HaveNoNumbers numbers.items) }
{
    let mut all = Vec::with_capacity(alloc, count)?;
    for _index in 0..count {
        all.push(no_number(alloc))?;
    }
    Ok(all)
}
