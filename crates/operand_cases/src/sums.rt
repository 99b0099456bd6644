//! Sums of many names, each with types of its own. Conditions that doubled with each name would fill any memory.
use crate::shown::seen;
use crate::written::{by_feature, operand, sign};
use c_tree::Kind;
use cond_formula::{Config, Formula, NoMemory, PlainOracle};
use cond_operands::{Operands, combined};
use conditional::Outcomes;
use std::alloc::Global;

/// All features with even numbers.
const EVEN: u128 = 0x5555_5555_5555_5555_5555_5555_5555_5555;

/// `int` where the feature is on, elsewhere `unsigned int` where the next feature is, elsewhere `long`.
fn of_three_types(alloc: Global, feature: u8) -> Result<Operands, NoMemory> {
    let int = Outcomes::one(alloc, operand(alloc, "int")?)?;
    let others = by_feature(alloc, feature.saturating_add(1), "unsigned int", "long")?;
    Outcomes::choose(alloc, &Formula::Var(feature), &int, &others)
}

/// The sum of 32 names.
fn sum_of_three_types(alloc: Global) -> Result<Operands, NoMemory> {
    let sign = sign(alloc, "+")?;
    let mut sum = of_three_types(alloc, 0)?;
    for i in 1u8..32 {
        let name = of_three_types(alloc, i.saturating_mul(2))?;
        sum = combined(alloc, &mut PlainOracle, Kind::Sum, &sign, sum, name)?;
    }
    Ok(sum)
}

/// The sum of 64 names, each `int` where its feature is on and `long` elsewhere.
fn sum_of_two_types(alloc: Global) -> Result<Operands, NoMemory> {
    let sign = sign(alloc, "+")?;
    let mut sum = by_feature(alloc, 0, "int", "long")?;
    for i in 1u8..64 {
        let name = by_feature(alloc, i, "int", "long")?;
        sum = combined(alloc, &mut PlainOracle, Kind::Sum, &sign, sum, name)?;
    }
    Ok(sum)
}

fn show_sum<R: Print + AllocGlobal>(
    rt: &R,
    line: &str,
    sum: &Operands,
    configurations: &[u128],
) -> anyhow::Result<()> {
    let alloc: Global = rt.alloc();
    let mut text = String::new(alloc);
    for bits in configurations {
        let types = seen(alloc, sum, Config { bits: *bits })?;
        text.push_str(&format!(in alloc; " [{types} ]")?)?;
    }
    println!(rt; "{line}:{text}, types: {}", sum.fine.alternatives.len())?;
    Ok(())
}

/// The types where each name is `int`, and where the last, the first or one between is of another type.
pub(crate) fn show_sums<R: Print + AllocGlobal>(rt: &R) -> anyhow::Result<()> {
    let alloc: Global = rt.alloc();
    let configurations = [
        EVEN,
        EVEN ^ (3 << 62),
        EVEN ^ 3,
        EVEN ^ 1,
        EVEN ^ (3 << 62) ^ (1 << 30),
    ];
    let sum = sum_of_three_types(alloc)?;
    show_sum(rt, "sum of 32 names of three types", &sum, &configurations)?;
    let sum = sum_of_two_types(alloc)?;
    show_sum(
        rt,
        "sum of 64 names of two types",
        &sum,
        &[u128::MAX, u128::MAX ^ (1 << 63), 0],
    )?;
    Ok(())
}
