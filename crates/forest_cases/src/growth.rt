//! How large forests become with the number of features.

use crate::comparing::{Size, compared, read, size_of};
use cond_formula::{Config, NoMemory};
use std::alloc::Global;

fn add(text: &mut Vec<u8>, part: &[u8], number: usize) -> Result<(), NoMemory> {
    for byte in part {
        if *byte == b'@' {
            text.push(b'0' + (number / 10 % 10) as u8)?;
            text.push(b'0' + (number % 10) as u8)?;
        } else {
            text.push(*byte)?;
        }
    }
    Ok(())
}

const NONE: Config = Config { bits: 0 };

const ALL: Config = Config {
    bits: 18446744073709551615,
};

const SOME: Config = Config {
    bits: 12297829382473034410,
};

const OTHERS: Config = Config {
    bits: 11068046444225730969,
};

/// A family of units: a front, a part for each feature, in which `@` stands for its number, one that closes each, and a back.
#[derive(Clone, Copy)]
pub(crate) struct Family<'a> {
    pub name: &'a str,
    pub front: &'a [u8],
    pub each: &'a [u8],
    pub close: &'a [u8],
    pub back: &'a [u8],
    /// For so many features it is tried at most.
    pub most: usize,
}

fn unit_of(alloc: Global, family: Family, features: usize) -> Result<Vec<u8>, NoMemory> {
    let mut text = Vec::new(alloc);
    add(&mut text, family.front, 0)?;
    for i in 0..features {
        add(&mut text, family.each, i)?;
    }
    for i in 0..features {
        add(&mut text, family.close, features - 1 - i)?;
    }
    add(&mut text, family.back, 0)?;
    Ok(text)
}

/// Says of some configurations what is seen of the unit for each number of features.
pub(crate) fn compare_family<R: Print>(
    rt: &R,
    alloc: Global,
    family: Family,
) -> anyhow::Result<()> {
    for features in [8, 32] {
        if features <= family.most {
            let text = unit_of(alloc, family, features)?;
            let (stream, parsed) = read(alloc, text.as_slice())?;
            let none = compared(alloc, &stream, &parsed, NONE)?;
            let all = compared(alloc, &stream, &parsed, ALL)?;
            let some = compared(alloc, &stream, &parsed, SOME)?;
            let others = compared(alloc, &stream, &parsed, OTHERS)?;
            let name = family.name;
            println!(rt; "{name}, {features} features: {none} {all} {some} {others}")?;
        }
    }
    Ok(())
}

/// Says how large the forest is for a number of features.
pub(crate) fn measure_family<R: Print>(
    rt: &R,
    alloc: Global,
    family: Family,
    features: usize,
) -> anyhow::Result<()> {
    let text = unit_of(alloc, family, features)?;
    let (stream, parsed) = read(alloc, text.as_slice())?;
    let size = size_of(
        &parsed.forest.items,
        Size {
            leaves: 0,
            items: 0,
            formulas: 0,
        },
    );
    let tokens = stream.tokens.len();
    let leaves = size.leaves;
    let items = size.items;
    let formulas = size.formulas.saturating_add(parsed.refused.size());
    println!(rt; "{tokens} {leaves} {items} {formulas}")?;
    Ok(())
}
