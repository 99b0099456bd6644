//! What is seen of operands and tests in each of the four configurations.
use c_types::CType;
use cond_formula::Config;
use cond_operands::{Operands, Tests};
use std::alloc::{AllocError, Global};

fn type_text(alloc: Global, ty: &CType) -> Result<String, AllocError> {
    match ty {
        CType::Void => String::from_str(alloc, "void"),
        CType::Char => String::from_str(alloc, "char"),
        CType::UChar => String::from_str(alloc, "unsigned char"),
        CType::Int => String::from_str(alloc, "int"),
        CType::UInt => String::from_str(alloc, "unsigned int"),
        CType::Long => String::from_str(alloc, "long"),
        CType::ULong => String::from_str(alloc, "unsigned long"),
        CType::Struct(_) => String::from_str(alloc, "struct"),
        CType::Pointer(target) => format!(in alloc; "{} *", type_text(alloc, target)?),
        CType::Array(element, count) => {
            format!(in alloc; "{} [{count}]", type_text(alloc, element)?)
        }
    }
}

fn is_refused(all: &Operands, c: Config) -> bool {
    all.refused.entries.iter().any(|entry| entry.when.value(c))
}

pub(crate) fn seen(alloc: Global, all: &Operands, c: Config) -> Result<String, AllocError> {
    let mut text = String::new(alloc);
    for entry in &all.fine.alternatives {
        if entry.when.value(c) {
            text.push_str(&format!(in alloc; " {}", type_text(alloc, &entry.what.ty)?)?)?;
        }
    }
    Ok(text)
}

/// The type in each configuration, and how many types are kept.
pub(crate) fn show<R: Print + AllocGlobal>(
    rt: &R,
    line: &str,
    all: &Operands,
) -> anyhow::Result<()> {
    let alloc: Global = rt.alloc();
    let mut text = String::new(alloc);
    for bits in 0u8..4 {
        let c = Config { bits: bits as u128 };
        if is_refused(all, c) {
            text.push_str(" [ refused ]")?;
        } else {
            text.push_str(&format!(in alloc; " [{} ]", seen(alloc, all, c)?)?)?;
        }
    }
    println!(rt; "{line}:{text}, types: {}", all.fine.alternatives.len())?;
    Ok(())
}

/// Whether a test is passed in each configuration.
pub(crate) fn show_test<R: Print + AllocGlobal>(
    rt: &R,
    line: &str,
    all: &Tests,
) -> anyhow::Result<()> {
    let alloc: Global = rt.alloc();
    let mut text = String::new(alloc);
    for bits in 0u8..4 {
        let c = Config { bits: bits as u128 };
        let is_refused = all.refused.entries.iter().any(|entry| entry.when.value(c));
        text.push_str(if is_refused { " refused" } else { " passed" })?;
    }
    println!(rt; "{line}:{text}")?;
    Ok(())
}
