//! Operators on operands whose types the features decide: of the left operand the first feature, of the right one the second.
use crate::shown::{show, show_test};
use crate::written::{by_feature, sign, type_named};
use c_tree::Kind;
use cond_formula::PlainOracle;
use cond_operands::{assigned, chosen, combined, fitted, indexed, loaded, prefixed, tested};
use std::alloc::Global;

/// An operator between the values of two operands.
fn show_pair<R: Print + AllocGlobal>(
    rt: &R,
    kind: Kind,
    left: (&str, &str),
    text: &str,
    right: (&str, &str),
) -> anyhow::Result<()> {
    let alloc: Global = rt.alloc();
    let a = by_feature(alloc, 0, left.0, left.1)?;
    let b = by_feature(alloc, 1, right.0, right.1)?;
    let sign = sign(alloc, text)?;
    let all = match kind {
        Kind::Index => indexed(alloc, &mut PlainOracle, a, b)?,
        Kind::Conditional => chosen(alloc, &mut PlainOracle, a, b)?,
        Kind::Assignment => assigned(alloc, &mut PlainOracle, &sign, a, b)?,
        _ => combined(alloc, &mut PlainOracle, kind, &sign, a, b)?,
    };
    let line = format!(in alloc; "{}, {} {text} {}, {}", left.0, left.1, right.0, right.1)?;
    show(rt, line.as_str(), &all)
}

pub(crate) fn show_pairs<R: Print + AllocGlobal>(rt: &R) -> anyhow::Result<()> {
    show_pair(
        rt,
        Kind::Sum,
        ("int", "unsigned int"),
        "+",
        ("long", "char"),
    )?;
    show_pair(rt, Kind::Shift, ("char", "int"), "<<", ("long", "char"))?;
    show_pair(rt, Kind::Sum, ("char *", "int"), "-", ("char *", "long"))?;
    show_pair(
        rt,
        Kind::Sum,
        ("struct *", "part struct *"),
        "+",
        ("int", "char"),
    )?;
    show_pair(
        rt,
        Kind::Equality,
        ("char *", "long *"),
        "==",
        ("long *", "0"),
    )?;
    show_pair(
        rt,
        Kind::LogicalAnd,
        ("int", "struct"),
        "&&",
        ("char *", "int"),
    )?;
    show_pair(rt, Kind::Index, ("long", "int *"), "[", ("char *", "int"))?;
    show_pair(
        rt,
        Kind::Assignment,
        ("object char *", "object int"),
        "=",
        ("char *", "0"),
    )?;
    show_pair(
        rt,
        Kind::Assignment,
        ("object char *", "int"),
        "+=",
        ("long", "char *"),
    )?;
    show_pair(rt, Kind::Conditional, ("0", "int *"), "?", ("int *", "0"))?;
    Ok(())
}

/// One of `& * + - ~ !` before an operand.
fn show_prefixed<R: Print + AllocGlobal>(
    rt: &R,
    text: &str,
    on: &str,
    off: &str,
) -> anyhow::Result<()> {
    let alloc: Global = rt.alloc();
    let a = by_feature(alloc, 0, on, off)?;
    let all = prefixed(alloc, &sign(alloc, text)?, a)?;
    let line = format!(in alloc; "{text} {on}, {off}")?;
    show(rt, line.as_str(), &all)
}

pub(crate) fn show_operands<R: Print + AllocGlobal>(rt: &R) -> anyhow::Result<()> {
    let alloc: Global = rt.alloc();
    let values = loaded(
        alloc,
        by_feature(alloc, 0, "object int [4]", "object char")?,
    )?;
    show(rt, "value of object int [4], object char", &values)?;
    show_prefixed(rt, "&", "object int", "int")?;
    show_prefixed(rt, "*", "char *", "int")?;
    show_prefixed(rt, "-", "char", "unsigned int")?;
    let tests = tested(
        alloc,
        by_feature(alloc, 0, "object struct", "object char [4]")?,
    )?;
    show_test(rt, "condition object struct, object char [4]", &tests)?;
    let pointer = type_named(alloc, "char *")?;
    let fits = fitted(alloc, &pointer, by_feature(alloc, 0, "0", "int")?)?;
    show_test(rt, "char * from 0, int", &fits)?;
    Ok(())
}
