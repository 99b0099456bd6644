//! Each operation on values, lists and judgements under conditions.
use crate::numbers::{Dividing, Half, Halving, Number};
use crate::shown;
use cond_formula::{Formula, NoMemory, PlainOracle};
use conditional::{CondList, CondValue, Outcomes, crossed, judged, when_some_hold};
use std::alloc::Global;

fn first() -> Formula {
    Formula::Var(0)
}

fn second() -> Formula {
    Formula::Var(1)
}

/// One value where the first feature is on, and another elsewhere.
fn by_first(alloc: Global, on: u32, off: u32) -> Result<CondValue<Number>, NoMemory> {
    let on = CondValue::one(alloc, Number(on))?;
    let off = CondValue::one(alloc, Number(off))?;
    CondValue::choose(alloc, &first(), &on, &off)
}

fn by_second(alloc: Global, on: u32, off: u32) -> Result<CondValue<Number>, NoMemory> {
    let on = CondValue::one(alloc, Number(on))?;
    let off = CondValue::one(alloc, Number(off))?;
    CondValue::choose(alloc, &second(), &on, &off)
}

pub(crate) fn show_values<R: Print + AllocGlobal>(rt: &R) -> anyhow::Result<()> {
    let alloc: Global = rt.alloc();
    let chosen = by_first(alloc, 7, 6)?;
    println!(rt; "chosen{}", shown::value(alloc, &chosen)?)?;
    println!(rt;
        "restricted{}",
        shown::value(alloc, &chosen.restrict(alloc, &second())?)?
    )?;
    let halves = chosen.map(alloc, &Half)?;
    println!(rt;
        "mapped{}, {} alternative",
        shown::value(alloc, &halves)?,
        halves.alternatives.len()
    )?;
    let kept = chosen.pruned(alloc, &mut PlainOracle)?;
    println!(rt; "pruned{}", shown::value(alloc, &kept)?)?;
    Ok(())
}

fn some_list(alloc: Global) -> Result<CondList<Number>, NoMemory> {
    let mut list = CondList::empty(alloc);
    list.push(first(), Number(1))?;
    list.push(Formula::True, Number(2))?;
    Ok(list)
}

pub(crate) fn show_lists<R: Print + AllocGlobal>(rt: &R) -> anyhow::Result<()> {
    let alloc: Global = rt.alloc();
    let mut list = some_list(alloc)?;
    println!(rt; "list{}", shown::list(alloc, &list)?)?;
    list.append_under(alloc, &second(), &some_list(alloc)?)?;
    println!(rt; "appended{}", shown::list(alloc, &list)?)?;
    let halves = list.map(alloc, &Half)?;
    println!(rt; "mapped{}", shown::list(alloc, &halves)?)?;
    let empty = CondList::empty(alloc);
    let chosen = CondList::choose(alloc, &first(), &empty, &list)?;
    println!(rt; "chosen{}", shown::list(alloc, &chosen)?)?;
    let kept = chosen
        .restrict(alloc, &second())?
        .pruned(alloc, &mut PlainOracle)?;
    println!(rt; "kept{}", shown::list(alloc, &kept)?)?;
    let some = when_some_hold(alloc, &kept.entries)?;
    println!(rt;
        "some hold: {}",
        some.value(cond_formula::Config { bits: 2 })
    )?;
    Ok(())
}

fn judgement(value: CondValue<Number>, alloc: Global) -> Outcomes<Number, Number> {
    Outcomes {
        fine: value,
        refused: CondList::empty(alloc),
    }
}

pub(crate) fn show_judgements<R: Print + AllocGlobal>(rt: &R) -> anyhow::Result<()> {
    let alloc: Global = rt.alloc();
    let halved = judged(alloc, &Halving, judgement(by_first(alloc, 7, 6)?, alloc))?;
    println!(rt; "judged{}", shown::outcomes(alloc, &halved)?)?;
    let divisor = judgement(by_second(alloc, 2, 0)?, alloc);
    let quotient = crossed(alloc, &Dividing, &mut PlainOracle, halved, divisor)?;
    println!(rt; "crossed{}", shown::outcomes(alloc, &quotient)?)?;
    let one = Outcomes::one(alloc, Number(9))?;
    let chosen = Outcomes::choose(alloc, &first(), &one, &quotient)?;
    println!(rt; "chosen{}", shown::outcomes(alloc, &chosen)?)?;
    Ok(())
}
