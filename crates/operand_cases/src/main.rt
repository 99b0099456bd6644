//! What operators make of operands whose types two features decide, in each of the four configurations: none, the first, the
//! second, both. An operand is written as a type, `object` before it where it is an object, and `part` where its struct is
//! incomplete; first as it is where the feature is on, and then as it is elsewhere. At the end stand sums of names that other
//! features decide.
#![tactic(auto)]

mod operators;
mod shown;
mod sums;
mod written;

fn run<R: Print + AllocGlobal>(rt: &R) -> anyhow::Result<()> {
    operators::show_operands(rt)?;
    operators::show_pairs(rt)?;
    sums::show_sums(rt)?;
    Ok(())
}

fn main(rt: HostRuntime) -> anyhow::Result<()> {
    run(&rt)
}
