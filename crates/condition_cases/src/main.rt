//! Values, lists, judgements, questions and ties under conditions. What is given is seen in the four configurations of two features: none, the
//! first, the second, both.
#![tactic(auto)]

mod classes;
mod numbers;
mod shown;
mod values;
mod verdicts;

fn run<R: Print + AllocGlobal>(rt: &R) -> anyhow::Result<()> {
    values::show_values(rt)?;
    values::show_lists(rt)?;
    values::show_judgements(rt)?;
    verdicts::show_verdicts(rt)?;
    classes::show_classes(rt)
}

fn main(rt: HostRuntime) -> anyhow::Result<()> {
    run(&rt)
}
