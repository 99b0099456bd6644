//! What directives say of tokens under conditions: values of expressions, and what replaces lists where macros are defined, each seen in the
//! four configurations of two features: none, the first, the second, both.
#![tactic(auto)]

mod expressions;
mod lines;
mod replacements;

fn run<R: Print + AllocGlobal>(rt: &R) -> anyhow::Result<()> {
    expressions::show_expressions(rt)?;
    expressions::show_chain(rt)?;
    replacements::show_replacements(rt)
}

fn main(rt: HostRuntime) -> anyhow::Result<()> {
    run(&rt)
}
