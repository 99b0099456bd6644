//! Prints the streams of the projects that it is called with: of a project with few features what is seen in each configuration,
//! and which tokens of its files are active there and while which names, of others how many tokens they have and how large the
//! conditions are. Of projects with few features it prints too what their identifiers are bound to, and which names of file scope
//! their expressions use.
#![tactic(auto)]

mod bound;
mod projects;
mod readings;
mod shown;
mod sizes;

use std::alloc::Global;
use std::env;
use std::rt::{Env, Files};

fn run<R: Files + Env + Print + AllocGlobal>(rt: &R) -> anyhow::Result<()> {
    let alloc: Global = rt.alloc();
    let names: Vec<String> = env::args(rt)?.skip(1).collect(alloc)?;
    for name in &names {
        projects::show_project(rt, name)?;
    }
    Ok(())
}

fn main(rt: HostRuntime) -> anyhow::Result<()> {
    run(&rt)
}
