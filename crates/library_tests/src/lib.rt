//! Tests of public calls that no program reaches, and of what only a test can show.
#![tactic(auto)]

#[cfg(test)]
mod choices;
#[cfg(test)]
mod declarations;
#[cfg(test)]
mod formulas;
#[cfg(test)]
mod heights;
#[cfg(test)]
mod new_names;
#[cfg(test)]
mod occurrences;
#[cfg(test)]
mod paths;
#[cfg(test)]
mod refutations;
#[cfg(test)]
mod spans;
#[cfg(test)]
mod states;
#[cfg(test)]
mod tokens;
#[cfg(test)]
mod trees;
#[cfg(test)]
mod types;
