//! Tests of the expansions of small items, and of the sizes of arrays, in all configurations.
#![tactic(auto)]

#[cfg(test)]
mod expansions;
#[cfg(test)]
mod items;
#[cfg(test)]
mod sizes;
