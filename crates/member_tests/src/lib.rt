//! A test of the uses of members in statements, in all configurations.
#![tactic(auto)]

#[cfg(test)]
mod bodies;
#[cfg(test)]
mod items;
#[cfg(test)]
mod pairs;
#[cfg(test)]
mod spaces;
