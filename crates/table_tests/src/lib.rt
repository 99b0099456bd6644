//! Tests of the tables of names and structs, of expressions that are typed by them, and of compatible types, locals, parameters, structs, objects,
//! functions, first values and units that don't link, in all configurations.
#![tactic(auto)]

#[cfg(test)]
mod compatible;
#[cfg(test)]
mod expressions;
#[cfg(test)]
mod faults;
#[cfg(test)]
mod first_values;
#[cfg(test)]
mod fixtures;
#[cfg(test)]
mod functions;
#[cfg(test)]
mod items;
#[cfg(test)]
mod locals;
#[cfg(test)]
mod objects;
#[cfg(test)]
mod parameters;
#[cfg(test)]
mod questions;
#[cfg(test)]
mod structs;
#[cfg(test)]
mod visible;
