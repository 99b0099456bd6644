//! A run under way.

use core_meaning::CoreProgram;
use core_memory::Memory;
use interp_actions::{Control, Frame};
use std::alloc::Global;

/// A run under way.
#[derive(Drop)]
pub struct Machine<'a> {
    pub alloc: Global,
    pub program: &'a CoreProgram,
    /// The input that is left.
    pub input: &'a [u8],
    pub output: Vec<u8>,
    pub memory: Memory<'a>,
    /// The temporary objects of the full expression under way.
    pub temporaries: Vec<usize>,
    pub frame: Frame<'a>,
    pub control: Control<'a>,
}
