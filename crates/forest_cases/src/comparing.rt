//! Whether the parser of all configurations says of each what that of one configuration says.

use crate::streams::{stream_of, tokens_in};
use choice_parser::{Parsed, parse_all};
use choice_trees::{Choice, Item};
use cond_formula::{Config, Formula, NoMemory, PlainOracle};
use cond_tokens::CondStream;
use std::alloc::{AllocError, Global};
use tree_comparisons::Comparison;

#[derive(Clone, Copy, Debug)]
pub(crate) struct Size {
    pub leaves: u64,
    pub items: u64,
    pub formulas: u64,
}

pub(crate) fn size_of(parts: &[Choice<Item>], size: Size) -> Size {
    let mut size = size;
    for part in parts {
        for (when, item) in &part.branches {
            size.items = size.items.saturating_add(1);
            size.formulas = size.formulas.saturating_add(when.size());
            match item {
                Item::Leaf(..) => size.leaves = size.leaves.saturating_add(1),
                Item::Node(_, parts) => size = size_of(parts, size),
            }
        }
    }
    size
}

/// Compares what the trees of all configurations say of one with its own tree, or with its refusal.
pub(crate) fn compared(
    alloc: Global,
    stream: &CondStream,
    parsed_all: &Parsed,
    c: Config,
) -> Result<Comparison, NoMemory> {
    let tokens = tokens_in(alloc, stream, c)?;
    if tokens.len() < 4_294_967_295 {
        tree_comparisons::compared(alloc, &tokens, parsed_all, c)
    } else {
        Err(AllocError)
    }
}

/// The trees of a stream in all configurations.
pub(crate) fn read_stream(alloc: Global, stream: &CondStream) -> Result<Parsed, NoMemory> {
    if stream.tokens.len() < 4_294_967_295 {
        parse_all(alloc, stream, &mut PlainOracle)
    } else {
        Err(AllocError)
    }
}

/// The stream of a text and its trees in all configurations.
pub(crate) fn read(alloc: Global, text: &[u8]) -> Result<(CondStream, Parsed), NoMemory> {
    let stream = stream_of(alloc, text)?;
    let parsed = read_stream(alloc, &stream)?;
    Ok((stream, parsed))
}
