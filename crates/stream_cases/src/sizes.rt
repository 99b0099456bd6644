//! How large streams are.
use anyhow::Result;
use cond_tokens::CondStream;

/// Prints how many tokens the stream has, and how many nodes its conditions have, that of its refusal among them.
pub(crate) fn show_sizes<R: Print>(rt: &R, stream: &CondStream) -> Result<()> {
    let mut count = stream.refused.size();
    for entry in &stream.tokens {
        count = count.saturating_add(entry.when.size());
    }
    println!(rt; "  {} tokens, {count} nodes", stream.tokens.len())?;
    Ok(())
}
