//! What is seen of a stream.
ghost use Rattle.std.specs.Prelude.{◌≤◌};

use anyhow::Result;
use cond_formula::Config;
use cond_tokens::CondStream;
use std::alloc::{AllocError, Global};

/// The tokens that are present in the configuration.
fn spelled(alloc: Global, stream: &CondStream, c: Config) -> Result<String, AllocError> {
    let mut text = String::new(alloc);
    for entry in &stream.tokens {
        if entry.when.value(c) {
            text.push_str(" ")?;
            text.push_str(&String::from_utf8_lossy(alloc, &entry.token.text)?)?;
        }
    }
    Ok(text)
}

/// Prints the stream in each configuration of so many features, of which there are a few. The first feature is the lowest bit.
pub(crate) fn show_stream<R: Print + AllocGlobal>(
    rt: &R,
    features: usize,
    stream: &CondStream,
) -> Result<()>
    requires { features ≤ 2 }
{
    for bits in 0..1u128 << features {
        let c = Config { bits };
        if stream.refused.value(c) {
            println!(rt; "  {bits}: refused")?;
        } else {
            println!(rt; "  {bits}:{}", spelled(rt.alloc(), stream, c)?)?;
        }
    }
    Ok(())
}
