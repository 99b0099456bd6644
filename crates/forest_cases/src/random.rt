//! Units with conditions at random places.
use crate::comparing::{compared, read_stream};
use c_lexer::lex;
use cond_formula::{Config, Formula, NoMemory};
use cond_tokens::{CondStream, CondToken};
use std::alloc::Global;

#[derive(Drop)]
struct Draws {
    x: u64,
}

impl Draws {
    fn draw(&mut self, below: u64) -> u64 {
        self.x = (self.x.wrapping_mul(1103515245).wrapping_add(12345)) % 2147483648;
        if below == 0 {
            0
        } else {
            (self.x / 65536) % below
        }
    }

    /// One of three features.
    fn feature(&mut self) -> u8 {
        self.draw(3).min(2) as u8
    }
}

fn condition(alloc: Global, draws: &mut Draws) -> Result<Formula, NoMemory> {
    let a = Formula::Var(draws.feature());
    let b = Formula::not(alloc, Formula::Var(draws.feature()))?;
    match draws.draw(6) {
        0 | 1 => Ok(a),
        2 | 3 => Ok(b),
        4 => Formula::and(alloc, a, b),
        _ => Formula::or(alloc, a, b),
    }
}

fn stream(
    alloc: Global,
    text: &[u8],
    draws: &mut Draws,
    groups: u64,
) -> Result<CondStream, NoMemory> {
    let mut tokens = Vec::new(alloc);
    if text.len() < 4_294_967_295 {
        for line in lex(alloc, 0, text)? {
            for token in line.tokens {
                tokens.push(CondToken {
                    token,
                    when: Formula::True,
                })?;
            }
        }
    }
    let count = tokens.len() as u64;
    for _ in 0..groups {
        let start = draws.draw(count);
        let length = draws.draw(6).saturating_add(1);
        let when = condition(alloc, draws)?;
        for i in start..start.saturating_add(length).min(count) {
            if let Some(entry) = tokens.get_mut(i as usize) {
                let before = std::mem::replace(&mut entry.when, Formula::True);
                entry.when = Formula::and(alloc, before, when.try_clone(alloc)?)?;
            }
        }
    }
    Ok(CondStream {
        tokens,
        refused: Formula::False,
    })
}

pub(crate) fn try_some<R: Print>(
    rt: &R,
    alloc: Global,
    text: &[u8],
    seed: u64,
    times: u64,
    groups: u64,
) -> anyhow::Result<()> {
    let mut draws = Draws { x: seed };
    let mut comparisons = 0u64;
    let mut differ = 0u64;
    for _ in 0..times {
        let before = draws.x;
        let stream = stream(alloc, text, &mut draws, groups)?;
        let parsed = read_stream(alloc, &stream)?;
        for bits in 0..8u32 {
            let config = Config {
                bits: u128::from(bits),
            };
            let said = compared(alloc, &stream, &parsed, config)?;
            comparisons = comparisons.wrapping_add(1);
            if !said.is_same() {
                differ = differ.wrapping_add(1);
                println!(rt; "seed {before} in {bits}: {said}")?;
            }
        }
    }
    println!(rt; "units with conditions at random: {comparisons} comparisons, {differ} differ")?;
    Ok(())
}
