//! What a list of tokens is read as.

ghost use Rattle.std.specs.Prelude.{◌≡◌, map, IfOk, option_map};
ghost use Rattle.c_text.specs.Token.{plain_token};
ghost use Rattle.c_tree.specs.Machine as machine;
ghost use Rattle.plain_parse.specs.Kept.{of_kept};
ghost use Rattle.plain_parse.specs.Frames.{plain_built, plain_frames};
ghost use Rattle.plain_parse.specs.Readings.{Continues, ReadsAs};

use crate::frames::{Frame, start};
use crate::turns::{Step, read_next};
use crate::values::Built;
use c_text::Token;
use c_tree::{Terminal, terminal};
use cond_formula::NoMemory;
use std::alloc::Global;

/// What tokens are read as.
#[derive(Drop)]
pub enum Reading {
    Whole(Built),
    /// So many of them can be read.
    Fault(usize),
}

/// Goes on with the token, and answers whether it can stand there.
fn take_token(frames: &mut Vec<Frame>, alloc: Global, token: &Token) -> Result<bool, NoMemory>
    ensures { IfOk result
        (Continues (plain_frames frames.old.items) (plain_token token.now) (plain_frames frames.new.items)) }
{
    match read_next(frames, alloc, terminal(token), Some(token))? {
        Step::GoesOn => Ok(true),
        Step::Whole(_) => Ok(false),
        Step::Wrong => Ok(false),
    }
}

/// What was read, if it may end here.
fn finish(frames: &mut Vec<Frame>, alloc: Global) -> Result<Option<Built>, NoMemory>
    ensures { IfOk result (λ value.
        option_map plain_built value ≡ machine.finished of_kept (plain_frames frames.old.items)) }
{
    match read_next(frames, alloc, Terminal::Other, None)? {
        Step::Whole(value) => Ok(Some(value)),
        Step::GoesOn => Ok(None),
        Step::Wrong => Ok(None),
    }
}

/// Reads the tokens.
pub fn read(alloc: Global, tokens: &[Token]) -> Result<Reading, NoMemory>
    ensures { IfOk result (ReadsAs (map plain_token tokens.now)) }
{
    let mut frames = start(alloc)?;
    for (place, token) in tokens.iter().enumerate() {
        if !take_token(&mut frames, alloc, token)? {
            return Ok(Reading::Fault(place));
        }
    }
    match finish(&mut frames, alloc)? {
        Some(value) => Ok(Reading::Whole(value)),
        None => Ok(Reading::Fault(tokens.len())),
    }
}
