//! What the next token leads to.

ghost use Rattle.std.specs.Prelude.{◌≡◌, ◌-◌, length, map, IfOk, Option};
ghost use Rattle.std.specs.Option.{option_copied};
ghost use Rattle.c_tree.specs.declared.terminals.Terminal.{Terminal as Sort};
ghost use Rattle.c_tree.specs.Trees.{PlainTree};
ghost use Rattle.c_tree.specs.Machine as machine;
ghost use Rattle.grammar_moves.specs.PlainPlaces.{plain_place};
ghost use Rattle.grammar_moves.specs.PlainMoves.{plain_action};
ghost use Rattle.plain_parse.specs.Kept.{of_kept};
ghost use Rattle.plain_parse.specs.Frames.{plain_built, plain_frames};
ghost use Rattle.plain_parse.specs.Turns.{read_as, stepped, turned, LeftIfAgain};

use crate::frames::{Frame, enter, shift, skip, take_first};
use crate::makings::{alone, of_nothing, of_parts, of_token};
use crate::values::Built;
use c_text::Token;
use c_tree::Terminal;
use cond_formula::NoMemory;
use grammar_moves::{Action, Place, back, next_move};
use std::alloc::Global;

/// What a token leads to.
#[derive(Drop)]
pub enum Step {
    /// It stands in the innermost node that has begun.
    GoesOn,
    /// What has been read is whole without it.
    Whole(Built),
    /// It can't stand there.
    Wrong,
}

/// What it leads to in the innermost node.
#[derive(Drop)]
enum Turn {
    /// That node is whole without it, and a part of the node around it: the token is still to be read.
    Again,
    Done(Step),
}

/// The value of a token, or of the end of the text.
fn value_of(alloc: Global, token: Option<&Token>) -> Result<Built, NoMemory>
    ensures { IfOk result (λ value. plain_built value ≡ read_as (option_copied token.entry)) }
{
    match token {
        Some(token) => of_token(alloc, token),
        None => Ok(of_nothing(alloc)),
    }
}

/// A value that ended at a place is the next part of the innermost node, if there is one. Else it is all that was read.
fn arrive(frames: &mut Vec<Frame>, value: Built, ended: Place) -> Result<Turn, NoMemory>
    ensures outcome { IfOk result (λ turn. (kind : Sort) → (token : Option PlainTree) →
        turned kind token turn frames.new.items
        ≡ machine.arrives of_kept kind token (plain_built value) (plain_place ended)
        (plain_frames frames.old.items)) }
    ensures left { IfOk result (λ turn. LeftIfAgain (length frames.old.items) turn frames.new.items) }
{
    let Some(mut outer) = frames.pop() else {
        return Ok(Turn::Done(Step::Whole(value)));
    };
    outer.parts.push(value)?;
    outer.place = back(outer.place, ended);
    frames.push(outer)?;
    Ok(Turn::Again)
}

/// Does what an action says with the frame, which isn't among the others any more.
fn act(
    frames: &mut Vec<Frame>,
    alloc: Global,
    inner: Frame,
    action: Action,
    token: Option<&Token>,
) -> Result<Turn, NoMemory>
    ensures outcome { IfOk result (λ turn. (kind : Sort) →
        turned kind (read_as (option_copied token.entry)) turn frames.new.items
        ≡ machine.moved of_kept (plain_place inner.place) (map plain_built inner.parts.items) (plain_action action)
        (read_as (option_copied token.entry)) (plain_frames frames.old.items)
        (λ whole. machine.arrives of_kept kind (read_as (option_copied token.entry)) whole (plain_place inner.place)
        (plain_frames frames.old.items))) }
    ensures left { IfOk result (λ turn. LeftIfAgain (length frames.old.items) turn frames.new.items) }
{
    let place = inner.place;
    match action {
        Action::Shifts(behind) => {
            let value = value_of(alloc, token)?;
            shift(frames, inner, behind, value)?;
            Ok(Turn::Done(Step::GoesOn))
        }
        Action::Enters(behind, beginning) => {
            let value = value_of(alloc, token)?;
            enter(frames, alloc, inner, behind, beginning, value)?;
            Ok(Turn::Done(Step::GoesOn))
        }
        Action::Takes(behind, second) => {
            let value = value_of(alloc, token)?;
            take_first(frames, alloc, inner, behind, second, value)?;
            Ok(Turn::Done(Step::GoesOn))
        }
        Action::Finishes(kind) => {
            let value = of_parts(alloc, kind, inner.parts)?;
            let turn = arrive(frames, value, place)?;
            Ok(turn)
        }
        Action::Passes => {
            let turn = arrive(frames, alone(alloc, inner.parts), place)?;
            Ok(turn)
        }
        Action::Fails => Ok(Turn::Done(Step::Wrong)),
    }
}

/// Goes on with the innermost node.
fn take_turn(
    frames: &mut Vec<Frame>,
    alloc: Global,
    terminal: Terminal,
    token: Option<&Token>,
) -> Result<Turn, NoMemory>
    ensures outcome { IfOk result (λ turn. turned terminal (read_as (option_copied token.entry)) turn frames.new.items
        ≡ machine.outcome of_kept terminal (read_as (option_copied token.entry)) (plain_frames frames.old.items)) }
    ensures left { IfOk result (λ turn. LeftIfAgain (length frames.old.items - 1) turn frames.new.items) }
{
    let Some(mut inner) = frames.pop() else {
        return Ok(Turn::Done(Step::Wrong));
    };
    let next = next_move(inner.place, terminal);
    skip(&mut inner.parts, alloc, next.skipped)?;
    let turn = act(frames, alloc, inner, next.action, token)?;
    Ok(turn)
}

/// Goes on with the next token, or with the end of the text.
pub fn read_next(
    frames: &mut Vec<Frame>,
    alloc: Global,
    terminal: Terminal,
    token: Option<&Token>,
) -> Result<Step, NoMemory>
    ensures { IfOk result (λ step. stepped step frames.new.items
        ≡ machine.outcome of_kept terminal (read_as (option_copied token.entry)) (plain_frames frames.old.items)) }
{
    for _ in 0..frames.len() {
        match take_turn(frames, alloc, terminal, token)? {
            Turn::Again => {}
            Turn::Done(step) => return Ok(step),
        }
    }
    Ok(Step::Wrong)
}
