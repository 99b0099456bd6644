//! The nodes that have begun.

ghost use Rattle.std.specs.Prelude.{◌≡◌, ◌++◌, [], ◌∷◌, map, replicate, Some, OnOk, IfOk};
ghost use Rattle.c_tree.specs.Machine as machine;
ghost use Rattle.grammar_moves.specs.PlainPlaces.{plain_place, plain_around};
ghost use Rattle.grammar_moves.specs.PlainMoves.{plain_start, plain_node_start, begun_by};
ghost use Rattle.plain_parse.specs.Kept.{of_kept};
ghost use Rattle.plain_parse.specs.Frames.{plain_built, plain_frame, plain_frames};

use crate::makings::of_nothing;
use crate::values::Built;
use c_tree::Kind;
use cond_formula::NoMemory;
use grammar_moves::{Beginning, Category, NodeStart, Place, Start};
use std::alloc::Global;

/// A node that has begun: the place in it, and its parts so far.
#[derive(Drop)]
pub struct Frame {
    pub place: Place,
    pub parts: Vec<Built>,
}

impl Frame {
    fn new(alloc: Global, place: Place) -> Frame
        ensures { plain_frame result ≡ machine.frame (plain_place place) [] }
    {
        Frame {
            place,
            parts: Vec::new(alloc),
        }
    }
}

/// Before the first token: a unit has begun.
pub fn start(alloc: Global) -> Result<Vec<Frame>, NoMemory>
    ensures { IfOk result (λ frames. plain_frames frames.items ≡ machine.start) }
{
    let unit = Frame::new(alloc, Place::InList(Kind::Unit, Category::FileItem));
    Ok(vec![in alloc; unit]?)
}

/// Leaves so many parts out.
pub fn skip(parts: &mut Vec<Built>, alloc: Global, count: usize) -> Result<(), NoMemory>
    ensures { OnOk result (map plain_built parts.new.items
        ≡ map plain_built parts.old.items ++ replicate count of_kept.of_nothing) }
{
    for _ in 0..count {
        parts.push(of_nothing(alloc))?;
    }
    Ok(())
}

/// Begins a node, if there is one.
fn begin(frames: &mut Vec<Frame>, alloc: Global, place: Option<Place>) -> Result<(), NoMemory>
    ensures { OnOk result (plain_frames frames.new.items
        ≡ machine.nested (plain_around place) (plain_frames frames.old.items)) }
{
    if let Some(place) = place {
        frames.push(Frame::new(alloc, place))?;
    }
    Ok(())
}

fn begin_innermost(
    frames: &mut Vec<Frame>,
    alloc: Global,
    start: Start,
    token: Built,
) -> Result<(), NoMemory>
    ensures { OnOk result (machine.goes_on (plain_frames frames.new.items)
        ≡ machine.begun of_kept (plain_start (Some start)) (plain_built token) (plain_frames frames.old.items)) }
{
    begin(frames, alloc, start.around)?;
    let mut inner = Frame::new(alloc, start.inner);
    if start.skips {
        inner.parts.push(of_nothing(alloc))?;
    }
    inner.parts.push(token)?;
    frames.push(inner)?;
    Ok(())
}

fn begin_node(
    frames: &mut Vec<Frame>,
    alloc: Global,
    node: NodeStart,
    token: Built,
) -> Result<(), NoMemory>
    ensures { OnOk result (machine.goes_on (plain_frames frames.new.items)
        ≡ machine.begun of_kept (plain_node_start (Some node)) (plain_built token) (plain_frames frames.old.items)) }
{
    begin(frames, alloc, node.around)?;
    begin_innermost(frames, alloc, node.start, token)?;
    Ok(())
}

/// Begins the nodes that begin with a token.
fn begin_with(
    frames: &mut Vec<Frame>,
    alloc: Global,
    beginning: Beginning,
    token: Built,
) -> Result<(), NoMemory>
    ensures { OnOk result (machine.goes_on (plain_frames frames.new.items)
        ≡ machine.begun of_kept (begun_by beginning) (plain_built token) (plain_frames frames.old.items)) }
{
    begin(frames, alloc, beginning.around)?;
    begin_node(frames, alloc, beginning.start, token)?;
    Ok(())
}

/// The token is the next part of the node, behind which is this place.
pub fn shift(
    frames: &mut Vec<Frame>,
    inner: Frame,
    behind: Place,
    token: Built,
) -> Result<(), NoMemory>
    ensures { OnOk result (plain_frames frames.new.items
        ≡ machine.frame (plain_place behind) (map plain_built inner.parts.items ++ plain_built token ∷ [])
        ∷ plain_frames frames.old.items) }
{
    let mut parts = inner.parts;
    parts.push(token)?;
    frames.push(Frame {
        place: behind,
        parts,
    })?;
    Ok(())
}

/// A part of the node begins with the token; behind it is this place.
pub fn enter(
    frames: &mut Vec<Frame>,
    alloc: Global,
    inner: Frame,
    behind: Place,
    beginning: Beginning,
    token: Built,
) -> Result<(), NoMemory>
    ensures { OnOk result (machine.goes_on (plain_frames frames.new.items)
        ≡ machine.begun of_kept (begun_by beginning) (plain_built token)
        (machine.frame (plain_place behind) (map plain_built inner.parts.items) ∷ plain_frames frames.old.items)) }
{
    frames.push(Frame {
        place: behind,
        parts: inner.parts,
    })?;
    begin_with(frames, alloc, beginning, token)?;
    Ok(())
}

/// The token is the second part of a node whose first is that of this one, and behind that node is this place.
pub fn take_first(
    frames: &mut Vec<Frame>,
    alloc: Global,
    inner: Frame,
    behind: Place,
    place: Place,
    token: Built,
) -> Result<(), NoMemory>
    ensures { OnOk result (plain_frames frames.new.items
        ≡ machine.frame (plain_place place) (map plain_built inner.parts.items ++ plain_built token ∷ [])
        ∷ machine.frame (plain_place behind) [] ∷ plain_frames frames.old.items) }
{
    frames.push(Frame::new(alloc, behind))?;
    shift(frames, inner, place, token)?;
    Ok(())
}
