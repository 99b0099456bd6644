//! The open blocks and groups of a parser.
ghost use Rattle.std.specs.Prelude.{◌≡◌, [], ◌∷◌, OnOk, OnErr, Some};
ghost use Rattle.quick_parser.specs.Spots.{block_count, innermost, left_frames, turned_frames};

use crate::spots::Frame;
use std::alloc::{AllocError, Global};
use std::marker::Model;

/// The open frames, seen as a list with the innermost first.
#[derive(Drop)]
pub struct OpenFrames {
    /// the outermost first
    frames: Vec<Frame>,
    blocks: usize,
}

impl Model for OpenFrames {
    ghost use Rattle.std.specs.Prelude.{◌≡◌, List, reverse};
    ghost use Rattle.quick_parser.specs.declared.spots.Frame.{Frame};
    ghost use Rattle.quick_parser.specs.Spots.{block_count};

    ghost Value = { List Frame };

    ghost view = { λ s. reverse s.frames.items };

    ghost invariant = { λ s. s.blocks ≡ block_count (reverse s.frames.items) };
}

impl OpenFrames {
    pub fn new(alloc: Global) -> Self
        ensures { result ≡ [] }
    {
        Self {
            frames: Vec::new(alloc),
            blocks: 0,
        }
    }

    /// How many blocks are open.
    pub fn block_count(&self) -> usize
        ensures { result ≡ block_count self.now }
    {
        self.blocks
    }

    pub fn innermost(&self) -> Option<Frame>
        ensures { result ≡ innermost self.now }
    {
        self.frames.last().copied()
    }

    pub fn push(&mut self, frame: Frame) -> Result<(), AllocError>
        ensures ok { OnOk result (self.new ≡ frame ∷ self.old) }
        ensures err { OnErr result (self.new ≡ self.old) }
    {
        self.frames.push(frame)?;
        if frame == Frame::Block {
            self.blocks += 1;
        }
        Ok(())
    }

    /// Takes the innermost frame away, if there is one.
    pub fn pop(&mut self)
        ensures { self.new ≡ left_frames self.old }
    {
        if let Some(Frame::Block) = self.frames.pop() {
            self.blocks -= 1;
        }
    }

    /// Begins the other branch of a group, if that is the innermost frame.
    pub fn turn(&mut self)
        ensures { self.new ≡ turned_frames self.old }
    {
        if let Some(Frame::Group) = self.innermost() {
            let last = self.frames.len() - 1;
            self.frames[last] = Frame::Alternative;
        }
    }
}
