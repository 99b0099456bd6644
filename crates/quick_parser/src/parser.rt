//! The parser: one symbol at a time.
ghost use Rattle.std.specs.Prelude.{◌≡◌, OnOk, OnErr, IfOk, is_some, unwrap_or, map};
ghost use Rattle.std.specs.List.{list_any};
ghost use Rattle.std.specs.Str.{bytes_eq};
ghost use Rattle.quick_parser.specs.declared.spots.Move.TheVariants.{Enter};
ghost use Rattle.quick_parser.specs.declared.spots.Frame.TheVariants.{Group};
ghost use Rattle.quick_parser.specs.Spots.{moved, spot_move};
ghost use Rattle.quick_parser.specs.Steps.{start, with_test, noted, step, is_entry, is_complete};
ghost use Rattle.quick_lexer.specs.View.{symbol_view};

use crate::frames::OpenFrames;
use crate::moves::next_move;
use crate::spots::{Frame, Move, Place};
use crate::tested::TestedNames;
use quick_lexer::Symbol;
use std::alloc::{AllocError, Global};
use std::marker::Model;

/// Want of memory.
pub type NoMemory = AllocError;

/// A reader of a file's symbols, seen as its state: where it stands, and the names tested so far. What it has taken is
/// always the beginning of some file of the quick form.
#[derive(Drop)]
pub struct Parser {
    place: Place,
    frames: OpenFrames,
    tested: TestedNames,
}

impl Model for Parser {
    ghost use Rattle.quick_parser.specs.Steps.{State};

    ghost Value = { State };

    ghost view = { λ p. record { spot = record { place = p.place; open_frames = p.frames }; tested_names = p.tested } };
}

impl Parser {
    /// A parser before the first symbol.
    pub fn new(alloc: Global) -> Self
        ensures { result ≡ start }
    {
        Self {
            place: Place::Entry,
            frames: OpenFrames::new(alloc),
            tested: TestedNames::new(alloc),
        }
    }

    /// What the grammar lets the symbol do.
    fn next_move(&self, symbol: &Symbol) -> Option<Move>
        ensures { result ≡ spot_move self.now.spot (symbol_view symbol.now) }
    {
        next_move(
            self.place,
            self.frames.innermost(),
            self.frames.block_count(),
            symbol,
        )
    }

    /// Whether the limit on tested names lets the symbol stand.
    fn has_room(&self, symbol: &Symbol) -> bool
        ensures { result ≡ is_some (noted self.now.tested_names (symbol_view symbol.now)) }
    {
        match symbol {
            Symbol::Ifdef(name) => self.tested.has_room(name),
            _ => true,
        }
    }

    /// Whether some file of the form goes on with this symbol.
    pub fn accepts(&self, symbol: &Symbol) -> bool
        ensures { result ≡ is_some (step self.now (symbol_view symbol.now)) }
    {
        self.has_room(symbol) && self.next_move(symbol).is_some()
    }

    /// Moves on, where no name is tested.
    fn make(&mut self, next: Move) -> Result<(), NoMemory>
        ensures ok { OnOk result (self.new ≡ record self.old { spot = moved self.old.spot.open_frames next }) }
        ensures err { OnErr result (self.new ≡ self.old) }
    {
        match next {
            Move::To(place) => {
                self.place = place;
            }
            Move::Enter(frame) => {
                self.frames.push(frame)?;
                self.place = Place::Entry;
            }
            Move::Turn => {
                self.frames.turn();
                self.place = Place::Entry;
            }
            Move::Leave => {
                self.frames.pop();
                self.place = Place::Entry;
            }
        }
        Ok(())
    }

    /// Opens a group that tests the name.
    fn open_group(&mut self, name: &[u8]) -> Result<(), NoMemory>
        ensures spot { OnOk result (self.new.spot ≡ moved self.old.spot.open_frames (Enter Group)) }
        ensures names { OnOk result (self.new.tested_names ≡ with_test self.old.tested_names name.now) }
        ensures err { OnErr result (self.new ≡ self.old) }
    {
        self.frames.push(Frame::Group)?;
        if let Err(error) = self.tested.note(name) {
            self.frames.pop();
            return Err(error);
        }
        self.place = Place::Entry;
        Ok(())
    }

    /// Goes on with the symbol, and answers whether it is accepted. The parser stays as it was after a symbol that isn't, and
    /// after want of memory.
    pub fn take(&mut self, symbol: &Symbol) -> Result<bool, NoMemory>
        ensures answer { IfOk result (λ taken. taken ≡ is_some (step self.old (symbol_view symbol.now))) }
        ensures state { OnOk result (self.new ≡ unwrap_or (step self.old (symbol_view symbol.now)) self.old) }
        ensures err { OnErr result (self.new ≡ self.old) }
    {
        if !self.has_room(symbol) {
            return Ok(false);
        }
        let Some(next) = self.next_move(symbol) else {
            return Ok(false);
        };
        if let Symbol::Ifdef(name) = symbol {
            self.open_group(name)?;
        } else {
            self.make(next)?;
        }
        Ok(true)
    }

    /// Whether an entry of a list may begin here, or a directive stand.
    pub fn is_at_entry(&self) -> bool
        ensures { result ≡ is_entry self.now.spot.place }
    {
        self.place == Place::Entry
    }

    /// Whether the symbols so far are all of a file.
    pub fn is_complete(&self) -> bool
        ensures { result ≡ is_complete self.now }
    {
        self.place == Place::Entry && self.frames.innermost().is_none()
    }

    /// The tested names, each once, in the order of their first tests.
    pub fn tested(&self) -> &[Vec<u8>]
        ensures { map (λ v. v.items) result.now ≡ self.now.tested_names }
    {
        self.tested.names()
    }

    /// Whether a name was tested. The look-up is by a hash.
    pub fn has_tested(&self, name: &[u8]) -> bool
        ensures { result ≡ list_any (bytes_eq name.now) self.now.tested_names }
    {
        self.tested.contains(name)
    }
}
