//! Where one stands in a node whose parts so far are given.

use c_tree::Kind;
use choice_trees::{Choice, Item};
use cond_formula::Formula;
use grammar_moves::Place;

/// Where one stands in a node.
#[derive(Drop)]
pub enum State {
    /// No unit goes on so.
    Dead,
    /// At this place, behind all parts. Whether it is still to be asked what the tokens ahead do there.
    At(Place, bool),
    /// In a part of the node, behind which is this place; its parts so far, and where one stands in it.
    In(Place, Vec<Choice<Item>>, Box<State>),
    /// The node is whole, whatever token comes next.
    Closed(Closing),
    /// In a list that hasn't begun, since it has no entry, and doesn't begin: the place around it. Whether a token waits.
    Unbegun(Place, bool),
    /// The node's parts are the first of another; the place behind that node, and in it.
    Taken(Place, Place),
    /// Where the formula is true the one, elsewhere the other.
    Split(Formula, Box<State>, Box<State>),
}

/// How a node is whole: as a node of this kind or as its one part, and the place at which it ended. Whether a token waits.
#[derive(Clone, Copy)]
pub struct Closing {
    pub kind: Option<Kind>,
    pub ended: Place,
    pub waited_for: bool,
}

/// What becomes of a node.
#[derive(Drop)]
pub enum After {
    /// It has these parts so far, and one stands there in it.
    Open(Vec<Choice<Item>>, Box<State>),
    /// It is the one of these alternatives that holds, and ended at this place.
    Whole(Choice<Item>, Place),
    /// It is a list that hasn't begun: the place around it.
    Unbegun(Place),
    /// No unit goes on so.
    Dead,
    /// Where the formula is true the one, elsewhere the other.
    Split(Formula, Box<After>, Box<After>),
}
