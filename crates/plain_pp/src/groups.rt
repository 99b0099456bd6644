//! The groups of conditional lines that are open.
ghost use Rattle.std.specs.Prelude.{◌≡◌, [], ◌∷◌, OnOk, map, reverse, Some, None};
ghost use Rattle.std.specs.Option.{option_map};
ghost use Rattle.plain_pp.specs.Groups.{plain_group, innermost, left};
ghost use Rattle.file_walks.specs.Walk.{are_read};

use cond_formula::NoMemory;
use std::alloc::Global;
use std::marker::Model;

/// What is done with the branch of a group.
#[derive(Clone, Copy, Debug, PartialEq, Eq)]
pub enum Level {
    /// It is read.
    Reads,
    /// Its condition doesn't hold, and none before it did.
    Waits,
    /// One before it was read.
    Passed,
    /// The whole group is skipped.
    Skipped,
}

/// A group that is open.
#[derive(Clone, Copy, Debug, PartialEq, Eq)]
pub struct Group {
    /// What is done with the branch where the walk is.
    pub level: Level,
    /// Whether that branch is the one behind `#else`.
    pub last: bool,
}

/// The open groups, seen as a list with the innermost first.
#[derive(Drop)]
pub struct OpenGroups {
    /// the outermost first
    groups: Vec<Group>,
}

impl Model for OpenGroups {
    ghost use Rattle.std.specs.Prelude.{List, map, reverse};
    ghost use Rattle.file_walks.specs.Walk.{Open};
    ghost use Rattle.plain_pp.specs.Groups.{plain_group};

    ghost Value = { List Open };

    ghost view = { λ s. map plain_group (reverse s.groups.items) };
}

impl OpenGroups {
    pub fn new(alloc: Global) -> Self
        ensures { result ≡ [] }
    {
        Self {
            groups: Vec::new(alloc),
        }
    }

    pub fn innermost(&self) -> Option<Group>
        ensures { option_map plain_group result ≡ innermost self.now }
    {
        self.groups.last().copied()
    }

    /// Whether lines are read there.
    pub fn are_read(&self) -> bool
        ensures { result ≡ are_read self.now }
    {
        match self.innermost() {
            Some(group) => group.level == Level::Reads,
            None => true,
        }
    }

    pub fn push(&mut self, group: Group) -> Result<(), NoMemory>
        ensures { OnOk result (self.new ≡ plain_group group ∷ self.old) }
    {
        self.groups.push(group)?;
        Ok(())
    }

    /// Closes the innermost group, if there is one.
    pub fn pop(&mut self)
        ensures { self.new ≡ left self.old }
    {
        self.groups.pop();
    }

    /// Goes on with the next branch of the innermost group.
    pub fn turn(&mut self, group: Group) -> Result<(), NoMemory>
        ensures { OnOk result (self.new ≡ plain_group group ∷ left self.old) }
    {
        self.pop();
        self.push(group)?;
        Ok(())
    }
}
