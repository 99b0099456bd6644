//! The groups of conditional lines that are open, in all configurations.
ghost use Rattle.std.specs.Prelude.{◌≡◌, [], ◌∷◌, OnOk};
ghost use Rattle.std.specs.Option.{option_map};
ghost use Rattle.cond_groups.specs.Groups.{plain_group, groups_of, innermost, left};

use cond_formula::{Formula, NoMemory};
use std::alloc::Global;

/// A group that is open.
#[derive(Drop)]
pub struct CondGroup {
    /// Where the group is read: outside every skipped group.
    pub within: Formula,
    /// Where the branch is read in which the walk is.
    pub reads: Formula,
    /// Where no branch was read so far.
    pub waits: Formula,
    /// Whether the branch is the one behind `#else`.
    pub last: bool,
}

/// The open groups.
#[derive(Drop)]
pub struct OpenGroups {
    // the outermost first
    groups: Vec<CondGroup>,
}

impl OpenGroups {
    /// No group is open.
    pub fn new(alloc: Global) -> Self
        ensures { groups_of result ≡ [] }
    {
        Self {
            groups: Vec::new(alloc),
        }
    }

    /// The group that was opened last.
    pub fn innermost(&self) -> Option<&CondGroup>
        ensures { option_map (λ g. plain_group g.now) result ≡ innermost (groups_of self.now) }
    {
        self.groups.last()
    }

    /// Opens a group inside the others.
    pub fn push(&mut self, group: CondGroup) -> Result<(), NoMemory>
        ensures { OnOk result (groups_of self.new ≡ plain_group group ∷ groups_of self.old) }
    {
        self.groups.push(group)?;
        Ok(())
    }

    /// Closes the innermost group, if there is one.
    pub fn pop(&mut self)
        ensures { groups_of self.new ≡ left (groups_of self.old) }
    {
        self.groups.pop();
    }

    /// Goes on with the next branch of the innermost group.
    pub fn turn(&mut self, group: CondGroup) -> Result<(), NoMemory>
        ensures { OnOk result (groups_of self.new ≡ plain_group group ∷ left (groups_of self.old)) }
    {
        self.pop();
        self.push(group)?;
        Ok(())
    }
}
