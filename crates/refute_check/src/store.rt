//! The literals of the accepted clauses, one after another.

ghost use Rattle.std.specs.Prelude.{◌≡◌, ◌+◌, ◌<◌, ◌≤◌, [], ◌∷◌, ◌++◌, length, vec_len, vec_capacity};
ghost use Rattle.std.specs.Option.{option_copied};
ghost use Rattle.refute_check.specs.Steps.{clause_at};
ghost use Rattle.refute_check.specs.Entries.{clauses_of, entry};
ghost use Rattle.refute_check.specs.Storage.{entries_in, AreWithin};

/// Where the literals of an accepted clause lie, and whether it was derived by a step.
#[derive(Clone, Copy)]
pub struct Stored {
    pub start: usize,
    pub end: usize,
    pub derived: bool,
}

/// The clause with this number, counted from 1.
pub fn clause_with<'a>(literals: &'a [i32], clauses: &[Stored], number: u32) -> Option<&'a [i32]>
    requires { AreWithin literals.now clauses.now }
    ensures { option_copied result ≡ clause_at (clauses_of (entries_in literals.now clauses.now)) number }
{
    let index = (number as usize).checked_sub(1)?;
    let stored = *clauses.get(index)?;
    Some(&literals[stored.start..stored.end])
}

/// Appends a clause.
pub fn store(literals: &mut Vec<i32>, clauses: &mut Vec<Stored>, clause: &[i32], derived: bool)
    requires literal_room { vec_len literals.old + length clause.now ≤ vec_capacity literals.old }
    requires clause_room { vec_len clauses.old < vec_capacity clauses.old }
    ensures literals { literals.new.items ≡ literals.old.items ++ clause.now }
    ensures entries { AreWithin literals.old.items clauses.old.items →
        entries_in literals.new.items clauses.new.items ≡ entries_in literals.old.items clauses.old.items
        ++ entry clause.now derived ∷ [] }
    ensures within { AreWithin literals.old.items clauses.old.items → AreWithin literals.new.items clauses.new.items }
    ensures literal_count { vec_len literals.new ≡ vec_len literals.old + length clause.now }
    ensures clause_count { vec_len clauses.new ≡ vec_len clauses.old + 1 }
    ensures literal_capacity { vec_capacity literals.old ≤ vec_capacity literals.new }
    ensures clause_capacity { vec_capacity clauses.old ≤ vec_capacity clauses.new }
{
    let start = literals.len();
    literals.extend_from_slice(clause).unwrap();
    let end = literals.len();
    clauses
        .push(Stored {
            start,
            end,
            derived,
        })
        .unwrap();
}
