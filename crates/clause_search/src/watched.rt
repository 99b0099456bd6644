//! Which clauses are looked at.
ghost use Rattle.std.specs.Prelude.{◌≡◌, [], ◌∷◌, ◌++◌, length, take, IfOk, OnOk};
ghost use Rattle.clause_search.specs.WatchedNumbers as spec;

use cond_formula::NoMemory;
use std::alloc::Global;

/// The numbers of the clauses that are looked at: those that are given, and steps. A step tells what follows from the
/// decisions that stand as it is found, so it can go once one of these is taken back.
#[derive(Drop)]
pub struct Watched {
    numbers: Vec<u32>,
    // how many there were as each decision was taken
    counts: Vec<usize>,
}

impl Watched {
    /// The clauses with the numbers from 1 up to `given`.
    pub fn new(alloc: Global, given: u32) -> Result<Watched, NoMemory>
        ensures numbers { IfOk result (λ w. w.numbers.items ≡ spec.numbers_to given) }
        ensures counts { IfOk result (λ w. w.counts.items ≡ []) }
    {
        let mut numbers = Vec::new(alloc);
        for number in 0..given {
            numbers.push(number + 1)?;
        }
        Ok(Watched {
            numbers,
            counts: Vec::new(alloc),
        })
    }

    /// The numbers, in the order in which the clauses are looked at.
    pub fn numbers(&self) -> &[u32]
        ensures { result.now ≡ self.now.numbers.items }
    {
        self.numbers.as_slice()
    }

    /// Notes that a decision is taken.
    pub fn decide(&mut self) -> Result<(), NoMemory>
        ensures numbers { OnOk result (self.new.numbers.items ≡ self.old.numbers.items) }
        ensures counts { OnOk result (self.new.counts.items ≡ self.old.counts.items ++ length self.old.numbers.items ∷ []) }
    {
        let count = self.numbers.len();
        self.counts.push(count)?;
        Ok(())
    }

    /// Notes that only so many decisions stand, and that there is a step with this number.
    pub fn take_back(&mut self, decisions: usize, step: u32) -> Result<(), NoMemory>
        ensures numbers { OnOk result (self.new.numbers.items ≡ spec.numbers_before self.old.counts.items decisions self.old.numbers.items ++ step ∷ []) }
        ensures counts { OnOk result (self.new.counts.items ≡ take decisions self.old.counts.items) }
    {
        if let Some(count) = self.counts.get(decisions) {
            self.numbers.truncate(*count);
        }
        self.counts.truncate(decisions);
        self.numbers.push(step)?;
        Ok(())
    }
}
