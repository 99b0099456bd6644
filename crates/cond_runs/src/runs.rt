//! Lists under conditions while they are replaced, from left to right.
ghost use Rattle.std.specs.Prelude.{◌≡◌, ℕ, Bool, false, ◌&&◌, ◌||◌, [], ◌∷◌, map, IfOk, OnOk};
ghost use Rattle.std.specs.Option.{option_map};
ghost use Rattle.c_text.specs.Token.{plain_token};
ghost use Rattle.c_text.specs.Macros as spec;
ghost use Rattle.cond_formula.specs.Conditions.{condition_of, value};
ghost use Rattle.cond_bodies.specs.CondItems.{item_at};
ghost use Rattle.cond_runs.specs.CondCalls.{calls_at};
ghost use Rattle.cond_runs.specs.Pieces.{some_open};

use crate::calls::Call;
use crate::finished::Finished;
use c_text::Token;
use cond_bodies::{Item, push, push_brought};
use cond_formula::{Formula, NoMemory};
use conditional::Guarded;
use reduced_conditions::{both_of, either};
use std::alloc::Global;
use std::mem;

/// A list up to one of its items: what these gave, the calls that are open, of which a configuration has one at most, and
/// where a call was refused.
#[derive(Drop)]
pub struct Run<'t> {
    pub done: Vec<Guarded<Item<'t>>>,
    pub calls: Vec<Call<'t>>,
    pub refused: Formula,
}

// Where one of the calls is open.
fn when_open(alloc: Global, calls: &[Call<'_>]) -> Result<Formula, NoMemory>
    ensures { IfOk result (λ f. (on : ℕ → Bool) → value on (condition_of f) ≡ some_open (calls_at on calls.now)) }
{
    let mut some = Formula::False;
    for call in calls {
        some = either(alloc, some, call.when.try_clone(alloc)?)?;
    }
    Ok(some)
}

impl<'t> Run<'t> {
    ghost use Rattle.cond_runs.specs.CondCalls.{held_at};
    ghost use Rattle.cond_runs.specs.CondFinished.{given_at};
    ghost use Rattle.cond_runs.specs.Pieces.{also, under_piece, items_piece, given_piece, open_piece, ended, nothing_done, without_calls};
    ghost use Rattle.cond_runs.specs.CondRuns.{run_at};

    /// Nothing is read yet.
    #[tactic(auto, unfolding(crate::specs::CondRuns::run_at))]
    pub fn begun(alloc: Global) -> Run<'t>
        ensures { (exact : Bool) (on : ℕ → Bool) → run_at exact on result ≡ nothing_done }
    {
        Run {
            done: Vec::new(alloc),
            calls: Vec::new(alloc),
            refused: Formula::False,
        }
    }

    /// The open calls, which are taken out.
    #[tactic(auto, unfolding(crate::specs::CondRuns::run_at))]
    pub fn taken_calls(&mut self, alloc: Global) -> Vec<Call<'t>>
        ensures calls { result.items ≡ self.old.calls.items }
        ensures rest { (exact : Bool) (on : ℕ → Bool) → run_at exact on self.new ≡ without_calls (run_at exact on self.old) }
    {
        mem::replace(&mut self.calls, Vec::new(alloc))
    }

    /// One more item, where a condition holds.
    #[tactic(auto, unfolding(crate::specs::CondRuns::run_at))]
    pub fn push_item(&mut self, when: Formula, item: Item<'t>) -> Result<(), NoMemory>
        ensures { OnOk result ((exact : Bool) (on : ℕ → Bool) → run_at exact on self.new ≡ also (run_at exact on self.old) (under_piece (value on (condition_of when)) (items_piece exact (item_at on item.entry ∷ [])))) }
    {
        push(&mut self.done, when, item)?;
        Ok(())
    }

    /// One more open call.
    #[tactic(auto, unfolding(crate::specs::CondRuns::run_at))]
    pub fn push_call(&mut self, call: Call<'t>) -> Result<(), NoMemory>
        ensures { OnOk result ((exact : Bool) (on : ℕ → Bool) → run_at exact on self.new ≡ also (run_at exact on self.old) (under_piece (value on (condition_of call.entry.when)) (open_piece (held_at on call.entry ∷ [])))) }
    {
        self.calls.push(call)?;
        Ok(())
    }

    // It is refused where both conditions hold, too.
    fn refuse(&mut self, alloc: Global, when: &Formula, refused: &Formula) -> Result<(), NoMemory>
        ensures done { self.new.done ≡ self.old.done }
        ensures calls { self.new.calls ≡ self.old.calls }
        ensures refused { OnOk result ((on : ℕ → Bool) → value on (condition_of self.new.refused) ≡ (value on (condition_of self.old.refused) || (value on (condition_of when.now) && value on (condition_of refused.now)))) }
    {
        let here = both_of(alloc, when, refused)?;
        let before = mem::replace(&mut self.refused, Formula::False);
        self.refused = either(alloc, before, here)?;
        Ok(())
    }

    /// What a call from its first to its last token brings, where the condition holds.
    #[tactic(auto, unfolding(crate::specs::CondRuns::run_at))]
    pub fn take(
        &mut self,
        alloc: Global,
        when: &Formula,
        given: &Finished<'t>,
        first: &Token,
        last: &Token,
    ) -> Result<(), NoMemory>
        ensures { OnOk result ((exact : Bool) (on : ℕ → Bool) → run_at exact on self.new ≡ also (run_at exact on self.old) (under_piece (value on (condition_of when.now)) (given_piece exact (option_map (map (spec.brought (plain_token first.now) (plain_token last.now))) (given_at false on given.now))))) }
    {
        push_brought(
            alloc,
            &mut self.done,
            when,
            given.items.as_slice(),
            first,
            last,
        )?;
        self.refuse(alloc, when, &given.refused)?;
        Ok(())
    }

    /// What the list becomes, where it has no more items: an open call is refused.
    #[tactic(auto, unfolding(crate::specs::CondRuns::run_at, crate::specs::CondFinished::given_at))]
    pub fn finished(self, alloc: Global) -> Result<Finished<'t>, NoMemory>
        ensures { IfOk result (λ f. (exact : Bool) (on : ℕ → Bool) → given_at exact on f ≡ ended (run_at exact on self.entry)) }
    {
        let Run {
            done,
            calls,
            refused,
        } = self;
        let unclosed = when_open(alloc, calls.as_slice())?;
        let refused = either(alloc, refused, unclosed)?;
        Ok(Finished {
            items: done,
            refused,
        })
    }
}
