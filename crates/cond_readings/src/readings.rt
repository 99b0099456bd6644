//! The macros and the tokens of a unit in all configurations, as far as it is read.
ghost use Rattle.std.specs.Prelude.{◌≡◌, ◌++◌, ℕ, Bool, false, List, [], ◌∷◌, map, IsTrue, OnOk, None};
ghost use Rattle.std.specs.Option.{option_map};
ghost use Rattle.std.specs.String.{string_bytes};
ghost use Rattle.c_text.specs.Token.{plain_token};
ghost use Rattle.cond_formula.specs.Features.{has};
ghost use Rattle.cond_formula.specs.Conditions.{condition_of, value};
ghost use Rattle.conditional.specs.Entries.{entries_of, listed, seen, under};
ghost use Rattle.macro_table.specs.Features.{macros_at};
ghost use Rattle.macro_table.specs.MacroTables.{table_at};
ghost use Rattle.cond_tokens.specs.Streams.{tokens_at};
ghost use Rattle.cond_readings.specs.Readings.{table_in, reading_at, unless_refused, with_tokens};

use crate::questions::holds_nowhere;
use c_text::Token;
use cond_formula::{Formula, NoMemory, Oracle};
use cond_tokens::CondToken;
use conditional::{CondList, Guarded};
use macro_table::{MacroTable, Macros};
use reduced_conditions::{both, either, is_implied};
use std::alloc::Global;
use std::mem;

/// How far the reading of a unit has come in all configurations. After an error it may be anything.
#[derive(Drop)]
pub struct CondReading {
    /// The macros that are defined, beside the features.
    pub table: MacroTable,
    pub tokens: Vec<CondToken>,
    /// Where the unit is refused: nothing else of the reading means anything there.
    pub refused: Formula,
}

// One more token, where both conditions hold.
fn push_token(
    alloc: Global,
    tokens: &mut Vec<CondToken>,
    here: &Formula,
    entry: Guarded<Token>,
) -> Result<(), NoMemory>
    ensures { OnOk result ((on : ℕ → Bool) → tokens_at on tokens.new.items ≡ tokens_at on tokens.old.items ++ under (value on (condition_of here.now)) (seen on (entries_of plain_token (entry ∷ [])))) }
{
    let Guarded { when, what: token } = entry;
    let when = both(alloc, here.try_clone(alloc)?, when)?;
    tokens.push(CondToken { token, when })?;
    Ok(())
}

// The tokens of a list, where the condition holds.
fn push_list(
    alloc: Global,
    tokens: &mut Vec<CondToken>,
    here: &Formula,
    list: CondList<Token>,
) -> Result<(), NoMemory>
    ensures { OnOk result ((on : ℕ → Bool) → tokens_at on tokens.new.items ≡ tokens_at on tokens.old.items ++ under (value on (condition_of here.now)) (seen on (listed plain_token list))) }
{
    for entry in list.entries {
        push_token(alloc, tokens, here, entry)?;
    }
    Ok(())
}

impl CondReading {
    /// Nothing is read yet.
    #[tactic(auto, using(cond_formula::specs::ConditionLaws::formula_kinds))]
    pub fn new(alloc: Global) -> Self
        ensures refused { (on : ℕ → Bool) → value on (condition_of result.refused) ≡ false }
        ensures table { (on : ℕ → Bool) (name : List ℕ) → table_at on result.table name ≡ None }
        ensures tokens { result.tokens.items ≡ [] }
    {
        Self {
            table: MacroTable::new(),
            tokens: Vec::new(alloc),
            refused: Formula::False,
        }
    }

    /// The names that stand for something, with the project's features.
    pub fn macros<'a>(&'a self, features: &'a [String]) -> Macros<'a>
        ensures { (on : ℕ → Bool) → macros_at on result ≡ table_in on (map string_bytes features.now) self.now.table }
    {
        Macros {
            features,
            table: &self.table,
        }
    }

    /// The unit is refused where the condition holds.
    pub fn refuse(&mut self, alloc: Global, when: Formula) -> Result<(), NoMemory>
        ensures { OnOk result ((on : ℕ → Bool) (features : List (List ℕ)) → reading_at on features self.new ≡ unless_refused (value on (condition_of when)) (reading_at on features self.old)) }
    {
        let before = mem::replace(&mut self.refused, Formula::False);
        let refused = either(alloc, before, when)?;
        self.refused = refused;
        Ok(())
    }

    /// Goes on with these tokens where the condition holds.
    pub fn append(
        &mut self,
        alloc: Global,
        here: &Formula,
        list: CondList<Token>,
    ) -> Result<(), NoMemory>
        ensures { OnOk result ((on : ℕ → Bool) (features : List (List ℕ)) → reading_at on features self.new ≡ option_map (with_tokens (under (value on (condition_of here.now)) (seen on (listed plain_token list)))) (reading_at on features self.old)) }
    {
        push_list(alloc, &mut self.tokens, here, list)?;
        Ok(())
    }

    /// Whether nothing is to be read where the condition holds: it can't hold, or the unit is refused there.
    pub fn is_done<O: Oracle>(&self, oracle: &mut O, here: &Formula) -> bool
        ensures kept { O.admits oracle.new ≡ O.admits oracle.old }
        ensures done { IsTrue result → (c : List Bool) → IsTrue (value (has c) (O.admits oracle.old)) → IsTrue (value (has c) (condition_of here.now)) → (features : List (List ℕ)) → reading_at (has c) features self.now ≡ None }
    {
        if is_implied(&self.refused, here) {
            return true;
        }
        holds_nowhere(oracle, here)
    }
}
