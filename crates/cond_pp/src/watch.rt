//! Tokens that are looked for while a unit is read in all configurations.
ghost use Rattle.std.specs.Prelude.{◌≡◌, ◌&&◌, ◌||◌, ◌∷◌, ℕ, Bool, not, false, List, [], map, Some, None, IfOk, OnOk};
ghost use Rattle.std.specs.Option.{option_map};
ghost use Rattle.std.specs.List.{list_any};
ghost use Rattle.std.specs.String.{string_bytes};
ghost use Rattle.cond_formula.specs.Features.{has};
ghost use Rattle.cond_formula.specs.Conditions.{condition_of, value};
ghost use Rattle.c_text.specs.Token.{plain_token};
ghost use Rattle.active_tokens.specs.Reads.{read_of};
ghost use Rattle.read_walks.specs.Tests.{stands_at, stands_at_one, is_defined};
ghost use Rattle.macro_table.specs.Features.{macros_at};
ghost use Rattle.cond_readings.specs.Readings.{reading_at, table_in};
ghost use Rattle.cond_pp.specs.Watches.{is_seen, read_where};

use c_text::{FileToken, Token};
use cond_formula::{Formula, NoMemory};
use cond_readings::CondReading;
use macro_table::Macros;
use reduced_conditions::{both, either, without};
use std::alloc::Global;
use std::mem;
use unit_files::Surroundings;

/// Tokens of files, while a name is defined if one is given.
#[derive(Clone, Copy)]
pub struct Sought<'a> {
    pub at: &'a [FileToken],
    pub name: Option<&'a [u8]>,
}

// Whether this is the token of a file.
fn is_token_of(token: &Token, at: &FileToken) -> bool
    ensures { result ≡ stands_at at.now (plain_token token.now) }
{
    token.origin.file == at.file
        && token.origin.span.start == at.span.start
        && token.origin.span.end == at.span.end
}

impl Sought<'_> {
    // Whether the token is one of them.
    fn is_at(&self, token: &Token) -> bool
        ensures { result ≡ stands_at_one self.now.at.now (plain_token token.now) }
    {
        for at in self.at {
            if is_token_of(token, at) {
                return true;
            }
        }
        false
    }

    // Whether one of the tokens is one of them.
    fn is_among(&self, tokens: &[Token]) -> bool
        ensures { result ≡ list_any (stands_at_one self.now.at.now) (map plain_token tokens.now) }
    {
        for token in tokens {
            if self.is_at(token) {
                return true;
            }
        }
        false
    }

    // The same of tokens that stand elsewhere.
    fn is_in_run(&self, run: &[&Token]) -> bool
        ensures { result ≡ list_any (stands_at_one self.now.at.now) (map (λ t. plain_token t.now) run.now) }
    {
        for token in run {
            if self.is_at(token) {
                return true;
            }
        }
        false
    }

    // Where the name is defined.
    #[tactic(auto, using(cond_formula::specs::ConditionLaws::formula_kinds))]
    fn when_defined(&self, alloc: Global, macros: &Macros<'_>) -> Result<Formula, NoMemory>
        ensures { IfOk result (λ f. (c : List Bool) → value (has c) (condition_of f) ≡ is_defined (option_map (λ n. n.now) self.now.name) (macros_at (has c) macros.now)) }
    {
        match self.name {
            Some(name) => Ok(macros.when_defined(alloc, name)?),
            None => Ok(Formula::True),
        }
    }
}

/// What is looked for while a unit is read, and where it was read so far.
#[derive(Drop)]
pub struct Watch<'a> {
    pub sought: Option<Sought<'a>>,
    pub found: Formula,
}

impl<'a> Watch<'a> {
    /// Nothing is looked for.
    #[tactic(auto, using(cond_formula::specs::ConditionLaws::formula_kinds))]
    pub fn idle() -> Self
        ensures found { (on : ℕ → Bool) → value on (condition_of result.found) ≡ false }
    {
        Self {
            sought: None,
            found: Formula::False,
        }
    }

    /// These tokens are looked for.
    #[tactic(auto, using(cond_formula::specs::ConditionLaws::formula_kinds))]
    pub fn new(sought: Sought<'a>) -> Self
        ensures sought { result.sought ≡ Some sought.entry }
        ensures found { (on : ℕ → Bool) → value on (condition_of result.found) ≡ false }
    {
        Self {
            sought: Some(sought),
            found: Formula::False,
        }
    }

    // One is read here, where the name is defined.
    fn find(
        &mut self,
        alloc: Global,
        place: &Surroundings<'_>,
        reading: &CondReading,
        here: &Formula,
        sought: &Sought<'_>,
    ) -> Result<(), NoMemory>
        ensures sought { self.new.sought ≡ self.old.sought }
        ensures found { OnOk result ((c : List Bool) → value (has c) (condition_of self.new.found) ≡ (value (has c) (condition_of self.old.found)
            || ((value (has c) (condition_of here.now) && not (value (has c) (condition_of reading.now.refused)))
            && is_defined (option_map (λ n. n.now) sought.now.name) (table_in (has c) (map string_bytes place.now.features.now) reading.now.table)))) }
    {
        let macros = reading.macros(place.features);
        let defined = sought.when_defined(alloc, &macros)?;
        let read = without(alloc, here.try_clone(alloc)?, &reading.refused)?;
        let when = both(alloc, read, defined)?;
        let before = mem::replace(&mut self.found, Formula::False);
        let found = either(alloc, before, when)?;
        self.found = found;
        Ok(())
    }

    /// Looks at tokens that are read where a condition holds.
    pub fn look(
        &mut self,
        alloc: Global,
        place: &Surroundings<'_>,
        reading: &CondReading,
        here: &Formula,
        tokens: &[Token],
    ) -> Result<(), NoMemory>
        ensures sought { self.new.sought ≡ self.old.sought }
        ensures found { OnOk result ((c : List Bool) → value (has c) (condition_of self.new.found) ≡ (value (has c) (condition_of self.old.found)
            || is_seen self.old (read_where (value (has c) (condition_of here.now)) (λ r. read_of r (map plain_token tokens.now) ∷ []) (reading_at (has c) (map string_bytes place.now.features.now) reading.now)))) }
    {
        if let Some(sought) = self.sought {
            if sought.is_among(tokens) {
                self.find(alloc, place, reading, here, &sought)?;
            }
        }
        Ok(())
    }

    /// Looks at a run of tokens that are read where a condition holds.
    pub fn look_at_run(
        &mut self,
        alloc: Global,
        place: &Surroundings<'_>,
        reading: &CondReading,
        here: &Formula,
        run: &[&Token],
    ) -> Result<(), NoMemory>
        ensures sought { self.new.sought ≡ self.old.sought }
        ensures found { OnOk result ((c : List Bool) → value (has c) (condition_of self.new.found) ≡ (value (has c) (condition_of self.old.found)
            || is_seen self.old (read_where (value (has c) (condition_of here.now)) (λ r. read_of r (map (λ t. plain_token t.now) run.now) ∷ []) (reading_at (has c) (map string_bytes place.now.features.now) reading.now)))) }
    {
        if let Some(sought) = self.sought {
            if sought.is_in_run(run) {
                self.find(alloc, place, reading, here, &sought)?;
            }
        }
        Ok(())
    }
}
