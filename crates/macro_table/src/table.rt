//! Definitions by their names.
ghost use Rattle.std.specs.Prelude.{◌≡◌, ℕ, Bool, not, ◌||◌, ◌&&◌, if◌then◌else◌, List, [], Option, None, is_some, option_map, map, IfOk, OnOk, OnErr};
ghost use Rattle.std.specs.HashMap.{get_by};
ghost use Rattle.std.specs.Str.{bytes_eq};
ghost use Rattle.c_text.specs.PlainMacros.{plain_macro};
ghost use Rattle.cond_formula.specs.Conditions.{condition_of, value};
ghost use Rattle.conditional.specs.Entries.{entries_of, listed, alternatives, seen, under, Sees};
ghost use Rattle.macro_table.specs.PlainDefinitions.{plain_definition};
ghost use Rattle.macro_table.specs.MacroTables.{macro_meaning, clashes, with_macro, without_name, is_barred_name, is_barred_macro, entries_in, definitions_of, table_at};

use crate::barred::{is_barred_macro, is_barred_name};
use crate::definitions::{Definition, copied};
use crate::meanings::clash_condition;
use c_text::Macro;
use cond_formula::{Formula, NoMemory};
use conditional::{CondList, CondValue, Guarded, when_some_hold};
use std::alloc::Global;
use std::collections::HashMap;

/// The macros that are defined, each under its condition.
#[derive(Drop)]
pub struct MacroTable {
    // The definitions of a name in the order of their lines: in a configuration the first that holds counts. There are
    // no names before the first definition, so that an empty table takes no memory.
    names: Option<HashMap<Vec<u8>, CondList<Definition>>>,
}

// The map that holds one name.
#[tactic(auto, unfolding(crate::specs::MacroTables::definitions_of))]
fn one_name(
    alloc: Global,
    name: Vec<u8>,
    list: CondList<Definition>,
) -> Result<HashMap<Vec<u8>, CondList<Definition>>, NoMemory>
    ensures { IfOk result (λ names. (other : List ℕ) → entries_in (get_by (λ key. bytes_eq other key.items) names) ≡ (if bytes_eq other name.items then listed plain_definition list else [])) }
{
    let mut names = HashMap::new(alloc);
    names.insert(name, list)?;
    Ok(names)
}

// The pairs of a conditional value.
fn pairs_of(alloc: Global, value: CondValue<Definition>) -> Result<Vec<(Formula, Macro)>, NoMemory>
    ensures { IfOk result (λ pairs. map (λ p. record { when = condition_of p.0; what = plain_macro p.1 }) pairs.items ≡ alternatives plain_definition value) }
{
    let mut pairs = Vec::with_capacity(alloc, value.alternatives.len())?;
    for alternative in value.alternatives {
        let Guarded { when, what } = alternative;
        let Definition { given } = what;
        pairs.push((when, given))?;
    }
    Ok(pairs)
}

impl MacroTable {
    /// The table in which no name stands for anything.
    #[tactic(auto, unfolding(crate::specs::MacroTables::definitions_of))]
    pub fn new() -> MacroTable
        ensures { (on : ℕ → Bool) (name : List ℕ) → table_at on result name ≡ None }
    {
        MacroTable { names: None }
    }

    #[tactic(auto, unfolding(crate::specs::MacroTables::definitions_of))]
    fn list(&self, name: &[u8]) -> Option<&CondList<Definition>>
        ensures { entries_in (option_map (λ l. l.now) result) ≡ definitions_of self.now name.now }
    {
        match &self.names {
            None => None,
            Some(names) => names.get(name),
        }
    }

    /// The definitions of a name, of which the first that holds counts. Nothing is copied.
    pub fn definitions(&self, name: &[u8]) -> &[Guarded<Definition>]
        ensures { entries_of plain_definition result.now ≡ definitions_of self.now name.now }
    {
        match self.list(name) {
            None => &[],
            Some(list) => list.entries.as_slice(),
        }
    }

    /// The condition under which a name is defined.
    pub fn when_defined(&self, alloc: Global, name: &[u8]) -> Result<Formula, NoMemory>
        ensures { IfOk result (λ f. (on : ℕ → Bool) → value on (condition_of f) ≡ is_some (table_at on self.now name.now)) }
    {
        let defined = when_some_hold(alloc, self.definitions(name))?;
        Ok(defined)
    }

    /// What a name stands for: macros under conditions that exclude each other.
    pub fn alternatives(
        &self,
        alloc: Global,
        name: &[u8],
    ) -> Result<Vec<(Formula, Macro)>, NoMemory>
        ensures { IfOk result (λ all. (on : ℕ → Bool) → Sees on (table_at on self.now name.now) (map (λ p. record { when = condition_of p.0; what = macro_meaning (plain_macro p.1) }) all.items)) }
    {
        match self.list(name) {
            None => Ok(Vec::new(alloc)),
            Some(list) => {
                let all = pairs_of(alloc, list.first_value(alloc)?)?;
                Ok(all)
            }
        }
    }

    // The definitions of a name, where the condition holds.
    fn restricted(
        &self,
        alloc: Global,
        name: &[u8],
        when: &Formula,
    ) -> Result<CondList<Definition>, NoMemory>
        ensures { IfOk result (λ list. (on : ℕ → Bool) → seen on (listed plain_definition list) ≡ under (value on (condition_of when.now)) (seen on (definitions_of self.now name.now))) }
    {
        match self.list(name) {
            None => Ok(CondList::empty(alloc)),
            Some(list) => {
                let some = list.restrict(alloc, when)?;
                Ok(some)
            }
        }
    }

    // Lets these be the definitions of a name.
    #[tactic(auto, unfolding(crate::specs::MacroTables::definitions_of))]
    fn put(
        &mut self,
        alloc: Global,
        name: &[u8],
        list: CondList<Definition>,
    ) -> Result<(), NoMemory>
        ensures put { OnOk result ((other : List ℕ) → definitions_of self.new other ≡ (if bytes_eq other name.now then listed plain_definition list else definitions_of self.old other)) }
        ensures as_before { OnErr result ((other : List ℕ) → definitions_of self.new other ≡ definitions_of self.old other) }
    {
        let key = Vec::from_slice(alloc, name)?;
        match &mut self.names {
            Some(names) => {
                names.insert(key, list)?;
            }
            None => self.names = Some(one_name(alloc, key, list)?),
        }
        Ok(())
    }

    /// A `#define` where the condition holds, of a macro that may be defined. The answer is the condition under which it
    /// is refused, since the name means something else already; there the table stays.
    pub fn define_lawful(
        &mut self,
        alloc: Global,
        when: &Formula,
        m: &Macro,
    ) -> Result<Formula, NoMemory>
        ensures refused { IfOk result (λ f. (on : ℕ → Bool) → value on (condition_of f) ≡ (value on (condition_of when.now) && clashes (table_at on self.old m.now.name.items) (macro_meaning (plain_macro m.now)))) }
        ensures table { OnOk result ((on : ℕ → Bool) (name : List ℕ) → table_at on self.new name ≡ (if value on (condition_of when.now) then with_macro (table_at on self.old) (plain_macro m.now) name else table_at on self.old name)) }
        ensures as_before { OnErr result ((on : ℕ → Bool) (name : List ℕ) → table_at on self.new name ≡ table_at on self.old name) }
    {
        let name = m.name.as_slice();
        let clash = clash_condition(alloc, self.definitions(name), m)?;
        let refused = Formula::and(alloc, when.try_clone(alloc)?, clash)?;
        let mut list = self.restricted(alloc, name, &Formula::True)?;
        let definition = Definition {
            given: copied(alloc, m)?,
        };
        list.push_otherwise(alloc, when.try_clone(alloc)?, definition)?;
        self.put(alloc, name, list)?;
        Ok(refused)
    }

    /// An `#undef` where the condition holds, of a name that a macro may have.
    pub fn undef_lawful(
        &mut self,
        alloc: Global,
        when: &Formula,
        name: &[u8],
    ) -> Result<(), NoMemory>
        ensures table { OnOk result ((on : ℕ → Bool) (other : List ℕ) → table_at on self.new other ≡ (if value on (condition_of when.now) then without_name (table_at on self.old) name.now other else table_at on self.old other)) }
        ensures as_before { OnErr result ((on : ℕ → Bool) (other : List ℕ) → table_at on self.new other ≡ table_at on self.old other) }
    {
        let elsewhere = Formula::not(alloc, when.try_clone(alloc)?)?;
        let list = self.restricted(alloc, name, &elsewhere)?;
        self.put(alloc, name, list)?;
        Ok(())
    }

    /// A `#define` where the condition holds (6.10.3). The answer is the condition under which it is refused; there the
    /// table stays.
    pub fn define(&mut self, alloc: Global, when: &Formula, m: &Macro) -> Result<Formula, NoMemory>
        ensures refused { IfOk result (λ f. (on : ℕ → Bool) → value on (condition_of f) ≡ (value on (condition_of when.now) && (is_barred_macro (plain_macro m.now) || clashes (table_at on self.old m.now.name.items) (macro_meaning (plain_macro m.now))))) }
        ensures table { OnOk result ((on : ℕ → Bool) (name : List ℕ) → table_at on self.new name ≡ (if value on (condition_of when.now) && not (is_barred_macro (plain_macro m.now)) then with_macro (table_at on self.old) (plain_macro m.now) name else table_at on self.old name)) }
        ensures as_before { OnErr result ((on : ℕ → Bool) (name : List ℕ) → table_at on self.new name ≡ table_at on self.old name) }
    {
        if is_barred_macro(m) {
            return Ok(when.try_clone(alloc)?);
        }
        let refused = self.define_lawful(alloc, when, m)?;
        Ok(refused)
    }

    /// An `#undef` where the condition holds (6.10.3.5). The answer is the condition under which it is refused; there the
    /// table stays.
    pub fn undef(&mut self, alloc: Global, when: &Formula, name: &[u8]) -> Result<Formula, NoMemory>
        ensures refused { IfOk result (λ f. (on : ℕ → Bool) → value on (condition_of f) ≡ (value on (condition_of when.now) && is_barred_name name.now)) }
        ensures table { OnOk result ((on : ℕ → Bool) (other : List ℕ) → table_at on self.new other ≡ (if value on (condition_of when.now) && not (is_barred_name name.now) then without_name (table_at on self.old) name.now other else table_at on self.old other)) }
        ensures as_before { OnErr result ((on : ℕ → Bool) (other : List ℕ) → table_at on self.new other ≡ table_at on self.old other) }
    {
        if is_barred_name(name) {
            return Ok(when.try_clone(alloc)?);
        }
        self.undef_lawful(alloc, when, name)?;
        Ok(Formula::False)
    }
}
