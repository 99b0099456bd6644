//! The tables of a unit.
use crate::entries::{CondName, CondSignature, CondStruct, LocalName, Member};
use crate::structs::{complete_at, declare_at, undeclared};
use cond_formula::{Formula, NoMemory};
use cond_sums::CondSum;
use conditional::CondList;
use name_places::{enter_place, place_in};
use std::alloc::{AllocError, Global};
use std::collections::HashMap;
use std::mem;

/// What names and structs are known to be at a place of a unit, in all configurations.
#[derive(Drop)]
pub struct Tables {
    /// The structs of all units so far, by their numbers.
    pub structs: Vec<CondStruct>,
    /// The numbers of the unit's structs, by their tags.
    pub tags: HashMap<Vec<u8>, u32>,
    /// The places of the unit's names of file scope among those that are declared somewhere.
    pub names: HashMap<Vec<u8>, u32>,
    pub declared: Vec<CondName>,
    /// The declarations of functions, by their numbers.
    pub signatures: Vec<CondSignature>,
    /// The parameters and locals of the blocks that are open, the outermost first.
    pub locals: Vec<LocalName>,
    /// How many blocks are open.
    pub depth: u32,
}

/// The greatest number of a struct, a name or a declaration of a function.
pub(crate) const LAST_NUMBER: usize = 4_294_967_294;

impl Tables {
    ghost use Rattle.std.specs.Prelude.{◌≡◌, ℕ, ◌<◌, Bool, true, Some, length, IfOk, IfSome, IfNone, OnOk};
    ghost use Rattle.name_places.specs.Places.{place_of};
    ghost use Rattle.cond_formula.specs.Conditions.{condition_of, value};
    ghost use Rattle.conditional.specs.Entries.{seen, listed};
    ghost use Rattle.core_meaning.specs.Constancy.{capped};
    ghost use Rattle.cond_sums.specs.Sums.{sum_at};
    ghost use Rattle.type_tables.specs.Forms.{member_form};
    ghost use Rattle.type_tables.specs.Seen.{seen_tables};
    ghost use Rattle.type_tables.specs.Steps.{no_tables, with_declared, with_completed, unit_begun, where_true};
    ghost use Rattle.type_tables.specs.Questions.{where_declared};
    ghost use Rattle.type_tables.specs.Changes.{has_tag_in, is_free, AddsStruct};

    /// Before the first unit: nothing.
    pub fn new(alloc: Global) -> Tables
        ensures { (on : ℕ → Bool) → seen_tables on result ≡ no_tables }
    {
        Tables {
            structs: Vec::new(alloc),
            tags: HashMap::new(alloc),
            names: HashMap::new(alloc),
            declared: Vec::new(alloc),
            signatures: Vec::new(alloc),
            locals: Vec::new(alloc),
            depth: 0,
        }
    }

    /// Whether the struct with this number has this tag.
    fn has_tag(&self, number: u32, tag: &[u8]) -> bool
        ensures { result ≡ has_tag_in self.now.structs.items number tag.now }
    {
        let number = number as usize;
        number < self.structs.len() && tag == self.structs[number].tag.as_slice()
    }

    /// The number of the struct of a tag.
    pub(crate) fn found(&self, tag: &[u8]) -> Option<u32>
        ensures place { IfSome result (λ number. place_of self.now.tags tag.now ≡ Some number) }
        ensures tag { IfSome result (λ number. has_tag_in self.now.structs.items number tag.now ≡ true) }
        ensures none { IfNone result (is_free self.now.structs.items (place_of self.now.tags tag.now) tag.now ≡ true) }
    {
        let number = place_in(&self.tags, tag)?;
        if self.has_tag(number, tag) {
            return Some(number);
        }
        None
    }

    /// One more struct, which is declared nowhere.
    fn add_struct(&mut self, alloc: Global, tag: &[u8]) -> Result<u32, NoMemory>
        ensures { IfOk result (λ number. AddsStruct tag.now number self.old self.new) }
    {
        let number = self.structs.len();
        if number > LAST_NUMBER {
            return Err(AllocError);
        }
        self.structs.push(undeclared(alloc, tag)?)?;
        enter_place(alloc, &mut self.tags, tag, number as u32)?;
        Ok(number as u32)
    }

    /// The number of the struct of a tag, which is made for it where it has none.
    fn numbered(&mut self, alloc: Global, tag: &[u8]) -> Result<u32, NoMemory>
        ensures same { IfOk result (λ number. (on : ℕ → Bool) → seen_tables on self.new ≡ seen_tables on self.old) }
        ensures place { IfOk result (λ number. place_of self.new.tags tag.now ≡ Some number) }
        ensures tag { IfOk result (λ number. has_tag_in self.new.structs.items number tag.now ≡ true) }
    {
        if let Some(number) = self.found(tag) {
            return Ok(number);
        }
        let number = self.add_struct(alloc, tag)?;
        Ok(number)
    }

    /// A struct is declared by its tag where the condition is true. The answer is its number, which the tag has wherever it is visible.
    pub fn declare_struct(
        &mut self,
        alloc: Global,
        tag: &[u8],
        when: Formula,
    ) -> Result<u32, NoMemory>
        ensures tag { IfOk result (λ number. (on : ℕ → Bool) → (seen_tables on self.old).tags tag.now ≡ where_declared (seen_tables on self.old) (Some number)) }
        ensures there { IfOk result (λ number. number < length self.new.structs.items) }
        ensures seen { IfOk result (λ number. (on : ℕ → Bool) → seen_tables on self.new ≡ where_true (value on (condition_of when)) (with_declared tag.now number) (seen_tables on self.old)) }
    {
        let number = self.numbered(alloc, tag)?;
        declare_at(alloc, &mut self.structs, number, when)?;
        Ok(number)
    }

    /// A unit begins: the structs of the units before it stay, and no name is visible. The answer is the names of file scope of the unit before.
    pub fn begin_unit(&mut self, alloc: Global) -> Vec<CondName>
        ensures names { result ≡ self.old.declared }
        ensures seen { (on : ℕ → Bool) → seen_tables on self.new ≡ unit_begun (seen_tables on self.old) }
    {
        self.tags = HashMap::new(alloc);
        self.names = HashMap::new(alloc);
        self.locals = Vec::new(alloc);
        self.depth = 0;
        mem::replace(&mut self.declared, Vec::new(alloc))
    }

    /// A struct is complete where the condition is true, with these members and so many scalars.
    pub fn complete_struct(
        &mut self,
        alloc: Global,
        number: u32,
        when: Formula,
        members: &CondList<Member>,
        scalars: &CondSum,
    ) -> Result<(), NoMemory>
        requires { number < length self.old.structs.items }
        ensures { OnOk result ((on : ℕ → Bool) → seen_tables on self.new ≡ where_true (value on (condition_of when)) (with_completed number (seen on (listed member_form members.now)) (capped (sum_at on scalars.now))) (seen_tables on self.old)) }
    {
        complete_at(alloc, &mut self.structs, number, when, members, scalars)
    }
}
