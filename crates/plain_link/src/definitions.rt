//! The definitions of a unit (6.9).
ghost use Rattle.std.specs.Prelude.{◌≡◌, ℕ, ◌+◌, ◌<◌, ◌^◌, if◌then◌else◌, List, IfOk, OnOk, map};
ghost use Rattle.core_meaning.specs.Linking as spec;
ghost use Rattle.core_meaning.specs.Linking.{or_zero};
ghost use Rattle.plain_scope.specs.PlainScope.{entry_of};
ghost use Rattle.plain_link.specs.PlainDefinitions.{plain_body, plain_defined};
ghost use Rattle.plain_link.specs.Counts.{CountsOf, CountsMore, is_defined_in, count_of, count_defined_in};

use cond_formula::NoMemory;
use core_meaning::{ConstantPart, Definition};
use std::alloc::Global;
use std::collections::HashMap;

/// What a definition gives its name.
#[derive(Drop)]
pub enum Definite {
    /// An object with an initialiser.
    Object(Vec<ConstantPart>),
    /// An object that gets zeros if no other definition gives it a value (6.9.2).
    Tentative,
    Function(Definition),
}

impl Definite {
    /// Whether it is a tentative definition (6.9.2).
    pub fn is_tentative(&self) -> bool
        ensures { result ≡ spec.is_tentative (plain_body 0 self.now) }
    {
        match self {
            Definite::Tentative => true,
            Definite::Object(_) => false,
            Definite::Function(_) => false,
        }
    }
}

#[derive(Drop)]
pub struct Defined {
    pub name: Vec<u8>,
    pub body: Definite,
}

/// The definitions in the order of the text.
#[derive(Drop)]
pub struct Definitions {
    pub list: Vec<Defined>,
    /// For each name that is defined, how many of its definitions aren't tentative.
    counts: HashMap<Vec<u8>, usize>,
    ghost counted: { (name : List ℕ) → entry_of counts name ≡ count_of (map (plain_defined 0) list.items) name },
}

impl Definitions {
    pub fn new(alloc: Global, list: Vec<Defined>) -> Result<Definitions, NoMemory>
        ensures { IfOk result (λ definitions. definitions.list ≡ list) }
    {
        let counts = counted(alloc, list.as_slice())?;
        Ok(Definitions { list, counts })
    }

    pub fn into_list(self) -> Vec<Defined>
        ensures { result ≡ self.list }
    {
        let Definitions { list, counts: _ } = self;
        list
    }

    pub fn defines(&self, name: &[u8]) -> bool
        ensures { result ≡ is_defined_in (map (plain_defined 0) self.now.list.items) name.now }
    {
        self.counts.get(name).is_some()
    }

    /// How many definitions a name has: those that are tentative are one together, and none beside another.
    pub fn count(&self, name: &[u8]) -> usize
        ensures { result ≡ count_defined_in (map (plain_defined 0) self.now.list.items) name.now }
    {
        match self.counts.get(name) {
            None => 0,
            Some(whole) => if *whole == 0 { 1 } else { *whole },
        }
    }
}

fn count_in(counts: &HashMap<Vec<u8>, usize>, name: &[u8]) -> usize
    ensures { result ≡ or_zero (entry_of counts.now name.now) }
{
    match counts.get(name) {
        Some(count) => *count,
        None => 0,
    }
}

fn count_with(counts: &HashMap<Vec<u8>, usize>, defined: &Defined) -> usize
    requires { or_zero (entry_of counts.now defined.now.name.items) + 1 < 2 ^ 64 }
    ensures { result ≡ or_zero (entry_of counts.now defined.now.name.items) + (if spec.is_tentative (plain_body 0 defined.now.body) then 0 else 1) }
{
    let before = count_in(counts, defined.name.as_slice());
    if defined.body.is_tentative() {
        before
    } else {
        before + 1
    }
}

/// Counts one more definition.
fn add(
    alloc: Global,
    counts: &mut HashMap<Vec<u8>, usize>,
    defined: &Defined,
) -> Result<(), NoMemory>
    requires { or_zero (entry_of counts.old defined.now.name.items) + 1 < 2 ^ 64 }
    ensures { OnOk result (CountsMore (entry_of counts.old) (entry_of counts.new) (plain_defined 0 defined.now)) }
{
    let count = count_with(counts, defined);
    counts.insert(Vec::from_slice(alloc, defined.name.as_slice())?, count)?;
    Ok(())
}

fn counted(alloc: Global, list: &[Defined]) -> Result<HashMap<Vec<u8>, usize>, NoMemory>
    ensures { IfOk result (λ counts. CountsOf counts (map (plain_defined 0) list.now)) }
{
    let mut counts = HashMap::new(alloc);
    for defined in list {
        add(alloc, &mut counts, defined)?;
    }
    Ok(counts)
}
