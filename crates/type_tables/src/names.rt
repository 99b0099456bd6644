//! Names of file scope, and declarations of functions.
ghost use Rattle.std.specs.Prelude.{ℕ, ◌<◌, Bool, length, IfOk, OnOk};
ghost use Rattle.cond_formula.specs.Conditions.{condition_of, value};
ghost use Rattle.type_tables.specs.Forms.{file_name_form};
ghost use Rattle.type_tables.specs.Changes.{IsNothing, Means, BecomesAt};

use crate::entries::{CondName, CondSignature, FileName};
use crate::tables::{LAST_NUMBER, Tables};
use cond_formula::{Formula, NoMemory};
use conditional::CondList;
use name_places::{enter_place, place_in};
use std::alloc::{AllocError, Global};

/// A name that stands for nothing.
fn nameless(alloc: Global, name: &[u8]) -> Result<CondName, NoMemory>
    ensures { IfOk result (λ n. IsNothing name.now n) }
{
    let name = Vec::from_slice(alloc, name)?;
    Ok(CondName {
        name,
        meanings: CondList::empty(alloc),
    })
}

/// A name stands for this too, where the condition is true and it stands for nothing yet.
fn means_too(alloc: Global, n: &mut CondName, when: Formula, what: FileName) -> Result<(), NoMemory>
    ensures { OnOk result ((on : ℕ → Bool) → Means on (value on (condition_of when)) (file_name_form what) n.old n.new) }
{
    n.meanings.push_otherwise(alloc, when, what)
}

/// A name of the list stands for this too, where the condition is true and it stands for nothing yet.
fn mean_at(
    alloc: Global,
    declared: &mut Vec<CondName>,
    place: u32,
    when: Formula,
    what: FileName,
) -> Result<(), NoMemory>
    requires { place < length declared.old.items }
    ensures { OnOk result ((on : ℕ → Bool) → BecomesAt (Means on (value on (condition_of when)) (file_name_form what)) place declared.old.items declared.new.items) }
{
    means_too(alloc, &mut declared[place as usize], when, what)
}

impl Tables {
    ghost use Rattle.std.specs.Prelude.{◌≡◌, ℕ, Bool, true, Some, length, IfOk, IfSome, IfNone, OnOk};
    ghost use Rattle.cond_formula.specs.Conditions.{condition_of, value};
    ghost use Rattle.name_places.specs.Places.{place_of};
    ghost use Rattle.type_tables.specs.Forms.{file_name_form};
    ghost use Rattle.type_tables.specs.Tables.{no_signature};
    ghost use Rattle.type_tables.specs.Seen.{seen_tables, signature_of};
    ghost use Rattle.type_tables.specs.Steps.{with_name, with_signature, where_true};
    ghost use Rattle.type_tables.specs.Changes.{has_name_in, is_unnamed, AddsName};

    /// Whether the name at this place is this one.
    fn has_name(&self, place: u32, name: &[u8]) -> bool
        ensures { result ≡ has_name_in self.now.declared.items place name.now }
    {
        let place = place as usize;
        place < self.declared.len() && name == self.declared[place].name.as_slice()
    }

    /// The place of a name.
    pub(crate) fn name_found(&self, name: &[u8]) -> Option<u32>
        ensures place { IfSome result (λ place. place_of self.now.names name.now ≡ Some place) }
        ensures name { IfSome result (λ place. has_name_in self.now.declared.items place name.now ≡ true) }
        ensures none { IfNone result (is_unnamed self.now.declared.items (place_of self.now.names name.now) name.now ≡ true) }
    {
        let place = place_in(&self.names, name)?;
        if self.has_name(place, name) {
            return Some(place);
        }
        None
    }

    /// One more name, which stands for nothing.
    fn add_name(&mut self, alloc: Global, name: &[u8]) -> Result<u32, NoMemory>
        ensures { IfOk result (λ place. AddsName name.now place self.old self.new) }
    {
        let place = self.declared.len();
        if place > LAST_NUMBER {
            return Err(AllocError);
        }
        self.declared.push(nameless(alloc, name)?)?;
        enter_place(alloc, &mut self.names, name, place as u32)?;
        Ok(place as u32)
    }

    /// The place of a name, which is made for it where it has none.
    fn placed(&mut self, alloc: Global, name: &[u8]) -> Result<u32, NoMemory>
        ensures same { IfOk result (λ place. (on : ℕ → Bool) → seen_tables on self.new ≡ seen_tables on self.old) }
        ensures place { IfOk result (λ place. place_of self.new.names name.now ≡ Some place) }
        ensures name { IfOk result (λ place. has_name_in self.new.declared.items place name.now ≡ true) }
        ensures locals { OnOk result (self.new.locals ≡ self.old.locals) }
    {
        if let Some(place) = self.name_found(name) {
            return Ok(place);
        }
        let place = self.add_name(alloc, name)?;
        Ok(place)
    }

    /// A name of file scope is declared where the condition is true. What it was declared as first is what it is.
    pub fn declare_name(
        &mut self,
        alloc: Global,
        name: &[u8],
        when: Formula,
        what: FileName,
    ) -> Result<(), NoMemory>
        ensures seen { OnOk result ((on : ℕ → Bool) → seen_tables on self.new ≡ where_true (value on (condition_of when)) (with_name name.now (file_name_form what)) (seen_tables on self.old)) }
        ensures locals { OnOk result (self.new.locals ≡ self.old.locals) }
    {
        let place = self.placed(alloc, name)?;
        mean_at(alloc, &mut self.declared, place, when, what)?;
        Ok(())
    }

    /// One more declaration of a function. The answer is its number.
    pub fn declare_function(&mut self, signature: CondSignature) -> Result<u32, NoMemory>
        ensures number { IfOk result (λ number. (on : ℕ → Bool) → number ≡ (seen_tables on self.old).functions) }
        ensures seen { IfOk result (λ number. (on : ℕ → Bool) → seen_tables on self.new ≡ with_signature (signature_of on (Some signature)) (seen_tables on self.old)) }
        ensures locals { OnOk result (self.new.locals ≡ self.old.locals) }
    {
        let number = self.signatures.len();
        if number > LAST_NUMBER {
            return Err(AllocError);
        }
        self.signatures.push(signature)?;
        Ok(number as u32)
    }

    /// The declaration of this number, or this one, which is none, where there is no such declaration.
    pub fn signature_or<'t>(
        &'t self,
        number: u32,
        otherwise: &'t CondSignature,
    ) -> &'t CondSignature
        ensures { (on : ℕ → Bool) → signature_of on (Some otherwise.now) ≡ no_signature → signature_of on (Some result.now) ≡ (seen_tables on self.now).signatures number }
    {
        match self.signatures.get(number as usize) {
            Some(signature) => signature,
            None => otherwise,
        }
    }
}
