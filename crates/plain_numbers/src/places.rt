//! Names in a row, each once, with their places.
ghost use Rattle.std.specs.Prelude.{◌≡◌, OnOk, IfErr, ◌++◌, ◌∷◌, [], None};
ghost use Rattle.core_meaning.specs.Linking as spec;
ghost use Rattle.core_meaning.specs.Linking.{place_where, same_linked};
ghost use Rattle.plain_numbers.specs.PlainLinked.{plain_linked, plain_list, IsPlaced};

use plain_scope::ElabError;
use std::alloc::Global;
use std::collections::HashMap;

/// A name with external linkage, or an internal one with the number of its unit.
#[derive(PartialEq, Eq, Hash, Drop)]
pub struct Linked {
    pub name: Vec<u8>,
    pub unit: Option<usize>,
}

/// Names in the order of their first declarations.
#[derive(Drop)]
pub struct Listing {
    pub list: Vec<Linked>,
    pub places: HashMap<Linked, u32>,
}

impl Listing {
    pub fn new(alloc: Global) -> Listing
        ensures placed { IsPlaced result }
        ensures empty { plain_list result ≡ [] }
    {
        Listing {
            list: Vec::new(alloc),
            places: HashMap::new(alloc),
        }
    }

    pub fn place(&self, name: &Linked) -> Option<u32>
        requires { IsPlaced self.now }
        ensures { result ≡ place_where (same_linked (plain_linked name.now)) (plain_list self.now) }
    {
        match self.places.get(name) {
            Some(place) => Some(*place),
            None => None,
        }
    }

    /// Puts a name that isn't there at the end.
    fn put(&mut self, alloc: Global, name: Linked) -> Result<(), ElabError>
        requires placed { IsPlaced self.old }
        requires new { place_where (same_linked (plain_linked name)) (plain_list self.old) ≡ None }
        ensures placed { OnOk result (IsPlaced self.new) }
        ensures list { OnOk result (plain_list self.new ≡ plain_list self.old ++ plain_linked name ∷ []) }
        ensures memory { IfErr result (λ error. error ≡ ElabError.Memory) }
    {
        let Ok(place) = u32::try_from(self.list.len()) else {
            return Err(ElabError::Memory);
        };
        let key = Linked {
            name: Vec::from_slice(alloc, name.name.as_slice())?,
            unit: name.unit,
        };
        self.places.insert(key, place)?;
        self.list.push(name)?;
        Ok(())
    }

    /// Puts a name at the end unless it is there.
    pub fn add(&mut self, alloc: Global, name: Linked) -> Result<(), ElabError>
        requires { IsPlaced self.old }
        ensures placed { OnOk result (IsPlaced self.new) }
        ensures list { OnOk result (plain_list self.new ≡ spec.added_once (plain_list self.old) (plain_linked name)) }
        ensures memory { IfErr result (λ error. error ≡ ElabError.Memory) }
    {
        match self.place(&name) {
            Some(_) => Ok(()),
            None => {
                self.put(alloc, name)?;
                Ok(())
            }
        }
    }
}
