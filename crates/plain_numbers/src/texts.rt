//! The texts of units, equal ones once (6.4.5).
ghost use Rattle.std.specs.Prelude.{◌≡◌, IfErr, OnOk, ◌++◌, ◌∷◌, [], None};
ghost use Rattle.std.specs.Str.{bytes_eq};
ghost use Rattle.core_meaning.specs.Linking as spec;
ghost use Rattle.core_meaning.specs.Linking.{place_where};
ghost use Rattle.plain_numbers.specs.PlainTexts.{plain_texts, AreNumbered};

use plain_scope::ElabError;
use std::alloc::Global;
use std::collections::HashMap;

/// Texts in the order in which they first stand, with their numbers.
#[derive(Drop)]
pub struct Texts {
    pub list: Vec<Vec<u8>>,
    pub numbers: HashMap<Vec<u8>, u32>,
}

impl Texts {
    pub fn new(alloc: Global) -> Texts
        ensures numbered { AreNumbered result }
        ensures none { plain_texts result ≡ [] }
    {
        Texts {
            list: Vec::new(alloc),
            numbers: HashMap::new(alloc),
        }
    }

    pub fn number(&self, bytes: &[u8]) -> Option<u32>
        requires { AreNumbered self.now }
        ensures { result ≡ place_where (bytes_eq bytes.now) (plain_texts self.now) }
    {
        match self.numbers.get(bytes) {
            Some(number) => Some(*number),
            None => None,
        }
    }

    /// Puts a text that isn't there at the end.
    fn put(&mut self, alloc: Global, bytes: Vec<u8>) -> Result<(), ElabError>
        requires numbered { AreNumbered self.old }
        requires new { place_where (bytes_eq bytes.items) (plain_texts self.old) ≡ None }
        ensures numbered { OnOk result (AreNumbered self.new) }
        ensures texts { OnOk result (plain_texts self.new ≡ plain_texts self.old ++ bytes.items ∷ []) }
        ensures memory { IfErr result (λ error. error ≡ ElabError.Memory) }
    {
        let Ok(number) = u32::try_from(self.list.len()) else {
            return Err(ElabError::Memory);
        };
        self.numbers
            .insert(Vec::from_slice(alloc, bytes.as_slice())?, number)?;
        self.list.push(bytes)?;
        Ok(())
    }

    /// Puts a text at the end unless it is there.
    pub fn add(&mut self, alloc: Global, bytes: Vec<u8>) -> Result<(), ElabError>
        requires { AreNumbered self.old }
        ensures numbered { OnOk result (AreNumbered self.new) }
        ensures texts { OnOk result (plain_texts self.new ≡ spec.with_text (plain_texts self.old) bytes.items) }
        ensures memory { IfErr result (λ error. error ≡ ElabError.Memory) }
    {
        match self.number(bytes.as_slice()) {
            Some(_) => Ok(()),
            None => {
                self.put(alloc, bytes)?;
                Ok(())
            }
        }
    }
}
