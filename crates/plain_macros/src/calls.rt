//! Calls of function-like macros (6.10.3).
ghost use Rattle.std.specs.Prelude.{◌≡◌, ◌+◌, ◌<◌, ◌≤◌, false, length, map, IfOk, OnOk};
ghost use Rattle.c_text.specs.Token.{plain_token};
ghost use Rattle.c_text.specs.Macros as spec;
ghost use Rattle.plain_macros.specs.PlainItems.{plain_item, item_token};

use crate::items::Item;
use c_text::Token;
use cond_formula::NoMemory;
use std::alloc::Global;
use std::mem;

/// A call up to a token of it.
#[derive(Drop)]
pub struct Call<'table, 'list> {
    pub name: Item<'table, 'list>,
    pub params: &'table [Vec<u8>],
    pub body: &'table [Token],
    /// The arguments that are followed by a comma.
    pub arguments: Vec<Vec<Item<'table, 'list>>>,
    /// The argument that is being read.
    pub last: Vec<Item<'table, 'list>>,
    /// How many of its parentheses are open. Those of the last argument are among its items.
    pub nested: usize,
    ghost counted: { nested ≤ length last.items + 1 },
}

impl<'table, 'list> Call<'table, 'list> {
    ghost use Rattle.plain_macros.specs.PlainCalls.{plain_call, closes};

    /// A call of which only the name is read.
    #[tactic(auto, unfolding(crate::specs::PlainCalls::plain_call))]
    pub fn begun(
        alloc: Global,
        name: Item<'table, 'list>,
        params: &'table [Vec<u8>],
        body: &'table [Token],
    ) -> Call<'table, 'list>
        ensures { plain_call result ≡ spec.begun (item_token name.entry) (map (λ n. n.items) params.now) (map plain_token body.now) }
    {
        Call {
            name,
            params,
            body,
            arguments: Vec::new(alloc),
            last: Vec::new(alloc),
            nested: 0,
        }
    }

    /// Whether the item is the parenthesis that ends the call.
    #[tactic(auto, unfolding(crate::specs::PlainCalls::plain_call))]
    pub fn is_closed_by(&self, item: &Item<'table, 'list>) -> bool
        ensures { result ≡ closes (plain_call self.now) (item_token item.now) }
    {
        item.is_spelled(b")") && self.nested < 2
    }

    #[tactic(auto, unfolding(crate::specs::PlainCalls::plain_call))]
    fn push(&mut self, item: Item<'table, 'list>) -> Result<(), NoMemory>
        ensures { OnOk result (plain_call self.new ≡ spec.with_item (plain_call self.old) (plain_item item.entry)) }
    {
        self.last.push(item)?;
        Ok(())
    }

    /// Reads an inner `)`.
    #[tactic(auto, unfolding(crate::specs::PlainCalls::plain_call))]
    fn close(&mut self, item: Item<'table, 'list>) -> Result<(), NoMemory>
        requires { 1 < self.old.nested }
        ensures { OnOk result (spec.goes_on (plain_call self.new) ≡ spec.closing (plain_call self.old) (plain_item item.entry) self.old.nested) }
    {
        self.last.push(item)?;
        self.nested -= 1;
        Ok(())
    }

    /// Reads a `(`, of which the outermost belongs to no argument.
    #[tactic(auto, unfolding(crate::specs::PlainCalls::plain_call))]
    fn open(&mut self, item: Item<'table, 'list>) -> Result<(), NoMemory>
        ensures { OnOk result (plain_call self.new ≡ spec.opening (plain_call self.old) (plain_item item.entry) self.old.nested) }
    {
        if self.nested > 0 {
            self.last.push(item)?;
        }
        self.nested += 1;
        Ok(())
    }

    /// Ends an argument.
    #[tactic(auto, unfolding(crate::specs::PlainCalls::plain_call))]
    fn next_argument(&mut self, alloc: Global) -> Result<(), NoMemory>
        requires { self.old.nested ≤ 1 }
        ensures { OnOk result (plain_call self.new ≡ spec.next_argument (plain_call self.old)) }
    {
        let argument = mem::replace(&mut self.last, Vec::new(alloc));
        self.arguments.push(argument)?;
        Ok(())
    }

    /// Reads a token that doesn't end the call.
    #[tactic(auto, unfolding(crate::specs::PlainCalls::plain_call))]
    pub fn read(&mut self, alloc: Global, item: Item<'table, 'list>) -> Result<(), NoMemory>
        requires { closes (plain_call self.old) (item_token item) ≡ false }
        ensures { OnOk result (spec.goes_on (plain_call self.new) ≡ spec.progress (plain_call self.old) (plain_item item.entry)) }
    {
        if item.is_spelled(b")") {
            self.close(item)?;
        } else if item.is_spelled(b"(") {
            self.open(item)?;
        } else if item.is_spelled(b",") && self.nested == 1 {
            self.next_argument(alloc)?;
        } else {
            self.push(item)?;
        }
        Ok(())
    }

    /// The arguments, where the call ends.
    #[tactic(auto, unfolding(crate::specs::PlainCalls::plain_call))]
    pub fn all_arguments(self) -> Result<Vec<Vec<Item<'table, 'list>>>, NoMemory>
        ensures { IfOk result (λ arguments. map (λ v. map plain_item v.items) arguments.items ≡ spec.all_arguments (plain_call self.entry)) }
    {
        let mut arguments = self.arguments;
        arguments.push(self.last)?;
        Ok(arguments)
    }
}

/// Whether a macro with these parameters may have these arguments.
pub fn fits(params: &[Vec<u8>], arguments: &[Vec<Item<'_, '_>>]) -> bool
    ensures { result ≡ spec.fits (map (λ n. n.items) params.now) (map (λ v. map plain_item v.items) arguments.now) }
{
    match arguments {
        [only] if params.is_empty() => only.is_empty(),
        _ => params.len() == arguments.len(),
    }
}
