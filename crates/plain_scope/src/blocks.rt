//! How blocks and declarations change what is visible (6.2.1).
ghost use Rattle.std.specs.Prelude.{◌≡◌, length, OnOk, IfOk};
ghost use Rattle.c_types.specs.Types.{plain_type};
ghost use Rattle.core_meaning.specs.Entities.{with_entry};
ghost use Rattle.core_meaning.specs.Declarations.{with_local, with_struct, new_struct, innermost, is_new_local};
ghost use Rattle.plain_scope.specs.PlainScope.{plain_scope, plain_local, plain_struct, plain_block, entry_of};
ghost use Rattle.plain_scope.specs.Blocks.{with_block, without_block, within};

use crate::entities::{Local, Scope, Struct, copied};
use c_types::CType;
use cond_formula::NoMemory;
use std::alloc::Global;
use std::collections::HashMap;

/// Enters what a name stands for.
fn enter<X: Drop>(
    alloc: Global,
    table: &mut HashMap<Vec<u8>, X>,
    name: &[u8],
    entry: X,
) -> Result<(), NoMemory>
    ensures { OnOk result (entry_of table.new ≡ with_entry (entry_of table.old) name.now entry) }
{
    table.insert(Vec::from_slice(alloc, name)?, entry)?;
    Ok(())
}

fn enter_local(
    alloc: Global,
    block: &mut HashMap<Vec<u8>, Local>,
    name: &[u8],
    local: Local,
) -> Result<(), NoMemory>
    ensures { OnOk result (plain_block block.new ≡ with_entry (plain_block block.old) name.now (plain_local local)) }
{
    enter(alloc, block, name, local)?;
    Ok(())
}

fn new_struct(alloc: Global, name: &[u8]) -> Result<Struct, NoMemory>
    ensures { IfOk result (λ s. plain_struct s ≡ new_struct name.now) }
{
    Ok(Struct {
        name: Vec::from_slice(alloc, name)?,
        members: Vec::new(alloc),
        numbers: HashMap::new(alloc),
        complete: false,
        scalars: 0,
    })
}

impl<'a> Scope<'a> {
    /// Begins a block within the blocks that are open.
    pub fn begin_block(&mut self, alloc: Global) -> Result<(), NoMemory>
        ensures { OnOk result (plain_scope self.new ≡ with_block (plain_scope self.old)) }
    {
        self.blocks.push(HashMap::new(alloc))?;
        Ok(())
    }

    /// Ends the innermost block: its locals are no longer visible.
    pub fn end_block(&mut self)
        ensures { plain_scope self.new ≡ without_block (plain_scope self.old) }
    {
        self.blocks.pop();
    }

    /// Takes the innermost block out, or a new one where there is none.
    fn take_block(&mut self, alloc: Global) -> HashMap<Vec<u8>, Local>
        ensures rest { plain_scope self.new ≡ without_block (plain_scope self.old) }
        ensures taken { plain_block result ≡ innermost (plain_scope self.old).blocks }
    {
        match self.blocks.pop() {
            Some(block) => block,
            None => HashMap::new(alloc),
        }
    }

    fn put_block(&mut self, block: HashMap<Vec<u8>, Local>) -> Result<(), NoMemory>
        ensures { OnOk result (plain_scope self.new ≡ within (plain_block block) (plain_scope self.old)) }
    {
        self.blocks.push(block)?;
        Ok(())
    }

    /// Declares a local of the innermost block.
    #[tactic(auto, using(crate::proofs::NameLemmas::local_within))]
    pub fn declare_local(
        &mut self,
        alloc: Global,
        name: &[u8],
        slot: u32,
        ty: &CType,
    ) -> Result<(), NoMemory>
        ensures { OnOk result (plain_scope self.new ≡ with_local (plain_scope self.old) name.now slot (plain_type ty.now)) }
    {
        let ty = copied(alloc, ty)?;
        let mut block = self.take_block(alloc);
        enter_local(alloc, &mut block, name, Local { slot, ty })?;
        self.put_block(block)?;
        Ok(())
    }

    /// Whether a name isn't yet declared in the innermost block.
    pub fn is_new_local(&self, name: &[u8]) -> bool
        ensures { result ≡ is_new_local (plain_scope self.now) name.now }
    {
        match self.blocks.as_slice().split_last() {
            Some((innermost, _)) => innermost.get(name).is_none(),
            None => true,
        }
    }

    /// The number of this unit's struct with a tag.
    pub fn tagged(&self, tag: &[u8]) -> Option<u32>
        ensures { result ≡ (plain_scope self.now).tags tag.now }
    {
        self.tags.get(tag).copied()
    }

    /// Declares a struct, whose number is that of the structs before it; it is incomplete.
    pub fn declare_struct(&mut self, alloc: Global, tag: &[u8], number: u32) -> Result<(), NoMemory>
        requires { number ≡ length self.old.structs.items }
        ensures { OnOk result (plain_scope self.new ≡ with_struct (plain_scope self.old) tag.now) }
    {
        self.structs.push(new_struct(alloc, tag)?)?;
        enter(alloc, &mut self.tags, tag, number)?;
        Ok(())
    }
}
