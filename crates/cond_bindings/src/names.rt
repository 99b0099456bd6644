//! What is visible at a place of a unit, in all configurations.

ghost use Rattle.std.specs.Prelude.{length};
ghost use Rattle.name_places.specs.Places.{place_of};
ghost use Rattle.cond_bindings.specs.Places.{TableBelow, IdentifiersBelow, LocalsBelow};

use crate::declarations::show;
use crate::locals::{LocalName, innermost_place, show_local};
use crate::name_uses::name_use;
use crate::occurrences::{Occurrence, Scope};
use crate::undeclared::with_undeclared;
use crate::unit_bindings::{FileUse, Identifier, Meaning, UnitBindings};
use cond_formula::{Formula, NoMemory, Oracle};
use name_places::place_in;
use path_conditions::conjoined;
use reduced_conditions::is_never;
use std::alloc::Global;
use std::collections::HashMap;
use std::mem;

/// What is visible at a place of a unit, and what the identifiers before it are bound to.
#[derive(Drop)]
pub struct Names {
    bindings: UnitBindings,
    // the places of the latest declarations at file scope
    file: HashMap<Vec<u8>, u32>,
    tags: HashMap<Vec<u8>, u32>,
    // the outermost first
    blocks: Vec<LocalName>,
    refused: Formula,
    ghost file_below: { TableBelow (length bindings.declarations.items) (place_of file) },
    ghost tags_below: { TableBelow (length bindings.declarations.items) (place_of tags) },
    ghost blocks_below: { LocalsBelow (length bindings.declarations.items) blocks.items },
    ghost identifiers_below: { IdentifiersBelow (length bindings.declarations.items) bindings.identifiers.items },
}

impl Names {
    ghost use Rattle.std.specs.Prelude.{◌≡◌, ℕ, Bool, true, ◌&&◌, List, [], ◌∷◌, ◌++◌, is_none, IsTrue, OnOk};
    ghost use Rattle.cond_formula.specs.Features.{has};
    ghost use Rattle.cond_formula.specs.Conditions.{condition_of, conditions_of, value, all_true};
    ghost use Rattle.core_meaning.specs.Entities.{or_else};
    ghost use Rattle.scope_readings.specs.Scopes as scopes;
    ghost use Rattle.cond_bindings.specs.Bindings.{visible, plain_meaning, identifiers_of, file_uses_of, innermost, first};
    ghost use Rattle.cond_bindings.specs.Names.{BlockName, visible_in, seen, Steps, Grows, TellsUndeclared};
    ghost use Rattle.cond_bindings.specs.NameSteps.{noted, with_use, with_file, with_tag, with_local, before_in};
    ghost use Rattle.cond_bindings.specs.Places.{is_below, meaning_below};
    ghost use Rattle.cond_bindings.specs.PlainNames.{plain_names};
    ghost use Rattle.cond_bindings.specs.Scopes.{plain_scope};

    /// What is visible before the first token: nothing.
    #[tactic(auto, using(cond_formula::specs::ConditionLaws::formula_kinds))]
    pub fn new(alloc: Global) -> Names
        ensures seen { (on : ℕ → Bool) (coming : List ℕ) → seen on coming (plain_names result) ≡ scopes.starting coming }
        ensures blocks { (plain_names result).blocks ≡ [] }
        ensures tells { (on : ℕ → Bool) → TellsUndeclared on (plain_names result) }
    {
        Names {
            bindings: UnitBindings {
                declarations: Vec::new(alloc),
                identifiers: Vec::new(alloc),
                uses: Vec::new(alloc),
            },
            file: HashMap::new(alloc),
            tags: HashMap::new(alloc),
            blocks: Vec::new(alloc),
            refused: Formula::False,
        }
    }

    fn block_place(&self, name: &[u8]) -> Option<u32>
        ensures visible { visible self.now.bindings.declarations.items result ≡ visible_in (plain_names self.now).blocks name.now }
        ensures below { is_below (length self.now.bindings.declarations.items) result ≡ true }
    {
        innermost_place(self.blocks.as_slice(), name)
    }

    fn file_place(&self, name: &[u8]) -> Option<u32>
        ensures visible { visible self.now.bindings.declarations.items result ≡ (plain_names self.now).file name.now }
        ensures below { is_below (length self.now.bindings.declarations.items) result ≡ true }
    {
        place_in(&self.file, name)
    }

    fn tag_place(&self, name: &[u8]) -> Option<u32>
        ensures visible { visible self.now.bindings.declarations.items result ≡ (plain_names self.now).tags name.now }
        ensures below { is_below (length self.now.bindings.declarations.items) result ≡ true }
    {
        place_in(&self.tags, name)
    }

    /// The place of the latest declaration of what a declarator names, if that may be declared before it.
    fn place_before(&self, scope: Scope, name: &[u8]) -> Option<u32>
        ensures visible { visible self.now.bindings.declarations.items result ≡ before_in (plain_scope scope) (plain_names self.now) name.now }
        ensures below { is_below (length self.now.bindings.declarations.items) result ≡ true }
    {
        match scope {
            Scope::File => self.file_place(name),
            Scope::Block => None,
            Scope::Members => None,
        }
    }

    /// One more identifier.
    fn note(&mut self, number: u32, when: Formula, meaning: Meaning) -> Result<(), NoMemory>
        requires { meaning_below (length self.old.bindings.declarations.items) meaning ≡ true }
        ensures { OnOk result (plain_names self.new ≡ noted (plain_names self.old)
            record { number = number; when = condition_of when; meaning = plain_meaning self.old.bindings.declarations.items meaning }) }
    {
        self.bindings.identifiers.push(Identifier {
            number,
            when,
            meaning,
        })?;
        Ok(())
    }

    /// A use, by the places of the latest declarations in open blocks and at file scope, and by where none of them is visible.
    fn note_use<O: Oracle>(
        &mut self,
        alloc: Global,
        occurrence: Occurrence,
        block: Option<u32>,
        file: Option<u32>,
        undeclared: Formula,
        oracle: &mut O,
    ) -> Result<(), NoMemory>
        requires block { is_below (length self.old.bindings.declarations.items) block ≡ true }
        requires file { is_below (length self.old.bindings.declarations.items) file ≡ true }
        requires undeclared { (on : ℕ → Bool) → value on (condition_of undeclared)
            ≡ (all_true on (conditions_of occurrence.path.now)
            && is_none (or_else (innermost on (visible self.old.bindings.declarations.items block)) (first on (visible self.old.bindings.declarations.items file)))) }
        ensures kept { O.admits oracle.new ≡ O.admits oracle.old }
        ensures seen { OnOk result ((on : ℕ → Bool) (coming : List ℕ)
            → Steps on (all_true on (conditions_of occurrence.entry.path.now)) (occurrence.entry.number ∷ coming)
            (scopes.paired (or_else (innermost on (visible self.old.bindings.declarations.items block)) (first on (visible self.old.bindings.declarations.items file))))
            coming (plain_names self.old) (plain_names self.new)) }
        ensures blocks { OnOk result ((plain_names self.new).blocks ≡ (plain_names self.old).blocks) }
        ensures tells { OnOk result ((c : List Bool) → IsTrue (value (has c) (O.admits oracle.old))
            → TellsUndeclared (has c) (plain_names self.old) → TellsUndeclared (has c) (plain_names self.new)) }
    {
        let before = mem::replace(&mut self.refused, Formula::False);
        self.refused = with_undeclared(alloc, before, undeclared, oracle)?;
        let when = conjoined(alloc, occurrence.path)?;
        self.note(occurrence.number, when, Meaning::Use(block, file))?;
        Ok(())
    }

    /// An expression uses a name of file scope.
    fn note_file_use(&mut self, alloc: Global, name: &[u8], when: Formula) -> Result<(), NoMemory>
        ensures { OnOk result (plain_names self.new ≡ with_use (plain_names self.old) record { name = name.now; when = condition_of when }) }
    {
        let name = Vec::from_slice(alloc, name)?;
        self.bindings.uses.push(FileUse { name, when })?;
        Ok(())
    }

    /// An expression uses a name of file scope, if that may be.
    fn use_file(&mut self, alloc: Global, name: &[u8], when: Formula) -> Result<(), NoMemory>
        ensures seen { OnOk result ((on : ℕ → Bool) (coming : List ℕ)
            → seen on coming (plain_names self.new) ≡ seen on coming (with_use (plain_names self.old) record { name = name.now; when = condition_of when })) }
        ensures blocks { OnOk result ((plain_names self.new).blocks ≡ (plain_names self.old).blocks) }
        ensures tells { OnOk result ((on : ℕ → Bool) → TellsUndeclared on (plain_names self.old) → TellsUndeclared on (plain_names self.new)) }
    {
        if is_never(&when) {
            return Ok(());
        }
        self.note_file_use(alloc, name, when)?;
        Ok(())
    }

    /// An ordinary name that is used.
    pub fn used<O: Oracle>(
        &mut self,
        alloc: Global,
        occurrence: Occurrence,
        oracle: &mut O,
    ) -> Result<(), NoMemory>
        ensures kept { O.admits oracle.new ≡ O.admits oracle.old }
        ensures seen { OnOk result ((on : ℕ → Bool) (coming : List ℕ)
            → Steps on (all_true on (conditions_of occurrence.entry.path.now)) (occurrence.entry.number ∷ coming)
            (scopes.used occurrence.entry.name.now) coming (plain_names self.old) (plain_names self.new)) }
        ensures blocks { OnOk result ((plain_names self.new).blocks ≡ (plain_names self.old).blocks) }
        ensures tells { OnOk result ((c : List Bool) → IsTrue (value (has c) (O.admits oracle.old))
            → TellsUndeclared (has c) (plain_names self.old) → TellsUndeclared (has c) (plain_names self.new)) }
    {
        let block = self.block_place(occurrence.name);
        let file = self.file_place(occurrence.name);
        let declarations = self.bindings.declarations.as_slice();
        let name = name_use(alloc, declarations, block, file, occurrence.path)?;
        self.note_use(alloc, occurrence, block, file, name.undeclared, oracle)?;
        self.use_file(alloc, occurrence.name, name.of_file)?;
        Ok(())
    }

    /// A tag that is visible from here on.
    fn show_tag(
        &mut self,
        alloc: Global,
        name: &[u8],
        number: u32,
        when: Formula,
    ) -> Result<(), NoMemory>
        ensures { OnOk result (plain_names self.new ≡ with_tag (plain_names self.old) name.now record { when = condition_of when; number = number }) }
    {
        show(
            alloc,
            &mut self.bindings.declarations,
            &mut self.tags,
            name,
            number,
            when,
        )?;
        Ok(())
    }

    /// A tag that declares a struct.
    fn declare_tag(&mut self, alloc: Global, occurrence: Occurrence) -> Result<(), NoMemory>
        ensures seen { OnOk result ((on : ℕ → Bool) (coming : List ℕ)
            → Steps on (all_true on (conditions_of occurrence.entry.path.now)) (occurrence.entry.number ∷ coming)
            (scopes.tagged true occurrence.entry.name.now) coming (plain_names self.old) (plain_names self.new)) }
        ensures blocks { OnOk result ((plain_names self.new).blocks ≡ (plain_names self.old).blocks) }
        ensures tells { OnOk result ((on : ℕ → Bool) → TellsUndeclared on (plain_names self.old) → TellsUndeclared on (plain_names self.new)) }
    {
        let earlier = self.tag_place(occurrence.name);
        let when = conjoined(alloc, occurrence.path)?;
        let copy = when.try_clone(alloc)?;
        self.note(occurrence.number, copy, Meaning::Declares(earlier))?;
        self.show_tag(alloc, occurrence.name, occurrence.number, when)?;
        Ok(())
    }

    /// A tag. Where it may declare a struct, it is visible from here on.
    pub fn tagged<O: Oracle>(
        &mut self,
        alloc: Global,
        may_declare: bool,
        occurrence: Occurrence,
        oracle: &mut O,
    ) -> Result<(), NoMemory>
        ensures kept { O.admits oracle.new ≡ O.admits oracle.old }
        ensures seen { OnOk result ((on : ℕ → Bool) (coming : List ℕ)
            → Steps on (all_true on (conditions_of occurrence.entry.path.now)) (occurrence.entry.number ∷ coming)
            (scopes.tagged may_declare occurrence.entry.name.now) coming (plain_names self.old) (plain_names self.new)) }
        ensures blocks { OnOk result ((plain_names self.new).blocks ≡ (plain_names self.old).blocks) }
        ensures tells { OnOk result ((c : List Bool) → IsTrue (value (has c) (O.admits oracle.old))
            → TellsUndeclared (has c) (plain_names self.old) → TellsUndeclared (has c) (plain_names self.new)) }
    {
        if may_declare {
            self.declare_tag(alloc, occurrence)?;
            return Ok(());
        }
        let tag = self.tag_place(occurrence.name);
        let declarations = self.bindings.declarations.as_slice();
        let tag_use = name_use(alloc, declarations, None, tag, occurrence.path)?;
        self.note_use(alloc, occurrence, None, tag, tag_use.undeclared, oracle)?;
        Ok(())
    }

    /// The name of a declarator.
    pub fn named(
        &mut self,
        alloc: Global,
        scope: Scope,
        occurrence: Occurrence,
    ) -> Result<(), NoMemory>
        ensures seen { OnOk result ((on : ℕ → Bool) (coming : List ℕ)
            → Steps on (all_true on (conditions_of occurrence.entry.path.now)) (occurrence.entry.number ∷ coming)
            (scopes.named (plain_scope scope) occurrence.entry.name.now) coming (plain_names self.old) (plain_names self.new)) }
        ensures blocks { OnOk result ((plain_names self.new).blocks ≡ (plain_names self.old).blocks) }
        ensures tells { OnOk result ((on : ℕ → Bool) → TellsUndeclared on (plain_names self.old) → TellsUndeclared on (plain_names self.new)) }
    {
        let earlier = self.place_before(scope, occurrence.name);
        let when = conjoined(alloc, occurrence.path)?;
        self.note(occurrence.number, when, Meaning::Declares(earlier))?;
        Ok(())
    }

    /// A name of file scope that is visible from here on.
    fn show_file(
        &mut self,
        alloc: Global,
        name: &[u8],
        number: u32,
        when: Formula,
    ) -> Result<(), NoMemory>
        ensures { OnOk result (plain_names self.new ≡ with_file (plain_names self.old) name.now record { when = condition_of when; number = number }) }
    {
        show(
            alloc,
            &mut self.bindings.declarations,
            &mut self.file,
            name,
            number,
            when,
        )?;
        Ok(())
    }

    /// A name of the innermost block that is visible from here on.
    fn show_block(
        &mut self,
        alloc: Global,
        name: &[u8],
        number: u32,
        when: Formula,
    ) -> Result<(), NoMemory>
        ensures { OnOk result (plain_names self.new ≡ with_local (plain_names self.old) name.now record { when = condition_of when; number = number }) }
    {
        show_local(
            alloc,
            &mut self.bindings.declarations,
            &mut self.blocks,
            name,
            number,
            when,
        )?;
        Ok(())
    }

    fn shown_at_file(&mut self, alloc: Global, occurrence: Occurrence) -> Result<(), NoMemory>
        ensures seen { OnOk result ((on : ℕ → Bool) (coming : List ℕ)
            → Steps on (all_true on (conditions_of occurrence.entry.path.now)) coming
            (scopes.shown scopes.file_scope occurrence.entry.name.now occurrence.entry.number) coming (plain_names self.old) (plain_names self.new)) }
        ensures grows { OnOk result (Grows (plain_names self.old) (plain_names self.new)) }
        ensures tells { OnOk result ((on : ℕ → Bool) → TellsUndeclared on (plain_names self.old) → TellsUndeclared on (plain_names self.new)) }
    {
        let when = conjoined(alloc, occurrence.path)?;
        self.show_file(alloc, occurrence.name, occurrence.number, when)?;
        Ok(())
    }

    fn shown_in_block(&mut self, alloc: Global, occurrence: Occurrence) -> Result<(), NoMemory>
        ensures seen { OnOk result ((on : ℕ → Bool) (coming : List ℕ)
            → Steps on (all_true on (conditions_of occurrence.entry.path.now)) coming
            (scopes.shown scopes.block_scope occurrence.entry.name.now occurrence.entry.number) coming (plain_names self.old) (plain_names self.new)) }
        ensures grows { OnOk result (Grows (plain_names self.old) (plain_names self.new)) }
        ensures tells { OnOk result ((on : ℕ → Bool) → TellsUndeclared on (plain_names self.old) → TellsUndeclared on (plain_names self.new)) }
    {
        let when = conjoined(alloc, occurrence.path)?;
        self.show_block(alloc, occurrence.name, occurrence.number, when)?;
        Ok(())
    }

    /// The name is visible from here on, behind its declarator.
    pub fn shown(
        &mut self,
        alloc: Global,
        scope: Scope,
        occurrence: Occurrence,
    ) -> Result<(), NoMemory>
        ensures seen { OnOk result ((on : ℕ → Bool) (coming : List ℕ)
            → Steps on (all_true on (conditions_of occurrence.entry.path.now)) coming
            (scopes.shown (plain_scope scope) occurrence.entry.name.now occurrence.entry.number) coming (plain_names self.old) (plain_names self.new)) }
        ensures grows { OnOk result (Grows (plain_names self.old) (plain_names self.new)) }
        ensures tells { OnOk result ((on : ℕ → Bool) → TellsUndeclared on (plain_names self.old) → TellsUndeclared on (plain_names self.new)) }
    {
        match scope {
            Scope::File => self.shown_at_file(alloc, occurrence),
            Scope::Block => self.shown_in_block(alloc, occurrence),
            Scope::Members => Ok(()),
        }
    }

    /// How many names the open blocks declare.
    #[tactic(auto, using(std::proofs::lemmas::List::places))]
    pub fn open_names(&self) -> usize
        ensures { result ≡ length (plain_names self.now).blocks }
    {
        self.blocks.len()
    }

    /// Blocks end: of the names that open blocks declare so many stay visible.
    pub fn leave(&mut self, kept: usize)
        ensures { (more outer : List BlockName) → length outer ≡ kept → (plain_names self.old).blocks ≡ more ++ outer
            → plain_names self.new ≡ record (plain_names self.old) { blocks = outer } }
    {
        self.blocks.truncate(kept);
    }

    /// What the identifiers are bound to with the names of file scope that are used, and the condition under which one of them is undeclared.
    pub fn finished(self) -> (UnitBindings, Formula)
        ensures identifiers { identifiers_of result.0 ≡ (plain_names self).identifiers }
        ensures uses { file_uses_of result.0 ≡ (plain_names self).uses }
        ensures refused { condition_of result.1 ≡ (plain_names self).refused }
    {
        let Names {
            bindings,
            file: _,
            tags: _,
            blocks: _,
            refused,
        } = self;
        (bindings, refused)
    }
}
