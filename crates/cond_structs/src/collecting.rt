//! The members of a struct while they are declared.
ghost use Rattle.std.specs.Prelude.{◌≡◌, ℕ, Bool, [], true, ◌||◌, ◌&&◌, if◌then◌else◌, is_some, IfOk, OnOk};
ghost use Rattle.std.specs.Str.{bytes_eq};
ghost use Rattle.cond_formula.specs.Conditions.{condition_of, value};
ghost use Rattle.c_types.specs.Types.{PlainType, plain_type};
ghost use Rattle.conditional.specs.Entries.{seen, entries_of, some_holds, Carry};
ghost use Rattle.operand_rules.specs.PlainOperandTypes.{reason};
ghost use Rattle.type_tables.specs.Forms.{member_form, declared_type_form};
ghost use Rattle.type_tables.specs.Tables.{member_named};
ghost use Rattle.type_tables.specs.Seen.{seen_tables};
ghost use Rattle.cond_structs.specs.Gathered.{gathered, refuse, is_named, with_type};

use c_types::CType;
use cond_formula::{Formula, NoMemory};
use cond_sums::CondSum;
use conditional::{CondList, Guarded, Outcomes, when_some_hold};
use operand_rules::Refused;
use plain_scope::copied;
use reduced_conditions::{both, both_of, either, without};
use std::alloc::Global;
use std::mem;
use type_tables::{DeclaredType, Member, Tables};

/// The members so far, how many scalars they have, and where one was refused.
#[derive(Drop)]
pub(crate) struct Gathering {
    pub(crate) members: CondList<Member>,
    pub(crate) scalars: CondSum,
    pub(crate) refused: Formula,
}

/// Where this was found, or the member is there and has the name.
fn or_named(
    alloc: Global,
    found: Formula,
    entry: &Guarded<Member>,
    name: &[u8],
) -> Result<Formula, NoMemory>
    ensures { IfOk result (λ f. (on : ℕ → Bool) → value on (condition_of f) ≡ (value on (condition_of found) || (value on (condition_of entry.now.when) && bytes_eq name.now entry.now.what.name.items))) }
{
    if name != entry.what.name.as_slice() {
        return Ok(found);
    }
    let f = either(alloc, found, entry.when.try_clone(alloc)?)?;
    Ok(f)
}

/// Where a member of a list has this name.
#[tactic(auto, using(cond_formula::specs::ConditionLaws::formula_kinds))]
fn where_named(alloc: Global, members: &[Guarded<Member>], name: &[u8]) -> Result<Formula, NoMemory>
    ensures { IfOk result (λ f. (on : ℕ → Bool) → value on (condition_of f) ≡ is_some (member_named (seen on (entries_of member_form members.now)) name.now)) }
{
    let mut found = Formula::False;
    for entry in members {
        found = or_named(alloc, found, entry, name)?;
    }
    Ok(found)
}

/// Where the condition is true and a type is refused.
pub(crate) fn where_refused(
    alloc: Global,
    here: &Formula,
    types: &Outcomes<DeclaredType, Refused>,
) -> Result<Formula, NoMemory>
    ensures { IfOk result (λ f. (on : ℕ → Bool) → value on (condition_of f) ≡ (value on (condition_of here.now) && some_holds on (entries_of reason types.now.refused.entries.items))) }
{
    let refused = when_some_hold(alloc, &types.refused.entries)?;
    let f = both(alloc, here.try_clone(alloc)?, refused)?;
    Ok(f)
}

/// A member of this name and type.
fn member(alloc: Global, name: &[u8], ty: &CType) -> Result<Member, NoMemory>
    ensures { IfOk result (λ m. member_form m ≡ record { name = name.now; ty = plain_type ty.now }) }
{
    let name = Vec::from_slice(alloc, name)?;
    let ty = copied(alloc, ty)?;
    Ok(Member { name, ty })
}

impl Gathering {
    ghost use Rattle.std.specs.Prelude.{◌≡◌, ℕ, Bool, true, [], ◌&&◌, if◌then◌else◌, IfOk, OnOk};
    ghost use Rattle.cond_formula.specs.Conditions.{condition_of, value};
    ghost use Rattle.c_types.specs.Types.{PlainType, plain_type};
    ghost use Rattle.conditional.specs.Entries.{entries_of, some_holds, Carry};
    ghost use Rattle.type_tables.specs.Forms.{declared_type_form};
    ghost use Rattle.type_tables.specs.Seen.{seen_tables};
    ghost use Rattle.conditional.specs.Judgements.{Checked};
    ghost use Rattle.cond_declarators.specs.Types.{ShowsType};
    ghost use Rattle.cond_structs.specs.Gathered.{gathered, refuse, is_named, with_type, with_outcome, Comes, Keeps};

    /// No members yet.
    pub(crate) fn new(alloc: Global, refused: Formula) -> Gathering
        ensures { (on : ℕ → Bool) → gathered on result ≡ record { members = []; scalars = 0; refused = value on (condition_of refused) } }
    {
        Gathering {
            members: CondList::empty(alloc),
            scalars: CondSum::nothing(alloc),
            refused,
        }
    }

    /// A member is refused there too.
    pub(crate) fn refuse(&mut self, alloc: Global, found: Formula) -> Result<(), NoMemory>
        ensures { OnOk result ((on : ℕ → Bool) → gathered on self.new ≡ refuse (value on (condition_of found)) (gathered on self.old)) }
    {
        let before = mem::replace(&mut self.refused, Formula::False);
        self.refused = either(alloc, before, found)?;
        Ok(())
    }

    /// Where there is a member of this name.
    pub(crate) fn where_named(&self, alloc: Global, name: &[u8]) -> Result<Formula, NoMemory>
        ensures { IfOk result (λ f. (on : ℕ → Bool) → value on (condition_of f) ≡ is_named name.now (gathered on self.now)) }
    {
        let named = where_named(alloc, &self.members.entries, name)?;
        Ok(named)
    }

    /// One member more where the condition is true.
    fn add(
        &mut self,
        alloc: Global,
        tables: &Tables,
        when: &Formula,
        name: &[u8],
        ty: &CType,
    ) -> Result<(), NoMemory>
        ensures { OnOk result ((on : ℕ → Bool) → gathered on self.new ≡ (if value on (condition_of when.now) then with_type (seen_tables on tables.now) name.now (plain_type ty.now) (gathered on self.old) else gathered on self.old)) }
    {
        let scalars = tables.scalars_of(alloc, ty)?;
        let complete = tables.where_complete(alloc, ty)?;
        let incomplete = without(alloc, when.try_clone(alloc)?, &complete)?;
        self.scalars.push_under(alloc, when, &scalars)?;
        self.members
            .push(when.try_clone(alloc)?, member(alloc, name, ty)?)?;
        let before = mem::replace(&mut self.refused, Formula::False);
        self.refused = either(alloc, before, incomplete)?;
        Ok(())
    }

    /// One member more where the condition is true, of the type that is seen of these. Alternatives that hold carry one type, and the first counts.
    pub(crate) fn add_first(
        &mut self,
        alloc: Global,
        tables: &Tables,
        here: &Formula,
        name: &[u8],
        types: &[Guarded<DeclaredType>],
    ) -> Result<(), NoMemory>
        ensures keeps { OnOk result ((on : ℕ → Bool) → Keeps (value on (condition_of here.now)) (gathered on self.old) (gathered on self.new)) }
        ensures adds { OnOk result ((on : ℕ → Bool) (ty : PlainType) → Carry on ty (entries_of declared_type_form types.now)
            → gathered on self.new ≡ (if value on (condition_of here.now) && some_holds on (entries_of declared_type_form types.now) then with_type (seen_tables on tables.now) name.now ty (gathered on self.old) else gathered on self.old)) }
    {
        let mut left = here.try_clone(alloc)?;
        for entry in types {
            let when = both_of(alloc, &left, &entry.when)?;
            self.add(alloc, tables, &when, name, &entry.what.ty)?;
            left = without(alloc, left, &entry.when)?;
        }
        Ok(())
    }

    /// One member more where the condition is true, of the type that a declarator comes to, or a refusal.
    pub(crate) fn add_outcome(
        &mut self,
        alloc: Global,
        tables: &Tables,
        here: &Formula,
        name: &[u8],
        types: &Outcomes<DeclaredType, Refused>,
    ) -> Result<(), NoMemory>
        ensures keeps { OnOk result ((on : ℕ → Bool) → Keeps (value on (condition_of here.now)) (gathered on self.old) (gathered on self.new)) }
        ensures comes { OnOk result ((on : ℕ → Bool) (v : Checked PlainType (Unit {0})) → ShowsType on v types.now → value on (condition_of here.now) ≡ true
            → Comes (gathered on self.new) (with_outcome (seen_tables on tables.now) name.now v (gathered on self.old))) }
    {
        let refused = where_refused(alloc, here, types)?;
        self.add_first(alloc, tables, here, name, &types.fine.alternatives)?;
        self.refuse(alloc, refused)?;
        Ok(())
    }
}
