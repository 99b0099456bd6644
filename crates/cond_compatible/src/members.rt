//! Where two structs agree: by their tags, and by their members in order.
ghost use Rattle.std.specs.Prelude.{◌≡◌, ℕ, Bool, not, List, Some, IsTrue, IfOk};
ghost use Rattle.cond_formula.specs.Features.{has};
ghost use Rattle.cond_formula.specs.Conditions.{condition_of, value};
ghost use Rattle.conditional.specs.Entries.{seen, listed, first};
ghost use Rattle.c_types.specs.Tags.{PlainMember};
ghost use Rattle.operand_rules.specs.PlainOperandTypes.{reason};
ghost use Rattle.type_tables.specs.Forms.{member_form};
ghost use Rattle.cond_compatible.specs.Depths.{member_agrees, members_agree, tags_agree, unless_agreed};
ghost use Rattle.cond_compatible.specs.SeenTags.{tag_seen, said_alike};

use crate::alike::AlikeStructs;
use crate::types::where_types_agree;
use cond_formula::{Formula, NoMemory, Oracle};
use conditional::{CondList, when_some_hold};
use matched_lists::{Longer, Matching, match_lists};
use operand_rules::Refused;
use reduced_conditions::{both, both_of};
use std::alloc::Global;
use type_tables::{CondStruct, Member};

/// Where two members agree.
#[tactic(auto, using(cond_formula::specs::ConditionLaws::formula_kinds))]
fn where_member_agrees(
    alloc: Global,
    alike: &AlikeStructs,
    a: &Member,
    b: &Member,
) -> Result<Formula, NoMemory>
    ensures { IfOk result (λ f. (on : ℕ → Bool) → value on (condition_of f) ≡ member_agrees (said_alike on alike.now) (member_form a.now) (member_form b.now)) }
{
    if a.name.as_slice() != b.name.as_slice() {
        return Ok(Formula::False);
    }
    where_types_agree(alloc, alike, &a.ty, &b.ty)
}

impl Matching<Member, Member, Refused> for AlikeStructs {
    ghost First = { PlainMember };

    ghost Second = { PlainMember };

    ghost first = { λ self c member plain. member_form member ≡ plain };

    ghost second = { λ self c member plain. member_form member ≡ plain };

    ghost answers = { λ self c a b z. first (seen (has c) (listed reason z)) ≡ unless_agreed (member_agrees (said_alike (has c) self) a b) };

    fn refusals<O: Oracle>(
        &self,
        alloc: Global,
        _oracle: &mut O,
        a: &Member,
        b: &Member,
    ) -> Result<CondList<Refused>, NoMemory> {
        let mut refused = CondList::empty(alloc);
        let agreed = where_member_agrees(alloc, self, a, b)?;
        refused.push(Formula::not(alloc, agreed)?, Refused)?;
        Ok(refused)
    }
}

/// Where the members of two structs don't agree.
fn where_members_differ<O: Oracle>(
    alloc: Global,
    oracle: &mut O,
    alike: &AlikeStructs,
    a: &CondList<Member>,
    b: &CondList<Member>,
) -> Result<Formula, NoMemory>
    ensures kept { O.admits oracle.new ≡ O.admits oracle.old }
    ensures exact { IfOk result (λ f. (c : List Bool) → IsTrue (value (has c) (O.admits oracle.old))
        → value (has c) (condition_of f) ≡ not (members_agree (said_alike (has c) alike.now) (seen (has c) (listed member_form a.now)) (seen (has c) (listed member_form b.now)))) }
{
    let longer = Longer {
        first: Some(Refused),
        second: Some(Refused),
    };
    let refused = match_lists(alloc, alike, oracle, &longer, &a.entries, &b.entries)?;
    when_some_hold(alloc, &refused.entries)
}

/// Where two structs of one tag agree.
fn where_complete_agree<O: Oracle>(
    alloc: Global,
    oracle: &mut O,
    alike: &AlikeStructs,
    a: &CondStruct,
    b: &CondStruct,
) -> Result<Formula, NoMemory>
    requires { a.now.tag.items ≡ b.now.tag.items }
    ensures kept { O.admits oracle.new ≡ O.admits oracle.old }
    ensures exact { IfOk result (λ f. (c : List Bool) → IsTrue (value (has c) (O.admits oracle.old))
        → value (has c) (condition_of f) ≡ tags_agree (said_alike (has c) alike.now) (tag_seen (has c) a.now) (tag_seen (has c) b.now)) }
{
    let differ = where_members_differ(alloc, oracle, alike, &a.members, &b.members)?;
    let complete = both_of(alloc, &a.complete, &b.complete)?;
    let apart = both(alloc, complete, differ)?;
    let agree = Formula::not(alloc, apart)?;
    Ok(agree)
}

/// Where two structs agree.
#[tactic(auto, using(cond_formula::specs::ConditionLaws::formula_kinds))]
pub(crate) fn where_structs_agree<O: Oracle>(
    alloc: Global,
    oracle: &mut O,
    alike: &AlikeStructs,
    a: &CondStruct,
    b: &CondStruct,
) -> Result<Formula, NoMemory>
    ensures kept { O.admits oracle.new ≡ O.admits oracle.old }
    ensures exact { IfOk result (λ f. (c : List Bool) → IsTrue (value (has c) (O.admits oracle.old))
        → value (has c) (condition_of f) ≡ tags_agree (said_alike (has c) alike.now) (tag_seen (has c) a.now) (tag_seen (has c) b.now)) }
{
    if a.tag.as_slice() != b.tag.as_slice() {
        return Ok(Formula::False);
    }
    where_complete_agree(alloc, oracle, alike, a, b)
}
