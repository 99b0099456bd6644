//! Names in nodes.

ghost use Rattle.std.specs.Prelude.{◌≡◌, ℕ, Bool, ◌&&◌, List, [], ◌∷◌, IsTrue, OnOk};
ghost use Rattle.cond_formula.specs.Features.{has};
ghost use Rattle.cond_formula.specs.Conditions.{condition_of, conditions_of, value, all_true};
ghost use Rattle.scope_readings.specs.Walks as walks;
ghost use Rattle.cond_bindings.specs.Names.{TellsUndeclared};
ghost use Rattle.cond_bindings.specs.PlainNames.{plain_names};
ghost use Rattle.cond_scopes.specs.Roles.{plain_role};
ghost use Rattle.cond_scopes.specs.Progress.{name_read, MovesOn};

use crate::parts::{Around, Pending, Progress};
use crate::paths::chosen;
use crate::roles::{Role, may_declare, role_in, scope_of};
use cond_bindings::{Names, Occurrence};
use cond_formula::{Formula, NoMemory, Oracle};
use path_conditions::copied;

/// A token that is a name.
#[derive(Clone, Copy)]
pub(crate) struct Name<'a> {
    pub(crate) text: &'a [u8],
    /// The number of the token in the unit's stream.
    pub(crate) number: u32,
}

/// The name of a declarator.
fn read_declared<'a>(
    names: &mut Names,
    around: Around,
    name: Name<'a>,
    path: &[Formula],
    progress: &mut Progress<'a>,
) -> Result<(), NoMemory>
    ensures reads { OnOk result ((on : ℕ → Bool) (behind : List ℕ)
        → MovesOn on (all_true on (conditions_of path.now)) (name.entry.number ∷ behind) (name_read around.declaration walks.declared_name name.entry.text.now) behind (plain_names names.old) progress.old (plain_names names.new) progress.new) }
    ensures blocks { OnOk result ((plain_names names.new).blocks ≡ (plain_names names.old).blocks) }
    ensures tells { OnOk result ((on : ℕ → Bool) → TellsUndeclared on (plain_names names.old) → TellsUndeclared on (plain_names names.new)) }
{
    let occurrence = Occurrence {
        name: name.text,
        number: name.number,
        path,
    };
    names.named(around.alloc, scope_of(around.declaration), occurrence)?;
    progress.pending.push(Pending {
        name: name.text,
        number: name.number,
        path: copied(around.alloc, path)?,
    })?;
    Ok(())
}

/// A name of which is known what it is.
fn read_as<'a, O: Oracle>(
    names: &mut Names,
    around: Around,
    role: Role,
    name: Name<'a>,
    path: &[Formula],
    progress: &mut Progress<'a>,
    oracle: &mut O,
) -> Result<(), NoMemory>
    ensures kept { O.admits oracle.new ≡ O.admits oracle.old }
    ensures reads { OnOk result ((c : List Bool) (behind : List ℕ) → IsTrue (value (has c) (O.admits oracle.old))
        → MovesOn (has c) (all_true (has c) (conditions_of path.now)) (name.entry.number ∷ behind) (name_read around.declaration (plain_role role) name.entry.text.now) behind (plain_names names.old) progress.old (plain_names names.new) progress.new) }
    ensures blocks { OnOk result ((plain_names names.new).blocks ≡ (plain_names names.old).blocks) }
    ensures tells { OnOk result ((c : List Bool) → IsTrue (value (has c) (O.admits oracle.old)) → TellsUndeclared (has c) (plain_names names.old) → TellsUndeclared (has c) (plain_names names.new)) }
{
    let occurrence = Occurrence {
        name: name.text,
        number: name.number,
        path,
    };
    match role {
        Role::Use => names.used(around.alloc, occurrence, oracle)?,
        Role::Member => {}
        Role::Tag => {
            let may_declare = may_declare(around.declaration);
            names.tagged(around.alloc, may_declare, occurrence, oracle)?;
        }
        Role::Declared => read_declared(names, around, name, path, progress)?,
    }
    Ok(())
}

/// A name where a condition is true, before or behind a token that turns what names are.
fn read_where<'a, O: Oracle>(
    names: &mut Names,
    around: Around,
    turned: bool,
    when: &Formula,
    name: Name<'a>,
    path: &[Formula],
    progress: &mut Progress<'a>,
    oracle: &mut O,
) -> Result<(), NoMemory>
    ensures kept { O.admits oracle.new ≡ O.admits oracle.old }
    ensures reads { OnOk result ((c : List Bool) (behind : List ℕ) → IsTrue (value (has c) (O.admits oracle.old))
        → MovesOn (has c) (all_true (has c) (conditions_of path.now) && value (has c) (condition_of when.now)) (name.entry.number ∷ behind)
        (name_read around.declaration (walks.role around.kind turned) name.entry.text.now) behind (plain_names names.old) progress.old (plain_names names.new) progress.new) }
    ensures blocks { OnOk result ((plain_names names.new).blocks ≡ (plain_names names.old).blocks) }
    ensures tells { OnOk result ((c : List Bool) → IsTrue (value (has c) (O.admits oracle.old)) → TellsUndeclared (has c) (plain_names names.old) → TellsUndeclared (has c) (plain_names names.new)) }
{
    let Some(here) = chosen(around.alloc, path, when, oracle)? else {
        return Ok(());
    };
    let role = role_in(around.kind, turned);
    read_as(names, around, role, name, &here, progress, oracle)?;
    Ok(())
}

/// A name, which is another thing where a token before it in the node turned what names are.
pub(crate) fn read_name<'a, O: Oracle>(
    names: &mut Names,
    around: Around,
    name: Name<'a>,
    path: &[Formula],
    progress: &mut Progress<'a>,
    oracle: &mut O,
) -> Result<(), NoMemory>
    ensures kept { O.admits oracle.new ≡ O.admits oracle.old }
    ensures reads { OnOk result ((c : List Bool) (behind : List ℕ) → IsTrue (value (has c) (O.admits oracle.old))
        → MovesOn (has c) (all_true (has c) (conditions_of path.now)) (name.entry.number ∷ behind) (λ p. name_read around.declaration (walks.role around.kind p.turned) name.entry.text.now p) behind (plain_names names.old) progress.old (plain_names names.new) progress.new) }
    ensures blocks { OnOk result ((plain_names names.new).blocks ≡ (plain_names names.old).blocks) }
    ensures tells { OnOk result ((c : List Bool) → IsTrue (value (has c) (O.admits oracle.old)) → TellsUndeclared (has c) (plain_names names.old) → TellsUndeclared (has c) (plain_names names.new)) }
{
    let alloc = around.alloc;
    let turned = progress.turned.try_clone(alloc)?;
    let unturned = Formula::not(alloc, progress.turned.try_clone(alloc)?)?;
    read_where(
        names, around, false, &unturned, name, path, progress, oracle,
    )?;
    read_where(names, around, true, &turned, name, path, progress, oracle)?;
    Ok(())
}
