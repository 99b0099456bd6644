//! The recursion of macro replacement: a list, and the lists of bodies and arguments one level
//! below (6.10.3.4).
ghost use Rattle.std.specs.Prelude.{◌≡◌, ◌∷◌, List, Some, map, IfOk};
ghost use Rattle.std.specs.Option.{option_map};
ghost use Rattle.c_text.specs.Macros as spec;
ghost use Rattle.c_text.specs.Token.{plain_token};
ghost use Rattle.plain_macros.specs.PlainItems.{plain_item, item_token};
ghost use Rattle.plain_macros.specs.PlainCalls.{plain_call};
ghost use Rattle.plain_macros.specs.PlainLevels.{macros_of, active_in, deeper_in};
ghost use Rattle.plain_macros.specs.PlainRuns.{plain_finished, reading, items_of};

use crate::calls::{Call, fits};
use crate::items::{Item, Source};
use crate::levels::{Kind, Level, ends_in_function, kind_of};
use crate::lists::{brought_items, fresh_items, opens_at, substituted};
use crate::runs::{Finished, Run, with_call, with_item};
use c_text::Token;
use cond_formula::NoMemory;
use std::alloc::Global;

fn with_name<'table, 'list>(
    alloc: Global,
    name: &Item<'table, 'list>,
    active: &[Item<'table, 'list>],
) -> Result<Vec<Item<'table, 'list>>, NoMemory>
    ensures { IfOk result (λ names. map (λ n. (item_token n).text) names.items ≡ (item_token name.now).text ∷ map (λ n. (item_token n).text) active.now) }
{
    let mut names = Vec::new(alloc);
    names.push(*name)?;
    names.extend_from_slice(active)?;
    Ok(names)
}

/// What a call from its first to its last token brings, if it may end as these items do.
fn checked<'table, 'list>(
    level: &Level<'table, 'list, '_>,
    first: &Item<'table, 'list>,
    last: &Item<'table, 'list>,
    items: &[Item<'table, 'list>],
) -> Result<Option<Vec<Item<'table, 'list>>>, NoMemory>
    ensures { IfOk result (λ r. items_of r ≡ spec.unless_left_open (macros_of level.now) (item_token first.now) (item_token last.now) (Some (map plain_item items.now))) }
{
    if ends_in_function(level.table, items) {
        return Ok(None);
    }
    Ok(Some(brought_items(level.alloc, items, first, last)?))
}

/// A list one level below; nothing where a call in it is refused, or no level is left.
#[cycle(lists)]
fn deeper<'table, 'list>(
    level: &Level<'table, 'list, '_>,
    items: &[Item<'table, 'list>],
) -> Result<Option<Vec<Item<'table, 'list>>>, NoMemory>
    ensures { IfOk result (λ r. items_of r ≡ deeper_in level.now (active_in level.now) (map plain_item items.now)) }
{
    if level.left == 0 {
        return Ok(None);
    }
    let inner = Level {
        alloc: level.alloc,
        table: level.table,
        active: level.active,
        left: level.left - 1,
    };
    match finished(&inner, items)? {
        Finished::Fine(items) => Ok(Some(items)),
        Finished::BadCall(_) => Ok(None),
    }
}

/// What a call from its first to its last token brings, whose body with its arguments is this.
#[cycle(lists)]
fn replacement<'table, 'list>(
    level: &Level<'table, 'list, '_>,
    first: &Item<'table, 'list>,
    last: &Item<'table, 'list>,
    body: &[Item<'table, 'list>],
) -> Result<Option<Vec<Item<'table, 'list>>>, NoMemory>
    ensures { IfOk result (λ r. items_of r ≡ spec.replacement (macros_of level.now) (deeper_in level.now) (active_in level.now) (item_token first.now) (item_token last.now) (map plain_item body.now)) }
{
    let names = with_name(level.alloc, first, level.active)?;
    let inner = Level {
        alloc: level.alloc,
        table: level.table,
        active: names.as_slice(),
        left: level.left,
    };
    match deeper(&inner, body)? {
        Some(items) => Ok(checked(level, first, last, items.as_slice())?),
        None => Ok(None),
    }
}

#[cycle(lists)]
fn arguments_replaced<'table, 'list>(
    level: &Level<'table, 'list, '_>,
    arguments: &[Vec<Item<'table, 'list>>],
) -> Result<Option<Vec<Vec<Item<'table, 'list>>>>, NoMemory>
    ensures { IfOk result (λ r. option_map (λ vs. map (λ v. map plain_item v.items) vs.items) r ≡ spec.all_replaced (deeper_in level.now) (active_in level.now) (map (λ v. map plain_item v.items) arguments.now)) }
{
    let mut replaced = Vec::with_capacity(level.alloc, arguments.len())?;
    for argument in arguments {
        match deeper(level, argument.as_slice())? {
            Some(items) => replaced.push(items)?,
            None => return Ok(None),
        }
    }
    Ok(Some(replaced))
}

/// What a call brings that ends with this token; nothing where it is refused.
#[cycle(lists)]
fn called<'table, 'list>(
    level: &Level<'table, 'list, '_>,
    call: Call<'table, 'list>,
    last: &Item<'table, 'list>,
) -> Result<Option<Vec<Item<'table, 'list>>>, NoMemory>
    ensures { IfOk result (λ r. items_of r ≡ spec.call_replacement (macros_of level.now) (deeper_in level.now) (active_in level.now) (plain_call call.entry) (item_token last.now)) }
{
    let (name, params, body) = (call.name, call.params, call.body);
    let arguments = call.all_arguments()?;
    if !fits(params, arguments.as_slice()) {
        return Ok(None);
    }
    match arguments_replaced(level, arguments.as_slice())? {
        Some(replaced) => {
            let items = substituted(level.alloc, params, replaced.as_slice(), body)?;
            Ok(replacement(level, &name, last, items.as_slice())?)
        }
        None => Ok(None),
    }
}

#[cycle(lists)]
fn inside_turn<'table, 'list>(
    level: &Level<'table, 'list, '_>,
    done: Vec<Item<'table, 'list>>,
    mut call: Call<'table, 'list>,
    item: &Item<'table, 'list>,
) -> Result<Run<'table, 'list>, NoMemory>
    ensures { IfOk result (λ run. (rest : List spec.Item) → reading (macros_of level.now) (deeper_in level.now) (active_in level.now) run rest ≡ spec.before (map plain_item done.entry.items) (spec.inside (macros_of level.now) (deeper_in level.now) (active_in level.now) (plain_call call.entry) (plain_item item.now ∷ rest))) }
{
    if call.is_closed_by(item) {
        let name = call.name;
        let given = called(level, call, item)?;
        Ok(with_call(done, name, given)?)
    } else {
        call.read(level.alloc, *item)?;
        Ok(Run::Inside(done, call))
    }
}

#[cycle(lists)]
fn object_turn<'table, 'list>(
    level: &Level<'table, 'list, '_>,
    done: Vec<Item<'table, 'list>>,
    item: &Item<'table, 'list>,
    body: &'table [Token],
) -> Result<Run<'table, 'list>, NoMemory>
    ensures { IfOk result (λ run. (rest : List spec.Item) → reading (macros_of level.now) (deeper_in level.now) (active_in level.now) run rest ≡ spec.before (map plain_item done.entry.items) (spec.treated (macros_of level.now) (deeper_in level.now) (active_in level.now) (plain_item item.now) (spec.is_object (map plain_token body.now)) (spec.outside (macros_of level.now) (deeper_in level.now) (active_in level.now) rest) (λ call. spec.inside (macros_of level.now) (deeper_in level.now) (active_in level.now) call rest))) }
{
    let items = fresh_items(level.alloc, body)?;
    let given = replacement(level, item, item, items.as_slice())?;
    Ok(with_call(done, *item, given)?)
}

/// Reads an item outside calls, by whether a `(` follows it.
#[cycle(lists)]
fn outside_turn<'table, 'list>(
    level: &Level<'table, 'list, '_>,
    done: Vec<Item<'table, 'list>>,
    item: &Item<'table, 'list>,
    opens: bool,
) -> Result<Run<'table, 'list>, NoMemory>
    ensures { IfOk result (λ run. (rest : List spec.Item) → spec.opens rest ≡ opens → reading (macros_of level.now) (deeper_in level.now) (active_in level.now) run rest ≡ spec.before (map plain_item done.entry.items) (spec.outside (macros_of level.now) (deeper_in level.now) (active_in level.now) (plain_item item.now ∷ rest))) }
{
    match kind_of(level, item, opens) {
        Kind::Stays(kept) => Ok(with_item(done, kept)?),
        Kind::Feature(one) => Ok(with_item(
            done,
            Item::fresh(Source::Body(one)).brought(item, item),
        )?),
        Kind::Object(body) => Ok(object_turn(level, done, item, body)?),
        Kind::Call { params, body } => Ok(Run::Inside(
            done,
            Call::begun(level.alloc, *item, params, body),
        )),
    }
}

/// Reads an item, by whether a `(` follows it.
#[cycle(lists)]
fn turn<'table, 'list>(
    level: &Level<'table, 'list, '_>,
    run: Run<'table, 'list>,
    item: &Item<'table, 'list>,
    opens: bool,
) -> Result<Run<'table, 'list>, NoMemory>
    ensures { IfOk result (λ next. (rest : List spec.Item) → spec.opens rest ≡ opens → reading (macros_of level.now) (deeper_in level.now) (active_in level.now) next rest ≡ reading (macros_of level.now) (deeper_in level.now) (active_in level.now) run.entry (plain_item item.now ∷ rest)) }
{
    match run {
        Run::Outside(done) => Ok(outside_turn(level, done, item, opens)?),
        Run::Inside(done, call) => Ok(inside_turn(level, done, call, item)?),
        Run::Refused(name) => Ok(Run::Refused(name)),
    }
}

/// What a list becomes.
#[cycle(lists)]
pub fn finished<'table, 'list>(
    level: &Level<'table, 'list, '_>,
    items: &[Item<'table, 'list>],
) -> Result<Finished<'table, 'list>, NoMemory>
    ensures { IfOk result (λ f. plain_finished f ≡ spec.outside (macros_of level.now) (deeper_in level.now) (active_in level.now) (map plain_item items.now)) }
{
    let mut run = Run::Outside(Vec::new(level.alloc));
    for (i, item) in items.iter().enumerate() {
        run = turn(level, run, item, opens_at(items, i + 1))?;
    }
    Ok(run.finished())
}
