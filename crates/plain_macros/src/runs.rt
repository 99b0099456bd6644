//! Lists while they are replaced, from left to right.
ghost use Rattle.std.specs.Prelude.{◌≡◌, ℕ, [], ◌∷◌, List, map, IfOk};
ghost use Rattle.c_text.specs.Macros as spec;
ghost use Rattle.plain_macros.specs.PlainItems.{plain_item, item_token};
ghost use Rattle.plain_macros.specs.PlainRuns.{plain_finished, reading, items_of};

use crate::calls::Call;
use crate::items::Item;
use cond_formula::NoMemory;

/// A list up to one of its items.
#[derive(Drop)]
pub enum Run<'table, 'list> {
    /// What the items gave.
    Outside(Vec<Item<'table, 'list>>),
    /// The same, and a call that isn't closed yet.
    Inside(Vec<Item<'table, 'list>>, Call<'table, 'list>),
    /// A call with this name is refused.
    Refused(Item<'table, 'list>),
}

/// What a list becomes.
#[derive(Drop)]
pub enum Finished<'table, 'list> {
    Fine(Vec<Item<'table, 'list>>),
    BadCall(Item<'table, 'list>),
}

impl<'table, 'list> Run<'table, 'list> {
    /// What the list becomes, where it has no more items.
    #[tactic(auto, unfolding(crate::specs::PlainCalls::plain_call))]
    pub fn finished(self) -> Finished<'table, 'list>
        ensures { (table : spec.Table) (deeper : spec.Deeper) (active : List (List ℕ)) → plain_finished result ≡ reading table deeper active self.entry [] }
    {
        match self {
            Run::Outside(done) => Finished::Fine(done),
            Run::Inside(_, call) => Finished::BadCall(call.name),
            Run::Refused(name) => Finished::BadCall(name),
        }
    }
}

/// Outside calls, with one item more.
pub fn with_item<'table, 'list>(
    mut done: Vec<Item<'table, 'list>>,
    item: Item<'table, 'list>,
) -> Result<Run<'table, 'list>, NoMemory>
    ensures { IfOk result (λ run. (table : spec.Table) (deeper : spec.Deeper) (active : List (List ℕ)) (rest : List spec.Item) → reading table deeper active run rest ≡ spec.before (map plain_item done.entry.items) (spec.before (plain_item item.entry ∷ []) (spec.outside table deeper active rest))) }
{
    done.push(item)?;
    Ok(Run::Outside(done))
}

/// Outside calls, behind what a call with this name gave; if it gave nothing, it is refused.
pub fn with_call<'table, 'list>(
    mut done: Vec<Item<'table, 'list>>,
    name: Item<'table, 'list>,
    given: Option<Vec<Item<'table, 'list>>>,
) -> Result<Run<'table, 'list>, NoMemory>
    ensures { IfOk result (λ run. (table : spec.Table) (deeper : spec.Deeper) (active : List (List ℕ)) (rest : List spec.Item) → reading table deeper active run rest ≡ spec.before (map plain_item done.entry.items) (spec.call_then (item_token name.entry) (items_of given.entry) (spec.outside table deeper active rest))) }
{
    match given {
        None => Ok(Run::Refused(name)),
        Some(items) => {
            done.extend_from_slice(items.as_slice())?;
            Ok(Run::Outside(done))
        }
    }
}
