//! Trees in which each token is changed by a rule.

ghost use Rattle.std.specs.Prelude.{◌≡◌, ℕ, IfOk};
ghost use Rattle.c_text.specs.Token.{PlainToken, plain_token};
ghost use Rattle.choice_trees.specs.ChoiceTrees.{plain_item, plain_branches, plain_choices};
ghost use Rattle.changed_forests.specs.Changed.{changed_item, changed_branches, changed_choices, IsChanged};

use c_text::Token;
use choice_trees::{Choice, Forest, Item};
use cond_formula::NoMemory;
use std::alloc::Global;

/// A rule by which tokens are changed.
pub trait TokenChange {
    /// What a token becomes that has a number in the unit's stream.
    ghost change: { Self → ℕ → PlainToken → PlainToken };

    /// The token with this number, changed.
    fn token(&self, alloc: Global, number: u32, token: &Token) -> Result<Token, NoMemory>
        ensures { IfOk result (λ t. plain_token t ≡ change self.now number (plain_token token.now)) };
}

#[cycle(change)]
#[tactic(auto, using(choice_trees::specs::ItemLaws::item_kinds))]
fn changed_item_of<C: TokenChange>(alloc: Global, rule: &C, item: &Item) -> Result<Item, NoMemory>
    ensures { IfOk result (λ new. plain_item new ≡ changed_item (C.change rule.now) (plain_item item.now)) }
{
    match item {
        Item::Leaf(number, token) => Ok(Item::Leaf(*number, rule.token(alloc, *number, token)?)),
        Item::Node(kind, parts) => Ok(Item::Node(*kind, changed_parts(alloc, rule, parts)?)),
    }
}

#[cycle(change)]
fn changed_choice<C: TokenChange>(
    alloc: Global,
    rule: &C,
    choice: &Choice<Item>,
) -> Result<Choice<Item>, NoMemory>
    ensures { IfOk result (λ new. plain_branches new.branches.items ≡ changed_branches (C.change rule.now) (plain_branches choice.now.branches.items)) }
{
    let mut branches = Vec::with_capacity(alloc, choice.branches.len())?;
    for (when, item) in &choice.branches {
        let when = when.try_clone(alloc)?;
        let item = changed_item_of(alloc, rule, item)?;
        branches.push((when, item))?;
    }
    Ok(Choice { branches })
}

#[cycle(change)]
fn changed_parts<C: TokenChange>(
    alloc: Global,
    rule: &C,
    parts: &[Choice<Item>],
) -> Result<Vec<Choice<Item>>, NoMemory>
    ensures { IfOk result (λ new. plain_choices new.items ≡ changed_choices (C.change rule.now) (plain_choices parts.now)) }
{
    let mut all = Vec::with_capacity(alloc, parts.len())?;
    for part in parts {
        let part = changed_choice(alloc, rule, part)?;
        all.push(part)?;
    }
    Ok(all)
}

/// The same trees with each token changed by the rule.
pub fn changed<C: TokenChange>(alloc: Global, rule: &C, forest: &Forest) -> Result<Forest, NoMemory>
    ensures { IfOk result (IsChanged (C.change rule.now) forest.now) }
{
    let items = changed_parts(alloc, rule, &forest.items)?;
    Ok(Forest { items })
}
