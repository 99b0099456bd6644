//! Entries in pairs with the parts that they are for.
ghost use Rattle.std.specs.Prelude.{◌≡◌, ℕ, ◌∷◌, [], false, Bool, List, get_or, IsTrue, IfOk};
ghost use Rattle.cond_formula.specs.Features.{has};
ghost use Rattle.cond_formula.specs.Conditions.{condition_of, value};
ghost use Rattle.conditional.specs.Entries.{first, seen, under, listed};
ghost use Rattle.operand_rules.specs.PlainOperandTypes.{reason};
ghost use Rattle.cond_initialisers.specs.Rows.{row, rows, numbers, rows_in_pairs};

use crate::rows::{Row, refused_at};
use cond_formula::{Formula, NoMemory, Oracle};
use conditional::{CondList, Guarded, when_some_hold};
use matched_lists::{Longer, Matching, match_lists};
use operand_rules::Refused;
use std::alloc::Global;

/// An entry with the number of the type of its part.
#[derive(Clone, Copy)]
struct InPairs;

impl Matching<Row, u32, Refused> for InPairs {
    ghost First = { List Bool };

    ghost Second = { ℕ };

    ghost first = { λ _ c a p. row (has c) a ≡ p };

    ghost second = { λ _ c b q. b ≡ q };

    ghost answers = { λ _ c p q z. first (seen (has c) (listed reason z)) ≡ first (under (get_or p q false) (tt ∷ [])) };

    fn refusals<O: Oracle>(
        &self,
        alloc: Global,
        _oracle: &mut O,
        a: &Row,
        b: &u32,
    ) -> Result<CondList<Refused>, NoMemory> {
        let when = refused_at(alloc, a, *b)?;
        let mut all = CondList::empty(alloc);
        all.push(when, Refused)?;
        Ok(all)
    }
}

/// Where some entry is refused for its part, or has none.
pub(crate) fn where_some_pair<O: Oracle>(
    alloc: Global,
    oracle: &mut O,
    entries: &[Guarded<Row>],
    parts: &[Guarded<u32>],
) -> Result<Formula, NoMemory>
    ensures kept { O.admits oracle.new ≡ O.admits oracle.old }
    ensures same { IfOk result (λ f. (c : List Bool) → IsTrue (value (has c) (O.admits oracle.old))
        → value (has c) (condition_of f) ≡ rows_in_pairs (rows (has c) entries.now) (numbers (has c) parts.now)) }
{
    let longer = Longer {
        first: Some(Refused),
        second: None,
    };
    let refusals = match_lists(alloc, &InPairs, oracle, &longer, entries, parts)?;
    when_some_hold(alloc, &refusals.entries)
}
