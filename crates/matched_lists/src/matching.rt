//! What is done with the entries of two lists.
ghost use Rattle.std.specs.Prelude.{◌≡◌, Bool, List, IsTrue, IfOk};
ghost use Rattle.cond_formula.specs.Features.{has};
ghost use Rattle.cond_formula.specs.Conditions.{value};
ghost use Rattle.conditional.specs.declared.lists.CondList.{CondList};

use cond_formula::{NoMemory, Oracle};
use conditional::{CondList, Plain};
use std::alloc::Global;

/// How a pair of entries is matched. An entry is a value that may be conditional itself: in a configuration it is something of another type, for
/// the definitions.
pub trait Matching<A, B, R: Plain> {
    ghost First: { Type 0 };

    ghost Second: { Type 0 };

    /// What an entry of the first list is in a configuration.
    ghost first: { Self → List Bool → A → First → Type 0 };

    /// What an entry of the second list is there.
    ghost second: { Self → List Bool → B → Second → Type 0 };

    /// What may be answered for two entries that are these.
    ghost answers: { Self → List Bool → First → Second → CondList R → Type 0 };

    /// Why the pair is refused, where it is.
    fn refusals<O: Oracle>(
        &self,
        alloc: Global,
        oracle: &mut O,
        a: &A,
        b: &B,
    ) -> Result<CondList<R>, NoMemory>
        ensures kept { O.admits oracle.new ≡ O.admits oracle.old }
        ensures answers { IfOk result (λ z. (c : List Bool) (p : First) (q : Second) → IsTrue (value (has c) (O.admits oracle.old))
            → first self.now c a.now p → second self.now c b.now q → answers self.now c p q z) };
}

/// Why a list is refused that is longer than the other, if it is.
#[derive(Drop)]
pub struct Longer<R> {
    pub first: Option<R>,
    pub second: Option<R>,
}
