//! Identifiers of units in pairs with what declares them, as ties of tokens of files.

ghost use Rattle.std.specs.Prelude.{◌≡◌, ◌++◌, List, Bool, map, flat_map, IfOk, OnOk};
ghost use Rattle.cond_formula.specs.Features.{has};
ghost use Rattle.cond_pairings.specs.Pairs.{one_seen, pairs_seen};
ghost use Rattle.tied_tokens.specs.Ties.{plain_tie};
ghost use Rattle.told_ties.specs.Ties.{tied_seen, tied_by, tied_in};
ghost use Rattle.project_ties.specs.Tied.{IsOwn, TiesBelow};

use crate::conditions::own_condition;
use crate::tokens::file_token;
use cond_formula::{NoMemory, Oracle};
use cond_pairings::CondPairing;
use cond_tokens::{CondStream, CondToken};
use std::alloc::Global;
use tied_tokens::Tie;
use told_occurrences::ToldUnit;

/// The tie of a pair, if the stream has both tokens.
fn push_tie<O: Oracle>(
    alloc: Global,
    oracle: &mut O,
    features: usize,
    tokens: &[CondToken],
    pair: &CondPairing,
    ties: &mut Vec<Tie>,
) -> Result<(), NoMemory>
    ensures kept { O.admits oracle.new ≡ O.admits oracle.old }
    ensures below { OnOk result (TiesBelow features ties.old.items → TiesBelow features ties.new.items) }
    ensures tied { OnOk result ((c : List Bool) → IsOwn features (O.admits oracle.old) c → tied_seen (has c) (map plain_tie ties.new.items)
        ≡ tied_seen (has c) (map plain_tie ties.old.items) ++ flat_map (tied_by tokens.now) (one_seen (has c) pair.now)) }
{
    let Some(identifier) = file_token(tokens, pair.identifier) else {
        return Ok(());
    };
    let Some(declared_by) = file_token(tokens, pair.declared_by) else {
        return Ok(());
    };
    let when = own_condition(alloc, oracle, features, &pair.when)?;
    ties.push(Tie {
        identifier,
        declared_by,
        when,
    })?;
    Ok(())
}

/// The ties of a unit's pairs.
fn push_ties<O: Oracle>(
    alloc: Global,
    oracle: &mut O,
    features: usize,
    tokens: &[CondToken],
    pairs: &[CondPairing],
    ties: &mut Vec<Tie>,
) -> Result<(), NoMemory>
    ensures kept { O.admits oracle.new ≡ O.admits oracle.old }
    ensures below { OnOk result (TiesBelow features ties.old.items → TiesBelow features ties.new.items) }
    ensures tied { OnOk result ((c : List Bool) → IsOwn features (O.admits oracle.old) c → tied_seen (has c) (map plain_tie ties.new.items)
        ≡ tied_seen (has c) (map plain_tie ties.old.items) ++ flat_map (tied_by tokens.now) (pairs_seen (has c) pairs.now)) }
{
    for pair in pairs {
        push_tie(alloc, oracle, features, tokens, pair, ties)?;
    }
    Ok(())
}

/// Those of one unit.
fn push_unit<O: Oracle>(
    alloc: Global,
    oracle: &mut O,
    features: usize,
    stream: &CondStream,
    told: &ToldUnit,
    ties: &mut Vec<Tie>,
) -> Result<(), NoMemory>
    ensures kept { O.admits oracle.new ≡ O.admits oracle.old }
    ensures below { OnOk result (TiesBelow features ties.old.items → TiesBelow features ties.new.items) }
    ensures tied { OnOk result ((c : List Bool) → IsOwn features (O.admits oracle.old) c → tied_seen (has c) (map plain_tie ties.new.items)
        ≡ tied_seen (has c) (map plain_tie ties.old.items) ++ flat_map (tied_by stream.now.tokens.items) (pairs_seen (has c) told.now.pairs.items)) }
{
    push_ties(alloc, oracle, features, &stream.tokens, &told.pairs, ties)?;
    Ok(())
}

/// The ties of all units, of each that has a stream and is told of: in a configuration that is admitted and has none but so many features, just
/// the pairs that it sees.
pub fn ties_of_units<O: Oracle>(
    alloc: Global,
    oracle: &mut O,
    features: usize,
    streams: &[CondStream],
    told: &[ToldUnit],
) -> Result<Vec<Tie>, NoMemory>
    ensures kept { O.admits oracle.new ≡ O.admits oracle.old }
    ensures below { IfOk result (λ ties. TiesBelow features ties.items) }
    ensures tied { IfOk result (λ ties. (c : List Bool) → IsOwn features (O.admits oracle.old) c → tied_seen (has c) (map plain_tie ties.items) ≡ tied_in (has c) streams.now told.now) }
{
    let mut ties = Vec::new(alloc);
    let count = streams.len().min(told.len());
    for i in 0..count {
        push_unit(alloc, oracle, features, &streams[i], &told[i], &mut ties)?;
    }
    Ok(ties)
}
