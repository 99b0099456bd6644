//! Names that the identifiers of units declare, with the tokens of files.

ghost use Rattle.std.specs.Prelude.{◌≡◌, ◌++◌, ◌∷◌, [], List, Bool, map, flat_map, IfOk, OnOk};
ghost use Rattle.cond_formula.specs.Features.{has};
ghost use Rattle.tied_tokens.specs.Ties.{plain_common_name, plain_declared_name};
ghost use Rattle.told_occurrences.specs.Units.{names_seen};
ghost use Rattle.told_ties.specs.Ties.{named_seen, named_by, named_in};
ghost use Rattle.project_ties.specs.Tied.{IsOwn, NamesBelow};

use crate::conditions::own_condition;
use crate::tokens::file_token;
use cond_formula::{NoMemory, Oracle};
use cond_tokens::{CondStream, CondToken};
use std::alloc::Global;
use tied_tokens::{CommonName, DeclaredName};
use told_occurrences::{ToldName, ToldUnit};

/// The same name.
fn copied_name(alloc: Global, name: &CommonName) -> Result<CommonName, NoMemory>
    ensures { IfOk result (λ copy. plain_common_name copy ≡ plain_common_name name.now) }
{
    match name {
        CommonName::External(text) => Ok(CommonName::External(Vec::from_slice(alloc, text)?)),
        CommonName::Tag(text) => Ok(CommonName::Tag(Vec::from_slice(alloc, text)?)),
        CommonName::Member(of, text) => {
            let of = Vec::from_slice(alloc, of)?;
            let text = Vec::from_slice(alloc, text)?;
            Ok(CommonName::Member(of, text))
        }
    }
}

/// The name that an identifier declares, if the stream has its token.
fn push_name<O: Oracle>(
    alloc: Global,
    oracle: &mut O,
    features: usize,
    tokens: &[CondToken],
    told: &ToldName,
    names: &mut Vec<DeclaredName>,
) -> Result<(), NoMemory>
    ensures kept { O.admits oracle.new ≡ O.admits oracle.old }
    ensures below { OnOk result (NamesBelow features names.old.items → NamesBelow features names.new.items) }
    ensures named { OnOk result ((c : List Bool) → IsOwn features (O.admits oracle.old) c → named_seen (has c) (map plain_declared_name names.new.items)
        ≡ named_seen (has c) (map plain_declared_name names.old.items) ++ flat_map (named_by tokens.now) (names_seen (has c) (told.now ∷ []))) }
{
    let Some(token) = file_token(tokens, told.number) else {
        return Ok(());
    };
    let name = copied_name(alloc, &told.name)?;
    let when = own_condition(alloc, oracle, features, &told.when)?;
    names.push(DeclaredName { token, name, when })?;
    Ok(())
}

/// The names that the identifiers of a unit declare.
fn push_names<O: Oracle>(
    alloc: Global,
    oracle: &mut O,
    features: usize,
    tokens: &[CondToken],
    told: &[ToldName],
    names: &mut Vec<DeclaredName>,
) -> Result<(), NoMemory>
    ensures kept { O.admits oracle.new ≡ O.admits oracle.old }
    ensures below { OnOk result (NamesBelow features names.old.items → NamesBelow features names.new.items) }
    ensures named { OnOk result ((c : List Bool) → IsOwn features (O.admits oracle.old) c → named_seen (has c) (map plain_declared_name names.new.items)
        ≡ named_seen (has c) (map plain_declared_name names.old.items) ++ flat_map (named_by tokens.now) (names_seen (has c) told.now)) }
{
    for one in told {
        push_name(alloc, oracle, features, tokens, one, names)?;
    }
    Ok(())
}

/// Those of one unit.
fn push_unit<O: Oracle>(
    alloc: Global,
    oracle: &mut O,
    features: usize,
    stream: &CondStream,
    told: &ToldUnit,
    names: &mut Vec<DeclaredName>,
) -> Result<(), NoMemory>
    ensures kept { O.admits oracle.new ≡ O.admits oracle.old }
    ensures below { OnOk result (NamesBelow features names.old.items → NamesBelow features names.new.items) }
    ensures named { OnOk result ((c : List Bool) → IsOwn features (O.admits oracle.old) c → named_seen (has c) (map plain_declared_name names.new.items)
        ≡ named_seen (has c) (map plain_declared_name names.old.items) ++ flat_map (named_by stream.now.tokens.items) (names_seen (has c) told.now.names.items)) }
{
    push_names(alloc, oracle, features, &stream.tokens, &told.names, names)?;
    Ok(())
}

/// The names that the identifiers of all units declare, of each unit that has a stream and is told of: in a configuration that is admitted and
/// has none but so many features, just the names that it sees.
pub fn names_of_units<O: Oracle>(
    alloc: Global,
    oracle: &mut O,
    features: usize,
    streams: &[CondStream],
    told: &[ToldUnit],
) -> Result<Vec<DeclaredName>, NoMemory>
    ensures kept { O.admits oracle.new ≡ O.admits oracle.old }
    ensures below { IfOk result (λ names. NamesBelow features names.items) }
    ensures named { IfOk result (λ names. (c : List Bool) → IsOwn features (O.admits oracle.old) c
        → named_seen (has c) (map plain_declared_name names.items) ≡ named_in (has c) streams.now told.now) }
{
    let mut names = Vec::new(alloc);
    let count = streams.len().min(told.len());
    for i in 0..count {
        push_unit(alloc, oracle, features, &streams[i], &told[i], &mut names)?;
    }
    Ok(names)
}
