//! Tokens that are reached along ties, where the first feature is on or off.
ghost use Rattle.std.specs.Prelude.{◌<◌, All, IfOk};
ghost use Rattle.cond_formula.specs.Conditions.{condition_of, VarsBelow};
ghost use Rattle.feature_model.specs.ModelView.{admitted};
ghost use Rattle.tied_tokens.specs.Ties.{plain_tied_tokens, NamesFeaturesBelow};

use c_text::FileToken;
use cond_formula::{Formula, NoMemory};
use feature_model::Model;
use std::alloc::{AllocError, Global};
use text_edits::Span;
use tied_tokens::{CommonName, DeclaredName, Tie, TiedTokens, class_of_ties, occurs_somewhere};

/// In all configurations, or in those in which the feature is on, or in the others.
#[derive(Clone, Copy)]
enum When {
    Always,
    On,
    Off,
}

/// A token, by its file and its byte there.
#[derive(Clone, Copy)]
struct At(u8, u8);

#[derive(Clone, Copy)]
struct TieRow(At, At, When);

#[derive(Clone, Copy)]
struct NameRow(At, Name, When);

#[derive(Clone, Copy)]
enum Name {
    Fuel,
    Spare,
    FuelTag,
}

fn token(at: At) -> FileToken {
    let start = at.1 as u32;
    FileToken {
        file: at.0 as u32,
        span: Span {
            start,
            end: start + 1,
        },
    }
}

fn formula(alloc: Global, when: When) -> Result<Formula, NoMemory>
    ensures { IfOk result (λ f. VarsBelow 128 (condition_of f)) }
{
    match when {
        When::Always => Ok(Formula::True),
        When::On => Ok(Formula::Var(0)),
        When::Off => Formula::not(alloc, Formula::Var(0)),
    }
}

fn common_name(alloc: Global, name: Name) -> Result<CommonName, NoMemory> {
    match name {
        Name::Fuel => Ok(CommonName::External(Vec::from_slice(alloc, b"fuel")?)),
        Name::Spare => Ok(CommonName::External(Vec::from_slice(alloc, b"spare")?)),
        Name::FuelTag => Ok(CommonName::Tag(Vec::from_slice(alloc, b"fuel")?)),
    }
}

fn ties_of(alloc: Global, rows: &[TieRow]) -> Result<Vec<Tie>, NoMemory>
    ensures { IfOk result (λ ties. All (λ t. VarsBelow 128 (condition_of t.when)) ties.items) }
{
    let mut ties = Vec::new(alloc);
    for row in rows {
        let when = formula(alloc, row.2)?;
        ties.push(Tie {
            identifier: token(row.0),
            declared_by: token(row.1),
            when,
        })?;
    }
    Ok(ties)
}

fn names_of(alloc: Global, rows: &[NameRow]) -> Result<Vec<DeclaredName>, NoMemory>
    ensures { IfOk result (λ names. All (λ n. VarsBelow 128 (condition_of n.when)) names.items) }
{
    let mut names = Vec::new(alloc);
    for row in rows {
        let when = formula(alloc, row.2)?;
        let declares = common_name(alloc, row.1)?;
        names.push(DeclaredName {
            token: token(row.0),
            name: declares,
            when,
        })?;
    }
    Ok(names)
}

fn class_text(alloc: Global, all: &TiedTokens<'_>, place: At) -> Result<String, AllocError>
    requires { NamesFeaturesBelow 128 (plain_tied_tokens all.now) }
{
    let mut text = String::new(alloc);
    for member in &class_of_ties(alloc, all, &token(place))? {
        text.push_str(&format!(in alloc; " {}:{}", member.file, member.span.start)?)?;
    }
    if !occurs_somewhere(alloc, all, &token(place))? {
        text.push_str(", which doesn't occur")?;
    }
    Ok(text)
}

/// What is reached from each of these places.
fn show_places<R: Print + AllocGlobal>(
    rt: &R,
    title: &str,
    all: &TiedTokens<'_>,
    places: &[At],
) -> anyhow::Result<()>
    requires { NamesFeaturesBelow 128 (plain_tied_tokens all.now) }
{
    for place in places {
        let class = class_text(rt.alloc(), all, *place)?;
        println!(rt; "{title} from {}:{}:{class}", place.0, place.1)?;
    }
    Ok(())
}

/// What is reached from places, where the constraint admits a configuration and it is accepted.
#[derive(Clone, Copy)]
struct Case<'a> {
    constraint: &'a str,
    accepted: When,
    ties: &'a [TieRow],
    names: &'a [NameRow],
}

fn show<R: Print + AllocGlobal>(
    rt: &R,
    title: &str,
    case: &Case<'_>,
    places: &[At],
) -> anyhow::Result<()> {
    let alloc: Global = rt.alloc();
    let features = vec![in alloc; String::from_str(alloc, "WIDE")?]?;
    let constraints = vec![in alloc; String::from_str(alloc, case.constraint)?]?;
    let model = Model::parse(alloc, &features, &constraints)?;
    let accepted = formula(alloc, case.accepted)?;
    let ties = ties_of(alloc, case.ties)?;
    let names = names_of(alloc, case.names)?;
    let all = TiedTokens {
        model: &model,
        accepted: &accepted,
        ties: &ties,
        names: &names,
    };
    show_places(rt, title, &all, places)
}

/// A use that is bound to one declaration where the feature is on, and to another where it's off.
const ALTERNATIVES: [TieRow; 4] = [
    TieRow(At(0, 10), At(0, 10), When::On),
    TieRow(At(0, 20), At(0, 20), When::Off),
    TieRow(At(0, 30), At(0, 10), When::On),
    TieRow(At(0, 30), At(0, 20), When::Off),
];

/// Three units that declare one name, the first two never together; and what has another name, or is another kind of thing.
const NAMES: [NameRow; 5] = [
    NameRow(At(2, 5), Name::Fuel, When::Always),
    NameRow(At(1, 5), Name::Fuel, When::Off),
    NameRow(At(0, 5), Name::Fuel, When::On),
    NameRow(At(3, 5), Name::Spare, When::Always),
    NameRow(At(3, 9), Name::FuelTag, When::Always),
];

fn show_ties<R: Print + AllocGlobal>(rt: &R) -> anyhow::Result<()> {
    let alternatives = Case {
        constraint: "WIDE || !WIDE",
        accepted: When::Always,
        ties: &ALTERNATIVES,
        names: &[],
    };
    show(
        rt,
        "alternatives",
        &alternatives,
        &[At(0, 10), At(0, 20), At(0, 30), At(0, 40)],
    )?;
    let admitted = Case {
        constraint: "WIDE",
        accepted: When::Always,
        ties: &ALTERNATIVES,
        names: &[],
    };
    show(rt, "one admitted", &admitted, &[At(0, 20), At(0, 30)])?;
    let accepted = Case {
        constraint: "WIDE || !WIDE",
        accepted: When::Off,
        ties: &ALTERNATIVES,
        names: &[],
    };
    show(rt, "one accepted", &accepted, &[At(0, 10), At(0, 30)])
}

fn show_names<R: Print + AllocGlobal>(rt: &R) -> anyhow::Result<()> {
    let three = Case {
        constraint: "WIDE || !WIDE",
        accepted: When::Always,
        ties: &[],
        names: &NAMES,
    };
    show(rt, "three units", &three, &[At(0, 5), At(3, 9)])?;
    let two = Case {
        constraint: "WIDE || !WIDE",
        accepted: When::Always,
        ties: &[],
        names: &NAMES[1..],
    };
    show(rt, "never together", &two, &[At(0, 5), At(3, 5)])
}

pub(crate) fn show_classes<R: Print + AllocGlobal>(rt: &R) -> anyhow::Result<()> {
    show_ties(rt)?;
    show_names(rt)
}
