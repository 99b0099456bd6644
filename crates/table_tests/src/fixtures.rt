use c_types::CType;
use cond_formula::{Config, Formula, NoMemory};
use cond_operands::Operands;
use cond_sums::CondSum;
use conditional::{CondList, CondValue};
use operand_rules::OperandType;
use plain_scope::same_type;
use std::alloc::Global;
use type_tables::{CondSignature, DeclaredType, FileName, Member, Sort, Tables};

/// The features of the configurations, as bits.
pub(crate) const NONE: u128 = 0;

pub(crate) const A: u128 = 1;

pub(crate) const B: u128 = 2;

pub(crate) const A_AND_B: u128 = 3;

pub(crate) fn where_a() -> Formula {
    Formula::Var(0)
}

pub(crate) fn where_b() -> Formula {
    Formula::Var(1)
}

/// What is in a configuration.
pub(crate) fn value_at<T>(all: &CondValue<T>, bits: u128) -> Option<&T> {
    for alternative in &all.alternatives {
        if alternative.when.value(Config { bits }) {
            return Some(&alternative.what);
        }
    }
    None
}

/// The operand in a configuration, unless it is refused there.
pub(crate) fn operand_at(all: &Operands, bits: u128) -> Option<&OperandType> {
    for refusal in &all.refused.entries {
        if refusal.when.value(Config { bits }) {
            return None;
        }
    }
    value_at(&all.fine, bits)
}

/// Whether there is an operand of this type.
pub(crate) fn is_of(operand: Option<&OperandType>, ty: &CType) -> bool {
    match operand {
        Some(o) => same_type(&o.ty, ty),
        None => false,
    }
}

pub(crate) fn pointer_to(alloc: Global, ty: CType) -> Result<CType, NoMemory> {
    Ok(CType::Pointer(Box::new(alloc, ty)?))
}

fn member(alloc: Global, name: &[u8], ty: CType) -> Result<Member, NoMemory> {
    let name = Vec::from_slice(alloc, name)?;
    Ok(Member { name, ty })
}

/// `char m;` with B and `int m;` without.
fn members(alloc: Global) -> Result<CondList<Member>, NoMemory> {
    let mut all = CondList::empty(alloc);
    all.push(where_b(), member(alloc, b"m", CType::Char)?)?;
    let elsewhere = Formula::not(alloc, where_b())?;
    all.push(elsewhere, member(alloc, b"m", CType::Int)?)?;
    Ok(all)
}

/// `struct s;`, which has its members with A, and with B `struct t;`.
fn declare_structs(alloc: Global, tables: &mut Tables) -> Result<(), NoMemory> {
    let number = tables.declare_struct(alloc, b"s", Formula::True)?;
    let scalars = CondSum::number(alloc, 1)?;
    tables.complete_struct(alloc, number, where_a(), &members(alloc)?, &scalars)?;
    tables.declare_struct(alloc, b"t", where_b())?;
    Ok(())
}

/// `int f(int)`, with A `int f(int, char *)`.
fn signature(alloc: Global) -> Result<CondSignature, NoMemory> {
    let mut parameters = CondList::empty(alloc);
    parameters.push(Formula::True, DeclaredType { ty: CType::Int })?;
    let ty = pointer_to(alloc, CType::Char)?;
    parameters.push(where_a(), DeclaredType { ty })?;
    Ok(CondSignature {
        result: CType::Int,
        parameters,
    })
}

fn declare(
    alloc: Global,
    tables: &mut Tables,
    name: &[u8],
    when: Formula,
    sort: Sort,
) -> Result<(), NoMemory> {
    let what = FileName {
        sort,
        internal: false,
    };
    tables.declare_name(alloc, name, when, what)
}

/// With A `int x;`, without `long x;`, and `struct s s;` and `int f(..);`.
pub(crate) fn tables(alloc: Global) -> Result<Tables, NoMemory> {
    let mut tables = Tables::new(alloc);
    declare_structs(alloc, &mut tables)?;
    declare(
        alloc,
        &mut tables,
        b"x",
        where_a(),
        Sort::Object(CType::Int),
    )?;
    declare(
        alloc,
        &mut tables,
        b"x",
        Formula::True,
        Sort::Object(CType::Long),
    )?;
    declare(
        alloc,
        &mut tables,
        b"s",
        Formula::True,
        Sort::Object(CType::Struct(0)),
    )?;
    let number = tables.declare_function(signature(alloc)?)?;
    declare(
        alloc,
        &mut tables,
        b"f",
        Formula::True,
        Sort::Function(number),
    )?;
    Ok(tables)
}
