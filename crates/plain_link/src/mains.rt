//! Whether a unit defines `main` (5.1.2.2.1).
ghost use Rattle.std.specs.Prelude.{◌≡◌, [], map};
ghost use Rattle.std.specs.List.{list_any};
ghost use Rattle.c_types.specs.Types.{plain_type, int};
ghost use Rattle.core_meaning.specs.Linking as spec;
ghost use Rattle.core_meaning.specs.Typing.{same_type};
ghost use Rattle.core_meaning.specs.UnitNames.{same_types};
ghost use Rattle.plain_scope.specs.PlainScope.{plain_sort};
ghost use Rattle.plain_link.specs.PlainUnits.{plain_unit};

use crate::left::Left;
use c_types::CType;
use plain_scope::Sort;

#[tactic(auto, using(c_types::specs::TypeLaws::type_kinds))]
fn is_int(ty: &CType) -> bool
    ensures { result ≡ same_type (plain_type ty.now) int }
{
    match ty {
        CType::Int => true,
        CType::Void
        | CType::Char
        | CType::UChar
        | CType::UInt
        | CType::Long
        | CType::ULong
        | CType::Pointer(_)
        | CType::Array(_, _)
        | CType::Struct(_) => false,
    }
}

fn is_none(types: &[CType]) -> bool
    ensures { result ≡ same_types (map plain_type types.now) [] }
{
    match types {
        [] => true,
        [_, ..] => false,
    }
}

fn is_main(sort: &Sort) -> bool
    ensures { result ≡ spec.is_main (plain_sort sort.now) }
{
    match sort {
        Sort::Function(f) => is_int(&f.result) && is_none(f.parameters.as_slice()),
        Sort::Variable(_) => false,
    }
}

fn defines_main(unit: &Left) -> bool
    ensures { result ≡ spec.defines_main (plain_unit 0 unit.now) }
{
    match unit.names.get(b"main".as_slice()) {
        Some(found) => !found.internal && is_main(&found.sort) && unit.defines(b"main"),
        None => false,
    }
}

pub fn has_main(units: &[Left]) -> bool
    ensures { result ≡ list_any spec.defines_main (map (plain_unit 0) units.now) }
{
    for unit in units {
        if defines_main(unit) {
            return true;
        }
    }
    false
}
