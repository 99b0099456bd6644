//! How large objects are, up to the limit.
ghost use Rattle.std.specs.Prelude.{◌≡◌, ◌+◌, ◌*◌, slice_get};
ghost use Rattle.c_types.specs.Types.{plain_type};
ghost use Rattle.core_meaning.specs.Constancy as spec;
ghost use Rattle.plain_scope.specs.PlainScope.{plain_scope};

use c_types::CType;
use plain_scope::Scope;

/// The most scalars that an object may have, which is this project's own limit.
pub const MOST_SCALARS: u64 = 16_777_216;

/// A product of counts; those beyond the limit are all the same.
fn product(a: u64, b: u64) -> u64
    ensures { result ≡ spec.capped (a * b) }
{
    a.saturating_mul(b).min(MOST_SCALARS + 1)
}

/// A sum of counts; those beyond the limit are all the same.
fn sum(a: u64, b: u64) -> u64
    ensures { result ≡ spec.capped (a + b) }
{
    a.saturating_add(b).min(MOST_SCALARS + 1)
}

fn in_struct(scope: &Scope, number: u32) -> u64
    ensures { result ≡ spec.scalars_of (slice_get (plain_scope scope.now).structs number) }
{
    match scope.struct_of(number) {
        Some(found) => found.scalars,
        None => 0,
    }
}

/// How many scalars an object of a type has.
#[tactic(auto, using(c_types::specs::TypeLaws::type_kinds))]
fn scalars(scope: &Scope, ty: &CType) -> u64
    ensures { result ≡ spec.scalars_in (plain_scope scope.now).structs (plain_type ty.now) }
{
    match ty {
        CType::Array(element, count) => product(u64::from(*count), scalars(scope, element)),
        CType::Struct(number) => in_struct(scope, *number),
        CType::Void
        | CType::Char
        | CType::UChar
        | CType::Int
        | CType::UInt
        | CType::Long
        | CType::ULong
        | CType::Pointer(_) => 1,
    }
}

/// So many scalars, and those of one more part.
pub fn scalars_with(scope: &Scope, so_far: u64, ty: &CType) -> u64
    ensures { result ≡ spec.scalars_with (plain_scope scope.now).structs so_far (plain_type ty.now) }
{
    sum(so_far, scalars(scope, ty))
}

/// Whether an object of a type is small enough.
pub fn is_small(scope: &Scope, ty: &CType) -> bool
    ensures { result ≡ spec.is_small (plain_scope scope.now).structs (plain_type ty.now) }
{
    scalars(scope, ty) <= MOST_SCALARS
}
