//! What the tables hold.
ghost use Rattle.std.specs.Prelude.{◌≡◌, IsTrue};
ghost use Rattle.c_types.specs.Types.{PlainType, plain_type};
ghost use Rattle.c_types.specs.Tags.{PlainMember};
ghost use Rattle.type_tables.specs.Tables as plain;
ghost use Rattle.type_tables.specs.Forms.{member_form, declared_type_form, sort_form, file_name_form};

use c_types::CType;
use cond_formula::{Formula, NoMemory};
use cond_sums::CondSum;
use conditional::{CondList, Plain};
use plain_scope::{copied, same_type};
use std::alloc::Global;

/// A member of a struct (6.7.2.1).
#[derive(Drop)]
pub struct Member {
    pub name: Vec<u8>,
    pub ty: CType,
}

impl Plain for Member {
    ghost Form = { PlainMember };

    ghost form = { member_form };

    fn is_same(&self, other: &Member) -> bool {
        if !is_equal_type(&self.ty, &other.ty) {
            return false;
        }
        self.name == other.name
    }

    fn try_clone(&self, alloc: Global) -> Result<Member, NoMemory> {
        let name = Vec::from_slice(alloc, &self.name)?;
        let ty = copied(alloc, &self.ty)?;
        Ok(Member { name, ty })
    }
}

/// A struct of a unit in all configurations: a unit has at most one of a tag in each.
#[derive(Drop)]
pub struct CondStruct {
    pub tag: Vec<u8>,
    pub declared: Formula,
    pub complete: Formula,
    /// In the order of the text.
    pub members: CondList<Member>,
    /// How many scalars it has, up to the limit on the size of an object.
    pub scalars: CondSum,
}

/// The type that a declaration gives: of a parameter, of an object, or of what a function returns.
#[derive(Drop)]
pub struct DeclaredType {
    pub ty: CType,
}

impl Plain for DeclaredType {
    ghost Form = { PlainType };

    ghost form = { declared_type_form };

    fn is_same(&self, other: &DeclaredType) -> bool {
        is_equal_type(&self.ty, &other.ty)
    }

    fn try_clone(&self, alloc: Global) -> Result<DeclaredType, NoMemory> {
        let ty = copied(alloc, &self.ty)?;
        Ok(DeclaredType { ty })
    }
}

/// A declaration of a function, whose parameters may be there or not.
#[derive(Drop)]
pub struct CondSignature {
    pub result: CType,
    pub parameters: CondList<DeclaredType>,
}

impl CondSignature {
    ghost use Rattle.std.specs.Prelude.{ℕ, Bool, Some};
    ghost use Rattle.type_tables.specs.Tables.{no_signature};
    ghost use Rattle.type_tables.specs.Seen.{signature_of};

    /// A declaration that is none.
    #[tactic(auto, using(c_types::specs::TypeLaws::type_kinds))]
    pub fn none(alloc: Global) -> CondSignature
        ensures { (on : ℕ → Bool) → signature_of on (Some result) ≡ no_signature }
    {
        CondSignature {
            result: CType::Void,
            parameters: CondList::empty(alloc),
        }
    }
}

/// What a name of file scope stands for.
#[derive(Drop)]
pub enum Sort {
    Object(CType),
    /// The function that the declaration with this number declares.
    Function(u32),
}

/// A name of file scope.
#[derive(Drop)]
pub struct FileName {
    pub sort: Sort,
    /// It has internal linkage (6.2.2).
    pub internal: bool,
}

#[tactic(auto, using(plain_scope::proofs::SameTypes::same_is))]
fn is_equal_type(ty: &CType, other: &CType) -> bool
    ensures { IsTrue result → plain_type ty.now ≡ plain_type other.now }
{
    same_type(ty, other)
}

fn is_same_sort(a: &Sort, b: &Sort) -> bool
    ensures { IsTrue result → sort_form a.now ≡ sort_form b.now }
{
    match (a, b) {
        (Sort::Object(ty), Sort::Object(other)) => is_equal_type(ty, other),
        (Sort::Function(number), Sort::Function(other)) => number == other,
        _ => false,
    }
}

fn copied_sort(alloc: Global, sort: &Sort) -> Result<Sort, NoMemory>
    ensures { Rattle.std.specs.Prelude.IfOk result (λ s. sort_form s ≡ sort_form sort.now) }
{
    match sort {
        Sort::Object(ty) => Ok(Sort::Object(copied(alloc, ty)?)),
        Sort::Function(number) => Ok(Sort::Function(*number)),
    }
}

impl Plain for FileName {
    ghost Form = { plain.FileName };

    ghost form = { file_name_form };

    fn is_same(&self, other: &FileName) -> bool {
        is_same_sort(&self.sort, &other.sort) && self.internal == other.internal
    }

    fn try_clone(&self, alloc: Global) -> Result<FileName, NoMemory> {
        let sort = copied_sort(alloc, &self.sort)?;
        Ok(FileName {
            sort,
            internal: self.internal,
        })
    }
}

/// A name of file scope in all configurations.
#[derive(Drop)]
pub struct CondName {
    pub name: Vec<u8>,
    /// What it stands for: the first that is there counts.
    pub meanings: CondList<FileName>,
}

/// A parameter or local where it is there.
#[derive(Drop)]
pub struct LocalName {
    pub name: Vec<u8>,
    pub when: Formula,
    pub ty: CType,
    /// How many blocks are open where it is declared.
    pub depth: u32,
}
