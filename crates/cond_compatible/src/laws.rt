//! Laws of compatible types. Each function is its contract alone.
ghost use Rattle.std.specs.Prelude.{◌≡◌, ◌↔◌, ℕ, Bool, List, Some, slice_get};
ghost use Rattle.c_types.specs.Types.{PlainType};
ghost use Rattle.c_types.specs.Compatible.{Compatible};
ghost use Rattle.core_meaning.specs.Entities.{Struct, tags_of};
ghost use Rattle.core_meaning.specs.Entities as scopes;
ghost use Rattle.core_meaning.specs.Linking.{SortsAgree};
ghost use Rattle.operand_types.specs.OperandTypes.{renumbered};
ghost use Rattle.type_tables.specs.Tables as plain;
ghost use Rattle.type_tables.specs.Seen.{seen_tables};
ghost use Rattle.type_tables.specs.declared.tables.Tables.{Tables};
ghost use Rattle.type_tables.specs.Follows.{IsThere, SortIsThere, StructFollows, SortFollows};
ghost use Rattle.cond_compatible.specs.SeenTags.{TypesAgree};
ghost use Rattle.cond_compatible.specs.SeenSorts.{SeenSortsAgree};

/// Types among the structs of scopes are compatible where they are in tables that say what the scopes do, where structs have other numbers.
pub fn compatible_types_stay_so()
    ensures { (on : ℕ → Bool) (tables : Tables) (structs : List Struct) (by : ℕ → ℕ)
        → ((n : ℕ) (s : Struct) → slice_get structs n ≡ Some s → StructFollows by (seen_tables on tables) structs n s)
        → (a b : PlainType) → IsThere structs a → IsThere structs b
        → Compatible (tags_of structs) (tags_of structs) a b ↔ TypesAgree on tables (renumbered by a) (renumbered by b) }
{}

/// Likewise declarations of a name agree among scopes where they do in tables that say what the scopes do.
pub fn agreeing_sorts_stay_so()
    ensures { (on : ℕ → Bool) (tables : Tables) (structs : List Struct) (by : ℕ → ℕ)
        → ((n : ℕ) (s : Struct) → slice_get structs n ≡ Some s → StructFollows by (seen_tables on tables) structs n s)
        → (a b : scopes.Sort) (x y : plain.Sort) → SortIsThere structs a → SortIsThere structs b
        → SortFollows by (seen_tables on tables).signatures a x → SortFollows by (seen_tables on tables).signatures b y
        → SortsAgree (tags_of structs) a b ↔ SeenSortsAgree on tables x y }
{}
