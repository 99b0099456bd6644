//! Laws of incompatible declarations. The functions are their contracts alone.
ghost use Rattle.std.specs.Prelude.{◌≡◌, ◌↔◌, ℕ, Bool, false, List, is_some};
ghost use Rattle.std.specs.List.{list_any};
ghost use Rattle.core_meaning.specs.Linking.{Units, IsFault};
ghost use Rattle.core_meaning.specs.declared.refusals.LinkKind.TheVariants as link_kind;
ghost use Rattle.type_tables.specs.Seen.{seen_tables};
ghost use Rattle.type_tables.specs.declared.tables.Tables.{Tables};
ghost use Rattle.link_faults.specs.declared.left.LeftUnit.{LeftUnit};
ghost use Rattle.link_faults.specs.SeenUnits.{LeaveAlike};
ghost use Rattle.link_faults.specs.Apart.{AreSeenApart};
ghost use Rattle.link_faults.specs.Faulty.{StructsFollow};

/// Declarations of a name don't agree where what is seen of them doesn't.
pub fn incompatible_names_are_those_of_what_is_seen()
    ensures { (on : ℕ → Bool) (tables : Tables) (by : ℕ → ℕ) (linked : Units) (units : List LeftUnit)
        → LeaveAlike on tables by linked units → StructsFollow by (seen_tables on tables) linked.structs → (name : List ℕ)
        → IsFault linked link_kind.Incompatible name ↔ AreSeenApart on tables units name }
{}

/// A name that no unit declares has no declarations that don't agree: a header's function agrees with itself.
pub fn undeclared_names_agree()
    ensures { (linked : Units) (name : List ℕ) → list_any (λ unit. is_some (unit.names name)) linked.units ≡ false
        → IsFault linked link_kind.Incompatible name → ⊥ }
{}
