//! Laws of what is seen of units. The functions are their contracts alone.
ghost use Rattle.std.specs.Prelude.{◌≡◌, ◌↔◌, ℕ, Bool, false, not, ◌||◌, List, codes, IsTrue};
ghost use Rattle.std.specs.List.{list_any};
ghost use Rattle.core_meaning.specs.Linking.{Units, IsFault, is_duplicate, defines_main, defines};
ghost use Rattle.core_meaning.specs.declared.refusals.LinkKind.TheVariants as link_kind;
ghost use Rattle.type_tables.specs.declared.tables.Tables.{Tables};
ghost use Rattle.link_faults.specs.declared.left.LeftUnit.{LeftUnit};
ghost use Rattle.link_faults.specs.SeenUnits.{units_seen, LeaveAlike, is_undefined};

/// Units lack `main`, use what isn't defined, and define a name twice where what is seen of them does.
pub fn faults_are_those_of_what_is_seen()
    ensures no_main { (on : ℕ → Bool) (tables : Tables) (by : ℕ → ℕ) (linked : Units) (units : List LeftUnit)
        → LeaveAlike on tables by linked units
        → IsFault linked link_kind.NoMain (codes "main") ↔ IsTrue (not (list_any defines_main (units_seen on tables units))) }
    ensures undefined { (on : ℕ → Bool) (tables : Tables) (by : ℕ → ℕ) (linked : Units) (units : List LeftUnit)
        → LeaveAlike on tables by linked units → (name : List ℕ)
        → IsFault linked link_kind.Undefined name ↔ IsTrue (list_any (is_undefined (units_seen on tables units) name) (units_seen on tables units)) }
    ensures duplicate { (on : ℕ → Bool) (tables : Tables) (by : ℕ → ℕ) (linked : Units) (units : List LeftUnit)
        → LeaveAlike on tables by linked units → (name : List ℕ)
        → IsFault linked link_kind.Duplicate name ↔ IsTrue (is_duplicate (units_seen on tables units) name) }
{}

/// A name that no unit uses or defines is neither undefined nor defined twice, and only `main` can be missing.
pub fn other_names_have_no_fault()
    ensures no_main { (linked : Units) (name : List ℕ) → IsFault linked link_kind.NoMain name → name ≡ codes "main" }
    ensures undefined { (linked : Units) (name : List ℕ) → list_any (λ unit. unit.uses name || defines unit name) linked.units ≡ false
        → IsFault linked link_kind.Undefined name → ⊥ }
    ensures duplicate { (linked : Units) (name : List ℕ) → list_any (λ unit. unit.uses name || defines unit name) linked.units ≡ false
        → IsFault linked link_kind.Duplicate name → ⊥ }
{}
