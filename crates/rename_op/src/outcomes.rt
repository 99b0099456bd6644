//! What becomes of a renaming.

ghost use Rattle.std.specs.Prelude.{◌≡◌};

use c_text::FileToken;
use cond_formula::Config;
use sat_core::Proof;

/// What may stand in the way of a renaming, in the order in which it is asked.
#[derive(Clone, Copy, Debug, PartialEq, Eq)]
pub enum Precondition {
    /// A configuration in which a token of the class is read isn't accepted.
    Broken,
    /// An identifier of the class comes out of the body of a macro (6.10.3).
    InMacroBody,
    /// A token of the class is read while the old name or the new one is a macro (6.10.3).
    MacroName,
    /// An identifier of the class is `main`, or stands or is declared in a built-in header (5.1.2.2.1).
    Fixed,
    /// With the new name a configuration isn't accepted, or an identifier is bound or linked otherwise (6.2.1, 6.2.2).
    Capture,
}

impl Precondition {
    ghost use Rattle.reference_classes.specs.Preconditions.{precondition_name};
    ghost use Rattle.rename_op.specs.Outcomes.{plain_precondition};

    /// The word for the precondition in what is printed.
    pub fn name(self) -> &'static str
        ensures { result.now ≡ precondition_name (plain_precondition self) }
    {
        match self {
            Precondition::Broken => "Broken",
            Precondition::InMacroBody => "InMacroBody",
            Precondition::MacroName => "MacroName",
            Precondition::Fixed => "Fixed",
            Precondition::Capture => "Capture",
        }
    }
}

/// A class in the way of whose renaming nothing stands.
#[derive(Drop)]
pub struct Unhindered {
    /// The tokens that get the new name, those of built-in headers among them, in the order of the files and of their texts.
    pub class: Vec<FileToken>,
    /// For each precondition, in order, a refutation of the question where it is broken.
    pub proofs: Vec<Proof>,
}

/// What becomes of a renaming.
#[derive(Drop)]
pub enum Outcome {
    /// No product has an occurrence at the place.
    Nothing,
    /// The new name is the old one.
    SameName,
    /// The first precondition that is broken, with the least configuration that breaks it.
    Refused(Precondition, Config),
    /// The class gets the new name.
    Renamed(Unhindered),
}
