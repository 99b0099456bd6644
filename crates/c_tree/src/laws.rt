//! Laws of reading tokens as a unit. Each function is its contract alone.
ghost use Rattle.c_tree.specs.ReadingLaws.{ReadIsSpelt, SpeltIsRead, TreesAreOne, FrontsBegin, FrontsAreRead};

/// The law that tokens which are read are spelt by what they are read as, and that it is a unit, to be cited in proofs; the call does nothing.
pub fn what_is_read_is_spelt()
    ensures { ReadIsSpelt }
{}

/// The law that what a unit of any height spells is read as that unit, to be cited in proofs; the call does nothing.
pub fn what_is_spelt_is_read()
    ensures { SpeltIsRead }
{}

/// The law that tokens spell one unit at most, to be cited in proofs; the call does nothing.
pub fn tokens_spell_one_unit()
    ensures { TreesAreOne }
{}

/// The law that tokens which can be read are the first tokens of some unit, to be cited in proofs; the call does nothing.
pub fn what_can_be_read_begins_a_unit()
    ensures { FrontsBegin }
{}

/// The law that the first tokens of a unit can be read, however many they are, to be cited in proofs; the call does nothing.
pub fn what_begins_a_unit_can_be_read()
    ensures { FrontsAreRead }
{}
