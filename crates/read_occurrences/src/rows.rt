//! Worked rows. The function is its contract alone.
ghost use Rattle.read_occurrences.specs.Rows.{MembersArePaired, NamesAreTold};

/// What is read of a unit by hand.
pub fn worked_rows()
    ensures pairs { MembersArePaired }
    ensures names { NamesAreTold }
{}
