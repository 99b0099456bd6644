//! A worked row. The function is its contract alone.
ghost use Rattle.renamed_programs.specs.Rows.{ObjectRenamed};

/// A unit in which an object of file scope is renamed is all that the laws ask.
pub fn worked_row()
    ensures { ObjectRenamed }
{}
