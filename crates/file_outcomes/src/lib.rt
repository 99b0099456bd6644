//! What becomes of project files: a law of the definitions in `project_file`, the contract of a function without a body.
#![tactic(auto)]

ghost use Rattle.file_outcomes.specs.Laws.{NoFileIsLeftOut};

/// A file says a project or has a first fault.
pub fn no_file_is_left_out()
    ensures { NoFileIsLeftOut }
{}
