//! How many files a project has: a law of the definitions in `project_file`, the contract of a function without a body.
#![tactic(auto)]

ghost use Rattle.project_sizes.specs.Laws.{ProjectsHaveFewFiles};

/// A project has so few files that none of them gets the number of the built-in file.
pub fn projects_have_few_files()
    ensures { ProjectsHaveFewFiles }
{}
