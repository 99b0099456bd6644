//! Laws of project files. Each function is its contract alone.
ghost use Rattle.project_file.specs.Laws.{FirstFaultIsOne, ProjectsAreAlike, ProjectsHaveNoFault};

use feature_model::tree_is_one;

/// A file that says a project has no fault, so `parse_project` answers one of the two, or want of memory.
pub fn projects_have_no_fault()
    ensures { ProjectsHaveNoFault }
{}

/// A file has one first fault at most.
pub fn first_fault_is_one()
    ensures { FirstFaultIsOne }
{}

/// A file says one project, but for how its conditions are written: in each configuration they have one value.
pub fn projects_are_alike()
    ensures { ProjectsAreAlike }
{
    tree_is_one();
}
