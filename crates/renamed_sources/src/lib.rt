//! Projects whose files are renamed (ISO/IEC 9899:2011, 5.1.1.1): what they are in one configuration. Here are the definitions (in
//! `specs/`) and the laws, each the contract of a function without a body.
#![tactic(auto)]

ghost use Rattle.renamed_sources.specs.Laws.{SourcesAreRenamed, TreesAreOfSources};

/// The sources of a project with renamed files are the renamed sources, and each unit that is present has its file among them.
pub fn sources_are_renamed()
    ensures { SourcesAreRenamed }
{}

/// The trees of the units that are present are the trees that the sources have in their files.
pub fn trees_are_of_sources()
    ensures { TreesAreOfSources }
{}
