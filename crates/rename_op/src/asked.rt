//! What a renaming is asked of.

use crate::outcomes::Precondition;
use c_text::FileToken;
use cond_formula::Config;
use project_analysis::Analysis;
use project_file::Project;
use sat_core::Proof;
use text_edits::Files;

/// The class of a place, by its tokens in order, that is to get a new name in an analysed project.
#[derive(Clone, Copy)]
pub(crate) struct Asked<'a> {
    pub(crate) project: &'a Project,
    pub(crate) files: &'a Files,
    pub(crate) analysis: &'a Analysis,
    pub(crate) class: &'a [FileToken],
    pub(crate) old: &'a [u8],
    pub(crate) new: &'a [u8],
}

/// What is answered of the preconditions that were asked so far.
#[derive(Drop)]
pub(crate) enum Answered {
    /// The first that is broken, with the least configuration that breaks it.
    FirstBroken(Precondition, Config),
    /// None is; a refutation for each, in order.
    Unbroken(Vec<Proof>),
}
