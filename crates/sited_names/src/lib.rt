//! The names of units and the sites of their tokens: where a macro call that brings a token stands has nothing to do with what its identifier
//! stands for, nor with the token of a file of which it is a copy (ISO/IEC 9899:2011, 6.2.1, 6.10.3). Here are the laws (in `specs/`), each the
//! contract of a function without a body.
#![tactic(auto)]

ghost use Rattle.sited_names.specs.Laws.{SitesDontName, SitesDontTie};

/// Units without the sites of their tokens have the names that they had, without these sites.
pub fn sites_dont_name()
    ensures { SitesDontName }
{}

/// Units that are the same but for the sites of their tokens declare the same tokens of files by the same, and the same names.
pub fn sites_dont_tie()
    ensures { SitesDontTie }
{
    sites_dont_name();
}
