//! The names of folders, and of files in them.
#![tactic(auto)]

mod folders;

pub use folders::{in_folder, is_apart, is_folder_name, is_in_folder};
