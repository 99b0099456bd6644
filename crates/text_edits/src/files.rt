/// A file of a project: its path from the project's folder, with `/` between the folders, and what
/// it holds.
#[derive(Debug, Drop)]
pub struct SourceFile {
    pub name: String,
    pub bytes: Vec<u8>,
}

/// Files in an order, which numbers them from 0. Where two have one name, the first counts.
#[derive(Debug, Drop)]
pub struct Files {
    pub list: Vec<SourceFile>,
}
