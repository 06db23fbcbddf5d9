//! Changes that are tried.
use std::alloc::{AllocError, Global};

/// The most words that are changes: as many as a list of edits may have, as each is one edit at least.
pub(crate) const MOST_CHANGES: usize = 64;

/// What is asked of the version that changes make.
#[derive(Clone, Copy, Debug, PartialEq, Eq)]
pub enum Asked<'a> {
    /// What comes of it for the stage of this name; where none is named, for the one that completes last.
    Reports(Option<&'a str>),
    /// The version, as a recording.
    Recording,
    /// A picture of it, and over it the path of the stage of this name, where one is named.
    Picture(Option<&'a str>),
}

/// Changes that are tried together, and what is asked of the version that they make.
#[derive(Debug, Drop)]
pub struct Trial<'a> {
    /// Each as one word.
    pub changes: Vec<&'a str>,
    /// What is asked of the version that they make.
    pub asked: Asked<'a>,
}

impl<'a> Trial<'a> {
    /// A trial of these changes.
    pub(crate) fn new(
        alloc: Global,
        changes: &[&'a str],
        asked: Asked<'a>,
    ) -> Result<Trial<'a>, AllocError> {
        let changes = Vec::from_slice(alloc, changes)?;
        Ok(Trial { changes, asked })
    }
}
