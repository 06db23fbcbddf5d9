//! What stands around the data of a page.

/// The fixed texts of a page: what comes before its data, and what comes after.
#[derive(Clone, Copy)]
pub struct Frame<'a> {
    pub head: &'a str,
    pub tail: &'a str,
}

/// What a page says of itself.
#[derive(Clone, Copy)]
pub struct Heading<'a> {
    /// The version of the program that wrote it.
    pub program: &'a str,
    /// The name of the file that has the recording.
    pub file: &'a str,
    /// The recording, as it was read: so with the labels, the unit and all else that a page shows and no report tells.
    pub recording: &'a [u8],
    /// The script that was played, if there is one.
    pub script: Option<Script<'a>>,
}

/// A script that was played.
#[derive(Clone, Copy)]
pub struct Script<'a> {
    /// The name of the file that has it.
    pub file: &'a str,
    /// Its text, as it was read.
    pub text: &'a [u8],
    /// What its steps were answered: lines, each of which is one JSON object.
    pub answers: &'a [u8],
}
