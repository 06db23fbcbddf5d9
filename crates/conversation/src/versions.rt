//! By which words versions were made.
use crate::served::Served;
use console::Fault;
use level_pool::Runner;
use std::alloc::{AllocError, Global};
use std::fmt::Write;
use version_store::{StateRepresentation, Version};

/// By which words each version but version 0 was made, in order.
#[derive(Drop)]
pub(crate) struct Versions {
    alloc: Global,
    words: Vec<String>,
}

impl Versions {
    /// No version but version 0 was made.
    pub(crate) fn new(alloc: Global) -> Versions {
        Versions {
            alloc,
            words: Vec::new(alloc),
        }
    }

    /// Keeps by which words the version of a number was made, unless it was made before.
    pub(crate) fn made_by(&mut self, last: u32, text: &str) -> Result<(), Fault> {
        if (last as usize) > self.words.len() {
            let text = String::from_str(self.alloc, text)?;
            self.words.reserve(1)?;
            self.words.push_reserved(text);
        }
        Ok(())
    }

    /// The words by which the version of a number was made.
    fn words_of(&self, number: u32) -> &str {
        let index = (number as usize).saturating_sub(1);
        match self.words.get(index) {
            Some(text) => text.as_str(),
            None => "",
        }
    }

    /// Puts the line of a version at the end of a text.
    fn push_line<K: StateRepresentation>(
        &self,
        lines: &mut String,
        version: &Version<K>,
        standing: Option<u32>,
    ) -> Result<(), AllocError> {
        let number = version.number();
        let here = if standing == Some(number) {
            " (here)"
        } else {
            ""
        };
        match version.parent() {
            Some(parent) => {
                let words = self.words_of(number);
                writeln!(lines, "version {number} of {parent}: {words}{here}")
            }
            None => writeln!(lines, "version {number}{here}"),
        }
    }

    /// The lines of all versions; the session stands at the version of the number.
    pub(crate) fn text<K: StateRepresentation, W: Runner>(
        &self,
        alloc: Global,
        served: &Served<'_, K, W>,
        standing: Option<u32>,
    ) -> Result<String, AllocError> {
        let mut lines = String::new(alloc);
        for number in 0..u32::MAX {
            match served.version(number) {
                Some(version) => self.push_line(&mut lines, version, standing)?,
                None => return Ok(lines),
            }
        }
        Ok(lines)
    }
}
