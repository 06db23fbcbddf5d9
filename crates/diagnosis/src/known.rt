//! Names of stages that a mistaken one may have meant.
use crate::stage_checks::is_name;
use json_names::{items_of, name_of, nearest};
use json_trees::Tree;
use std::alloc::{AllocError, Global};

/// How many mistaken names a like one is looked for.
const MOST_LOOKS: usize = 64;

/// The names of the stages of a recording, and of those that were added since.
#[derive(Drop)]
pub struct KnownStages {
    alloc: Global,
    names: Vec<String>,
    looks: usize,
}

impl KnownStages {
    /// No names.
    pub fn new(alloc: Global) -> KnownStages {
        KnownStages {
            alloc,
            names: Vec::new(alloc),
            looks: 0,
        }
    }

    /// Adds the names of the stages of a recording.
    pub fn add_of_recording(&mut self, recording: &Tree<'_, '_>) -> Result<(), AllocError> {
        let mut stages = items_of(recording, "stages");
        for _ in 0..u64::MAX {
            let Some(stage) = stages.next() else {
                break;
            };
            if let Some(name) = name_of(&stage) {
                self.add(name)?;
            }
        }
        Ok(())
    }

    /// Adds a name, if it is one of a stage.
    pub fn add(&mut self, name: &str) -> Result<(), AllocError> {
        if is_name(name) {
            self.names.push(String::from_str(self.alloc, name)?)?;
        }
        Ok(())
    }

    /// Adds the name of the stage that a step or an edit adds, if it adds one.
    fn add_new(&mut self, edit: &Tree<'_, '_>) -> Result<(), AllocError> {
        let Some(stage) = edit.get("new") else {
            return Ok(());
        };
        match name_of(&stage) {
            Some(name) => self.add(name),
            None => Ok(()),
        }
    }

    /// Adds the names of the stages that a step adds.
    pub fn add_of_step(&mut self, step: &Tree<'_, '_>) -> Result<(), AllocError> {
        self.add_new(step)?;
        let mut edits = items_of(step, "edits");
        for _ in 0..u64::MAX {
            let Some(edit) = edits.next() else {
                break;
            };
            self.add_new(&edit)?;
        }
        Ok(())
    }

    /// The known name that is most like a mistaken one, while not many were looked for.
    pub(crate) fn near(&mut self, name: &str) -> Result<Option<&str>, AllocError> {
        if self.looks >= MOST_LOOKS {
            return Ok(None);
        }
        self.looks += 1;
        let mut names = Vec::new(self.alloc);
        for known in self.names.as_slice() {
            names.push(known.as_str())?;
        }
        nearest(self.alloc, name, names.as_slice())
    }

    /// Whether it is a known name.
    pub fn contains(&self, name: &str) -> bool {
        self.names
            .as_slice()
            .iter()
            .any(|known| known.as_str() == name)
    }
}
