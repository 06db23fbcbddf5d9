//! The scripts that are answered at once.
ghost use Rattle.std.specs.Prelude.{◌≤◌, length};

use level_pool::Workers;
use std::alloc::{AllocError, Global};

/// The most scripts that are answered at once.
pub(crate) const MOST_SCRIPTS: usize = 64;

/// The scripts that are answered at once: the paths of 1 to 64, and how many workers compute for each.
#[derive(Debug, Drop)]
pub struct Scripts<'a> {
    paths: Vec<&'a str>,
    workers: Workers,
    ghost some: { 1 ≤ length paths.items },
    ghost few: { length paths.items ≤ 64 },
}

impl<'a> Scripts<'a> {
    /// The scripts of these paths, unless there are none or too many.
    pub(crate) fn new(
        alloc: Global,
        paths: &[&'a str],
        workers: Workers,
    ) -> Result<Option<Scripts<'a>>, AllocError> {
        if paths.is_empty() || paths.len() > MOST_SCRIPTS {
            return Ok(None);
        }
        let paths = Vec::from_slice(alloc, paths)?;
        Ok(Some(Scripts { paths, workers }))
    }

    /// The paths, as they were given.
    pub fn paths(&self) -> &[&'a str]
        ensures some { 1 ≤ length result.now }
        ensures few { length result.now ≤ 64 }
    {
        self.paths.as_slice()
    }

    /// How many workers compute for each.
    pub fn workers(&self) -> Workers {
        self.workers
    }
}
