//! Texts that tell no spans.
ghost use Rattle.std.specs.Prelude.{◌≡◌};

use crate::text::TextList;
use std::marker::Model;

/// What a text has that tells no spans, as far as it is known. A contract sees nothing of it.
#[derive(Drop, Debug)]
pub struct Strange {
    /// The names of its first members; none where it is no object.
    pub members: Option<TextList>,
    /// What it looks like.
    pub kind: Option<StrangeKind>,
    /// The line, from 1 on; 0 where the file is one text.
    pub line: usize,
}

/// Whose traces a text may be that tells no spans.
#[derive(Clone, Copy, PartialEq, Eq, Debug)]
pub enum StrangeKind {
    XRay,
    Datadog,
    Honeycomb,
    Chrome,
    Elastic,
}

impl Model for Strange {
    ghost Value = { Unit {0} };

    ghost view = { λ strange. tt };
}

impl Strange {
    /// The same in this line.
    pub(crate) fn in_line(self, line: usize) -> Strange
        ensures { result ≡ self }
    {
        Strange {
            members: self.members,
            kind: self.kind,
            line,
        }
    }
}
