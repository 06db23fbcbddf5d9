//! Members of a wrong form.
ghost use Rattle.std.specs.Prelude.{◌≡◌};

use crate::member::Member;
use crate::text::Text;
use std::alloc::Global;
use std::marker::Model;

/// Where a member of a wrong form stands, as far as it is known.
#[derive(Drop, Debug)]
pub struct Place {
    /// The id of the span, as the text has it, and its name.
    pub span: Option<(Text, Text)>,
    /// What the member is instead.
    pub value: Option<Text>,
    /// The line, from 1 on; 0 where the file is one text.
    pub line: usize,
}

/// A member of a wrong form, and where it stands. A contract sees which member it is, and nothing of the place.
#[derive(Drop, Debug)]
pub struct Misshapen {
    member: Member,
    place: Option<Box<Place>>,
}

impl Model for Misshapen {
    ghost use Rattle.trace_spans.specs.declared.member.Member.{Member};

    ghost Value = { Member };

    ghost view = { λ misshapen. misshapen.member };
}

/// A place in this line; where memory is out none is known.
fn in_line(alloc: Global, place: Option<Box<Place>>, line: usize) -> Option<Box<Place>> {
    match place {
        Some(mut place) => {
            place.line = line;
            Some(place)
        }
        None => Box::new(
            alloc,
            Place {
                span: None,
                value: None,
                line,
            },
        )
        .ok(),
    }
}

impl Misshapen {
    /// A member of which no place is known.
    pub(crate) fn of(member: Member) -> Misshapen
        ensures { result ≡ member }
    {
        Misshapen {
            member,
            place: None,
        }
    }

    /// Which member it is.
    pub fn member(&self) -> Member
        ensures { result ≡ self.now }
    {
        self.member
    }

    /// Where it stands, if that is known.
    pub fn place(&self) -> Option<&Place> {
        match &self.place {
            Some(place) => Some(&**place),
            None => None,
        }
    }

    /// The same at this place, unless one is known.
    pub(crate) fn at(self, place: Option<Box<Place>>) -> Misshapen
        ensures { result ≡ self }
    {
        Misshapen {
            member: self.member,
            place: match self.place {
                Some(known) => Some(known),
                None => place,
            },
        }
    }

    /// The same in this line.
    pub(crate) fn in_line(self, alloc: Global, line: usize) -> Misshapen
        ensures { result ≡ self }
    {
        Misshapen {
            member: self.member,
            place: in_line(alloc, self.place, line),
        }
    }
}
