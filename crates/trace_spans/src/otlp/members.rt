//! The members of a span of OTLP/JSON, found in one walk. Null is absence.
ghost use Rattle.std.specs.Prelude.{◌≡◌};
ghost use Rattle.serde_json.specs.Data.{no_members};
ghost use Rattle.trace_spans.specs.OtlpMembers.{otlp_members_of, otlp_members_in, with_found};

use crate::object::unless_null;
use json_trees::Tree;

/// The members that are read of each span, those that its object has. Each look-up in the object itself would walk all
/// of it.
#[derive(Drop)]
pub(crate) struct OtlpMembers<'t, 'a> {
    pub trace: Option<Tree<'t, 'a>>,
    pub id: Option<Tree<'t, 'a>>,
    pub parent: Option<Tree<'t, 'a>>,
    pub name: Option<Tree<'t, 'a>>,
    pub kind: Option<Tree<'t, 'a>>,
    pub start: Option<Tree<'t, 'a>>,
    pub end: Option<Tree<'t, 'a>>,
    pub links: Option<Tree<'t, 'a>>,
    pub status: Option<Tree<'t, 'a>>,
    pub attributes: Option<Tree<'t, 'a>>,
}

impl<'t, 'a> OtlpMembers<'t, 'a> {
    /// No members.
    fn none() -> OtlpMembers<'t, 'a>
        ensures { result ≡ otlp_members_in no_members }
    {
        OtlpMembers {
            trace: None,
            id: None,
            parent: None,
            name: None,
            kind: None,
            start: None,
            end: None,
            links: None,
            status: None,
            attributes: None,
        }
    }

    /// Puts a member into its place, or nothing where it is null. Of those that have one name the last stays, and one
    /// that has no place is passed over.
    ///
    /// Not inlined: within the loop each turn would carry all places from variable to variable.
    #[inline(never)]
    fn put(&mut self, name: &str, value: Option<Tree<'t, 'a>>)
        ensures { self.new ≡ with_found name.now value.entry self.old }
    {
        match name {
            "traceId" => self.trace = value,
            "spanId" => self.id = value,
            "parentSpanId" => self.parent = value,
            "name" => self.name = value,
            "kind" => self.kind = value,
            "startTimeUnixNano" => self.start = value,
            "endTimeUnixNano" => self.end = value,
            "links" => self.links = value,
            "status" => self.status = value,
            "attributes" => self.attributes = value,
            _ => {}
        }
    }

    /// The members of an object, and none of what is no object.
    #[tactic(auto, unfolding(crate::specs::Members::member_of))]
    pub(crate) fn of(object: &Tree<'t, 'a>) -> OtlpMembers<'t, 'a>
        ensures { result ≡ otlp_members_of object.now }
    {
        let mut found = OtlpMembers::none();
        let Some(mut members) = object.members() else {
            return found;
        };
        while let Some((name, value)) = members.next() {
            found.put(name, unless_null(value));
        }
        found
    }
}
