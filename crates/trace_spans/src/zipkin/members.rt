//! The members of a span of Zipkin's, found in one walk. Null is absence.
ghost use Rattle.std.specs.Prelude.{◌≡◌};
ghost use Rattle.serde_json.specs.Data.{no_members};
ghost use Rattle.trace_spans.specs.ZipkinMembers.{zipkin_members_of, zipkin_members_in, with_found};

use crate::object::unless_null;
use json_trees::Tree;

/// The members that are read of each span, those that its object has. Each look-up in the object itself would walk all
/// of it.
#[derive(Drop)]
pub(crate) struct ZipkinMembers<'t, 'a> {
    pub trace: Option<Tree<'t, 'a>>,
    pub id: Option<Tree<'t, 'a>>,
    pub parent: Option<Tree<'t, 'a>>,
    pub name: Option<Tree<'t, 'a>>,
    pub kind: Option<Tree<'t, 'a>>,
    pub start: Option<Tree<'t, 'a>>,
    pub duration: Option<Tree<'t, 'a>>,
    pub endpoint: Option<Tree<'t, 'a>>,
    pub tags: Option<Tree<'t, 'a>>,
    pub shared: Option<Tree<'t, 'a>>,
}

impl<'t, 'a> ZipkinMembers<'t, 'a> {
    /// No members.
    fn none() -> ZipkinMembers<'t, 'a>
        ensures { result ≡ zipkin_members_in no_members }
    {
        ZipkinMembers {
            trace: None,
            id: None,
            parent: None,
            name: None,
            kind: None,
            start: None,
            duration: None,
            endpoint: None,
            tags: None,
            shared: None,
        }
    }

    /// Puts a member into its place, or nothing where it is null. Of those that have one name the last stays, and one
    /// that has no place is passed over.
    ///
    /// Not inlined: within the loop each turn would carry all places from variable to variable.
    #[inline(never)]
    fn put(&mut self, name: &str, value: Option<Tree<'t, 'a>>)
        ensures { self.new ≡ with_found name.now value.entry self.old }
    {
        match name {
            "traceId" => self.trace = value,
            "id" => self.id = value,
            "parentId" => self.parent = value,
            "name" => self.name = value,
            "kind" => self.kind = value,
            "timestamp" => self.start = value,
            "duration" => self.duration = value,
            "localEndpoint" => self.endpoint = value,
            "tags" => self.tags = value,
            "shared" => self.shared = value,
            _ => {}
        }
    }

    /// The members of an object, and none of what is no object.
    #[tactic(auto, unfolding(crate::specs::Members::member_of))]
    pub(crate) fn of(object: &Tree<'t, 'a>) -> ZipkinMembers<'t, 'a>
        ensures { result ≡ zipkin_members_of object.now }
    {
        let mut found = ZipkinMembers::none();
        let Some(mut members) = object.members() else {
            return found;
        };
        while let Some((name, value)) = members.next() {
            found.put(name, unless_null(value));
        }
        found
    }
}
