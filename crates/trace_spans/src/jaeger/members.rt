//! The members of a span of Jaeger JSON, found in one walk. Null is absence.
ghost use Rattle.std.specs.Prelude.{◌≡◌};
ghost use Rattle.serde_json.specs.Data.{no_members};
ghost use Rattle.trace_spans.specs.JaegerMembers.{jaeger_members_of, jaeger_members_in, with_found};

use crate::object::unless_null;
use json_trees::Tree;

/// The members that are read of each span, those that its object has. Each look-up in the object itself would walk all
/// of it.
#[derive(Drop)]
pub(crate) struct JaegerMembers<'t, 'a> {
    pub trace: Option<Tree<'t, 'a>>,
    pub id: Option<Tree<'t, 'a>>,
    pub parent: Option<Tree<'t, 'a>>,
    pub name: Option<Tree<'t, 'a>>,
    pub references: Option<Tree<'t, 'a>>,
    pub start: Option<Tree<'t, 'a>>,
    pub duration: Option<Tree<'t, 'a>>,
    pub tags: Option<Tree<'t, 'a>>,
    pub process: Option<Tree<'t, 'a>>,
    pub own_process: Option<Tree<'t, 'a>>,
}

impl<'t, 'a> JaegerMembers<'t, 'a> {
    /// No members.
    fn none() -> JaegerMembers<'t, 'a>
        ensures { result ≡ jaeger_members_in no_members }
    {
        JaegerMembers {
            trace: None,
            id: None,
            parent: None,
            name: None,
            references: None,
            start: None,
            duration: None,
            tags: None,
            process: None,
            own_process: None,
        }
    }

    /// Puts a member into its place, or nothing where it is null. Of those that have one name the last stays, and one
    /// that has no place is passed over.
    ///
    /// Not inlined: within the loop each turn would carry all places from variable to variable.
    #[inline(never)]
    fn put(&mut self, name: &str, value: Option<Tree<'t, 'a>>)
        ensures { self.new ≡ with_found name.now value.entry self.old }
    {
        match name {
            "traceID" => self.trace = value,
            "spanID" => self.id = value,
            "parentSpanID" => self.parent = value,
            "operationName" => self.name = value,
            "references" => self.references = value,
            "startTime" => self.start = value,
            "duration" => self.duration = value,
            "tags" => self.tags = value,
            "processID" => self.process = value,
            "process" => self.own_process = value,
            _ => {}
        }
    }

    /// The members of an object, and none of what is no object.
    #[tactic(auto, unfolding(crate::specs::Members::member_of))]
    pub(crate) fn of(object: &Tree<'t, 'a>) -> JaegerMembers<'t, 'a>
        ensures { result ≡ jaeger_members_of object.now }
    {
        let mut found = JaegerMembers::none();
        let Some(mut members) = object.members() else {
            return found;
        };
        while let Some((name, value)) = members.next() {
            found.put(name, unless_null(value));
        }
        found
    }
}
