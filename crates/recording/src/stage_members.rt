//! The members of a stage object, found in one walk.
ghost use Rattle.std.specs.Prelude.{◌≡◌};
ghost use Rattle.serde_json.specs.Data.{no_members};
ghost use Rattle.recording.specs.StageMembers.{stage_members_of, stage_members_in, with_found};

use json_trees::Tree;

/// The members that a stage may have, those that its object has. Each look-up in the object itself would walk all of it.
#[derive(Drop)]
pub(crate) struct StageMembers<'t, 'a> {
    pub name: Option<Tree<'t, 'a>>,
    pub op: Option<Tree<'t, 'a>>,
    pub value: Option<Tree<'t, 'a>>,
    pub throws: Option<Tree<'t, 'a>>,
    pub sources: Option<Tree<'t, 'a>>,
    pub inner: Option<Tree<'t, 'a>>,
    pub created: Option<Tree<'t, 'a>>,
    pub takes: Option<Tree<'t, 'a>>,
    pub queued: Option<Tree<'t, 'a>>,
    pub runs: Option<Tree<'t, 'a>>,
    pub action: Option<Tree<'t, 'a>>,
    pub pin_result: Option<Tree<'t, 'a>>,
    pub pin_moment: Option<Tree<'t, 'a>>,
    pub ends: Option<Tree<'t, 'a>>,
}

impl<'t, 'a> StageMembers<'t, 'a> {
    /// No members.
    fn none() -> StageMembers<'t, 'a>
        ensures { result ≡ stage_members_in no_members }
    {
        StageMembers {
            name: None,
            op: None,
            value: None,
            throws: None,
            sources: None,
            inner: None,
            created: None,
            takes: None,
            queued: None,
            runs: None,
            action: None,
            pin_result: None,
            pin_moment: None,
            ends: None,
        }
    }

    /// Puts a member into its place. Of those that have one name the last stays, and one that no stage has is passed
    /// over. It is not inlined: in the loop all places would become variables, which are moved at each member.
    #[inline(never)]
    fn put(&mut self, name: &str, value: Tree<'t, 'a>)
        ensures { self.new ≡ with_found name.now value.entry self.old }
    {
        match name {
            "name" => self.name = Some(value),
            "op" => self.op = Some(value),
            "value" => self.value = Some(value),
            "throws" => self.throws = Some(value),
            "sources" => self.sources = Some(value),
            "inner" => self.inner = Some(value),
            "created" => self.created = Some(value),
            "takes" => self.takes = Some(value),
            "queued" => self.queued = Some(value),
            "runs" => self.runs = Some(value),
            "action" => self.action = Some(value),
            "pinResult" => self.pin_result = Some(value),
            "pinMoment" => self.pin_moment = Some(value),
            "ends" => self.ends = Some(value),
            _ => {}
        }
    }

    /// The members of an object, and none of what is no object.
    pub(crate) fn of(object: &Tree<'t, 'a>) -> StageMembers<'t, 'a>
        ensures { result ≡ stage_members_of object.now }
    {
        let mut found = StageMembers::none();
        let Some(mut members) = object.members() else {
            return found;
        };
        while let Some((name, value)) = members.next() {
            found.put(name, value);
        }
        found
    }
}
