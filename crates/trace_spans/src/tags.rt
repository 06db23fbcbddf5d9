//! The tags that are read of each span, found in one walk.
ghost use Rattle.std.specs.Prelude.{◌≡◌, option_map, option_and_then};
ghost use Rattle.serde_json.specs.Find.{as_str};
ghost use Rattle.trace_spans.specs.Members.{member_of};
ghost use Rattle.trace_spans.specs.Reads.{IsRead, IsReadAs};
ghost use Rattle.trace_spans.specs.Tags.{no_tags, tag_value, tags_in, tags_of, tags_with, with_tag};

use crate::fault::Fault;
use crate::member::Member;
use crate::object::{found_items, item_object, member, text_or_empty};
use json_trees::{Items, Tree};

/// How a tag tells its value.
#[derive(Clone, Copy, PartialEq, Eq, Debug)]
pub(crate) enum TagForm {
    Otlp,
    Jaeger,
}

/// The values of the tags that are read of each span, those that it has. Each look-up in the list itself would walk all
/// of it.
#[derive(Drop)]
pub(crate) struct Tags<'t, 'a> {
    pub error: Option<Tree<'t, 'a>>,
    pub status_code: Option<Tree<'t, 'a>>,
    pub kind: Option<Tree<'t, 'a>>,
    pub error_type: Option<Tree<'t, 'a>>,
    pub exception_type: Option<Tree<'t, 'a>>,
    pub url_full: Option<Tree<'t, 'a>>,
    pub http_url: Option<Tree<'t, 'a>>,
    pub url_path: Option<Tree<'t, 'a>>,
    pub http_target: Option<Tree<'t, 'a>>,
    pub db_query_text: Option<Tree<'t, 'a>>,
    pub db_statement: Option<Tree<'t, 'a>>,
    pub rpc_method: Option<Tree<'t, 'a>>,
    pub server_address: Option<Tree<'t, 'a>>,
    pub net_peer_name: Option<Tree<'t, 'a>>,
    pub peer_service: Option<Tree<'t, 'a>>,
    pub messaging_destination_name: Option<Tree<'t, 'a>>,
}

/// The text that a tag is, if it is there and is one.
pub(crate) fn text_of<'a>(value: &Option<Tree<'_, 'a>>) -> Option<&'a str>
    ensures { option_map (λ t. t.now) result ≡ option_and_then as_str value.now }
{
    match value {
        Some(value) => value.as_str(),
        None => None,
    }
}

/// The value of a tag.
#[tactic(auto, unfolding(crate::specs::Tags::tag_value))]
fn value_of<'t, 'a>(form: TagForm, tag: &Tree<'t, 'a>) -> Option<Tree<'t, 'a>>
    ensures { result ≡ tag_value form tag.now }
{
    let value = member(tag, Member::Value)?;
    match form {
        TagForm::Otlp => member(&value, Member::StringValue),
        TagForm::Jaeger => Some(value),
    }
}

impl<'t, 'a> Tags<'t, 'a> {
    /// No tags.
    pub(crate) fn none() -> Tags<'t, 'a>
        ensures { result ≡ no_tags }
    {
        Tags {
            error: None,
            status_code: None,
            kind: None,
            error_type: None,
            exception_type: None,
            url_full: None,
            http_url: None,
            url_path: None,
            http_target: None,
            db_query_text: None,
            db_statement: None,
            rpc_method: None,
            server_address: None,
            net_peer_name: None,
            peer_service: None,
            messaging_destination_name: None,
        }
    }

    /// Puts the value of a tag into its place. Of those that have one key the last stays, and one that has no place is
    /// passed over.
    ///
    /// Not inlined: within the loop each turn would carry all places from variable to variable.
    #[inline(never)]
    pub(crate) fn put(&mut self, key: &str, value: Option<Tree<'t, 'a>>)
        ensures { self.new ≡ with_tag key.now value.entry self.old }
    {
        match key {
            "error" => self.error = value,
            "otel.status_code" => self.status_code = value,
            "span.kind" => self.kind = value,
            "error.type" => self.error_type = value,
            "exception.type" => self.exception_type = value,
            "url.full" => self.url_full = value,
            "http.url" => self.http_url = value,
            "url.path" => self.url_path = value,
            "http.target" => self.http_target = value,
            "db.query.text" => self.db_query_text = value,
            "db.statement" => self.db_statement = value,
            "rpc.method" => self.rpc_method = value,
            "server.address" => self.server_address = value,
            "net.peer.name" => self.net_peer_name = value,
            "peer.service" => self.peer_service = value,
            "messaging.destination.name" => self.messaging_destination_name = value,
            _ => {}
        }
    }

    /// Puts the tag that an item of a list is into its place.
    fn add(&mut self, form: TagForm, list: Member, tag: &Tree<'t, 'a>) -> Result<(), Fault>
        ensures { IsReadAs (λ _. self.new) result (tags_with form list tag.now self.old) }
    {
        item_object(tag, list)?;
        let key = text_or_empty(tag, Member::Key)?;
        self.put(key, value_of(form, tag));
        Ok(())
    }

    /// Puts the tags that the items of a list are into their places.
    fn add_items(
        &mut self,
        form: TagForm,
        list: Member,
        mut items: Items<'t, 'a>,
    ) -> Result<(), Fault>
        ensures { IsReadAs (λ _. self.new) result (tags_of form list self.old items.entry) }
    {
        while let Some(tag) = items.next() {
            self.add(form, list, &tag)?;
        }
        Ok(())
    }

    /// The tags in the list that a look-up found or not.
    #[tactic(auto, unfolding(crate::specs::Tags::tags_in))]
    pub(crate) fn found(
        form: TagForm,
        object: &Tree<'_, '_>,
        found: &Option<Tree<'t, 'a>>,
        list: Member,
    ) -> Result<Tags<'t, 'a>, Fault>
        requires { found.now ≡ member_of list object.now }
        ensures { IsRead result (tags_in form list object.now) }
    {
        let items = found_items(object, found, list)?;
        let mut tags = Tags::none();
        tags.add_items(form, list, items)?;
        Ok(tags)
    }
}
