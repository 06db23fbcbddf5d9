//! Lists of nodes.
ghost use Rattle.std.specs.Prelude.{◌≡◌, ◌≢◌, ◌≤◌, ◌<◌, ◌+◌, ◌-◌, ◌^◌, [], ◌∷◌, ◌++◌, List, map, length, drop, Some, None, Err, IfOk, IfSome, IsSome, OnOk};
ghost use Rattle.std.specs.Vec.{vec_len, vec_capacity};
ghost use Rattle.json.specs.Json.{Json};
ghost use Rattle.serde_json.specs.Data.{unsigned};
ghost use Rattle.serde_json.specs.Find.{of_integer};
ghost use Rattle.serde_json.specs.Read.{number_of};
ghost use Rattle.serde_json.specs.View.{number_view};
ghost use Rattle.json_trees.specs.Cells.{Cell, cell, json_cells, key_cell, number_cell, string_cell, Texts};

use crate::node::Node;
use crate::numbers::{MINUS_ZERO, number_of, short_integer};
use crate::unread::Unread;
use serde_json::Number;
use std::alloc::Global;

/// A short text has room at first for a node, and a text, of so many of its bytes: of most it is as much as they need.
const BYTES_FOR_A_NODE: usize = 4;

/// The most nodes that there is room for at first. Where they are too few the room doubles, and what isn't written is given back.
const MOST_AT_FIRST: usize = 1024;

/// The most nodes of a text: so the place of each text, and how many nodes an array or an object takes, are below 2^32. A text that
/// needs more is not read, as where memory lacks.
const MOST_NODES: usize = 0xffff_ffff;

/// Nodes one after the other, and beside them the texts that they have the places of.
#[derive(Drop)]
pub(crate) struct Nodes<'a> {
    pub(crate) list: Vec<Node>,
    pub(crate) texts: Vec<&'a str>,
    /// How many nodes, and as many texts, there is room for. No node has two texts, so one look at it is enough for both.
    room: usize,
    ghost places: { room < 2 ^ 32 },
    ghost for_nodes: { room ≤ vec_capacity list },
    ghost for_texts: { room ≤ vec_capacity texts },
    ghost within: { vec_len list ≤ room },
    ghost no_more_texts: { vec_len texts ≤ vec_len list },
}

/// The whole number below 2^32, where this is one.
#[inline(always)]
fn whole(number: Number) -> Option<u32>
    ensures { IfSome result (λ integer. number_view number ≡ unsigned integer) }
{
    u32::try_from(number.as_u64()?).ok()
}

/// The whole number from -2^31 to -1, where this is one.
#[inline(always)]
fn below_zero(number: Number) -> Option<i32>
    ensures { IfSome result (λ integer. number_view number ≡ of_integer integer) }
{
    match number.as_i64() {
        Some(integer) if integer < 0 => i32::try_from(integer).ok(),
        _ => None,
    }
}

/// The node of a number that needs no text, where the number is one that this text writes.
#[inline(always)]
fn without_text(text: &str, number: Number) -> Option<Node>
    requires { number_of text.now ≡ Some (number_view number) }
    ensures { IfSome result (λ node. (texts : Texts) → cell texts node ≡ number_cell (number_of text.now)) }
{
    if let Some(integer) = whole(number) {
        return Some(Node::Whole(integer));
    }
    if let Some(integer) = below_zero(number) {
        return Some(Node::BelowZero(integer));
    }
    if text == MINUS_ZERO {
        return Some(Node::MinusZero);
    }
    None
}

/// Gives back what isn't written of the room of a long list.
fn give_back<T: Drop>(list: &mut Vec<T>)
    ensures { list.new.items ≡ list.old.items }
{
    if list.capacity() > MOST_AT_FIRST {
        list.shrink_to_fit();
    }
}

impl<'a> Nodes<'a> {
    ghost use Rattle.json_trees.specs.Added.{Added};

    /// No nodes, with room for those of a text of so many bytes.
    pub(crate) fn for_text(alloc: Global, bytes: usize) -> Nodes<'a>
        ensures { result.list.items ≡ [] }
    {
        let mut nodes = Nodes {
            list: Vec::new(alloc),
            texts: Vec::new(alloc),
            room: 0,
        };
        // Where that much is refused, less may still do.
        let _ = nodes.reserve((bytes / BYTES_FOR_A_NODE + 1).min(MOST_AT_FIRST));
        nodes
    }

    /// Makes room for so many nodes more, and for as many texts.
    #[cold]
    #[inline(never)]
    fn reserve(&mut self, more: usize) -> Result<(), Unread>
        ensures ok { OnOk result (vec_len self.new.list + more ≤ self.new.room) }
        ensures list { self.new.list.items ≡ self.old.list.items }
        ensures texts { self.new.texts.items ≡ self.old.texts.items }
        ensures never_refused { result ≢ Err Unread.NotJson }
    {
        let nodes = self.list.len();
        if more > MOST_NODES - nodes
            || self.list.reserve(more).is_err()
            || self.texts.reserve(nodes + more - self.texts.len()).is_err()
        {
            return Err(Unread::Memory);
        }
        self.room = self
            .list
            .capacity()
            .min(self.texts.capacity())
            .min(MOST_NODES);
        Ok(())
    }

    /// Adds a node.
    #[inline(always)]
    pub(crate) fn push(&mut self, node: Node) -> Result<(), Unread>
        ensures ok { OnOk result (self.new.list.items ≡ self.old.list.items ++ node ∷ []) }
        ensures texts { self.new.texts.items ≡ self.old.texts.items }
        ensures never_refused { result ≢ Err Unread.NotJson }
    {
        if self.list.len() >= self.room {
            self.reserve(1)?;
        }
        self.list.push_reserved(node);
        Ok(())
    }

    /// Makes room for a node and its text, and gives the place that the text will have.
    #[inline(always)]
    fn next_place(&mut self) -> Result<u32, Unread>
        ensures room { OnOk result (vec_len self.new.list < self.new.room) }
        ensures place { IfOk result (λ place. place ≡ length self.old.texts.items) }
        ensures list { self.new.list.items ≡ self.old.list.items }
        ensures texts { self.new.texts.items ≡ self.old.texts.items }
        ensures never_refused { result ≢ Err Unread.NotJson }
    {
        if self.list.len() >= self.room {
            self.reserve(1)?;
        }
        Ok(self.texts.len() as u32)
    }

    /// Adds a node and its text.
    #[inline(always)]
    fn push_with_text(&mut self, node: Node, text: &'a str)
        requires { vec_len self.old.list < self.old.room }
        ensures list { self.new.list.items ≡ self.old.list.items ++ node ∷ [] }
        ensures texts { self.new.texts.items ≡ self.old.texts.items ++ text.entry ∷ [] }
    {
        self.list.push_reserved(node);
        self.texts.push_reserved(text);
    }

    /// Adds the node of a text.
    #[inline(always)]
    pub(crate) fn add_string(&mut self, text: &'a str) -> Result<(), Unread>
        ensures ok { OnOk result (Added self.old self.new (string_cell text.now ∷ [])) }
        ensures never_refused { result ≢ Err Unread.NotJson }
    {
        if text.is_empty() {
            return self.push(Node::Empty);
        }
        let place = self.next_place()?;
        self.push_with_text(Node::String(place), text);
        Ok(())
    }

    /// Adds the node of a member's name.
    #[inline(always)]
    pub(crate) fn add_key(&mut self, name: &'a str) -> Result<(), Unread>
        ensures ok { OnOk result (Added self.old self.new (key_cell name.now ∷ [])) }
        ensures never_refused { result ≢ Err Unread.NotJson }
    {
        let place = self.next_place()?;
        self.push_with_text(Node::Key(place), name);
        Ok(())
    }

    /// Adds the node of the number that a text writes, unless it is too large for a float.
    #[inline(always)]
    pub(crate) fn add_number(&mut self, text: &'a str) -> Result<(), Unread>
        ensures ok { OnOk result (IsSome (number_of text.now) × Added self.old self.new (number_cell (number_of text.now) ∷ [])) }
        ensures not_json { result ≡ Err Unread.NotJson → number_of text.now ≡ None }
    {
        match short_integer(text) {
            Some(integer) => self.push(Node::Whole(integer)),
            None => self.add_any_number(text),
        }
    }

    /// The same, however the number is written.
    #[inline(never)]
    fn add_any_number(&mut self, text: &'a str) -> Result<(), Unread>
        ensures ok { OnOk result (IsSome (number_of text.now) × Added self.old self.new (number_cell (number_of text.now) ∷ [])) }
        ensures not_json { result ≡ Err Unread.NotJson → number_of text.now ≡ None }
    {
        let Some(number) = number_of(text) else {
            return Err(Unread::NotJson);
        };
        if let Some(node) = without_text(text, number) {
            return self.push(node);
        }
        let place = self.next_place()?;
        self.push_with_text(Node::Number(place), text);
        Ok(())
    }

    /// How many nodes there are from one on.
    #[inline(always)]
    pub(crate) fn span_from(&self, at: usize) -> u32
        requires { at ≤ length self.now.list.items }
        ensures { result ≡ length self.now.list.items - at }
    {
        (self.list.len() - at) as u32
    }

    /// The nodes and the texts.
    pub(crate) fn into_lists(self) -> (Vec<Node>, Vec<&'a str>)
        ensures nodes { result.0.items ≡ self.entry.list.items }
        ensures texts { result.1.items ≡ self.entry.texts.items }
    {
        let Nodes {
            mut list,
            mut texts,
            room: _,
        } = self;
        give_back(&mut list);
        give_back(&mut texts);
        (list, texts)
    }
}

/// The nodes of the value that comes first.
#[inline(always)]
pub(crate) fn first_value(nodes: &[Node]) -> &[Node]
    requires begins { (texts : Texts) × (j : Json) × (more : List Cell) × (map (cell texts) nodes.now ≡ json_cells j ++ more) }
    ensures value { (texts : Texts) → (j : Json) → (more : List Cell) → map (cell texts) nodes.now ≡ json_cells j ++ more
        → (map (cell texts) result.now ≡ json_cells j) × (map (cell texts) (drop (length result.now) nodes.now) ≡ more) }
    ensures within { length result.now ≤ length nodes.now }
{
    &nodes[..nodes[0].span()]
}
