//! A text that was read.
ghost use Rattle.std.specs.Prelude.{◌≡◌, Some, None, Ok, Err, IfOk, OnOk, IsSome};
ghost use Rattle.serde_json.specs.Read.{read};

use crate::build::add_value;
use crate::node::Node;
use crate::nodes::Nodes;
use crate::tokens::pass_value;
use crate::tree::Tree;
use crate::unread::Unread;
use json::{Reader, Scratch};
use std::alloc::Global;
use std::marker::Model;

/// How deep arrays and objects may nest.
const MAX_DEPTH: usize = 127;

/// A JSON text that was read. A clause sees its value, as `serde_json` reads it.
#[derive(Drop)]
pub struct Document<'a> {
    nodes: Vec<Node>,
    texts: Vec<&'a str>,
}

impl<'a> Model for Document<'a> {
    ghost use Rattle.serde_json.specs.Data.{Data};
    ghost use Rattle.json_trees.specs.DataCode.{data_code};

    ghost Value = { Data };

    ghost coded = { data_code };

    ghost use Rattle.json_trees.specs.Cells.{data_at, HoldsData};

    ghost view = { λ a. data_at a.texts.items a.nodes.items };

    ghost invariant = { λ a. HoldsData a.texts.items a.nodes.items };
}

/// Goes over a text once, and makes nothing: whether it is one value.
fn check(text: &str, room: &mut Scratch) -> Result<(), Unread>
    ensures ok { OnOk result (IsSome (read text.now)) }
    ensures not_json { result ≡ Err Unread.NotJson → read text.now ≡ None }
{
    let Ok(mut reader) = Reader::new(text, room) else {
        return Err(Unread::Memory);
    };
    if pass_value(&mut reader, MAX_DEPTH).is_err() {
        return Err(Unread::NotJson);
    }
    if reader.next().is_some() {
        return Err(Unread::NotJson);
    }
    Ok(())
}

/// Why a text is not read for whose nodes memory lacks. Where it is no JSON either, that is why.
#[cold]
#[inline(never)]
fn without_nodes(alloc: Global, text: &str) -> Unread
    ensures not_json { result ≡ Unread.NotJson → read text.now ≡ None }
{
    match check(text, &mut Scratch::new(alloc)) {
        Ok(()) => Unread::Memory,
        Err(unread) => unread,
    }
}

impl<'a> Document<'a> {
    /// Reads a text, in the room that is lent. What `serde_json` refuses is refused: what is no JSON, nests deeper
    /// than 127, or has a number past all floats. It comes out where it stands, before the rest of the text is looked at.
    pub fn parse(
        alloc: Global,
        text: &'a str,
        room: &'a mut Scratch,
    ) -> Result<Document<'a>, Unread>
        ensures ok { IfOk result (λ document. read text.now ≡ Some document) }
        ensures not_json { result ≡ Err Unread.NotJson → read text.now ≡ None }
    {
        let Ok(mut reader) = Reader::new(text, room) else {
            return Err(without_nodes(alloc, text));
        };
        let mut nodes = Nodes::for_text(alloc, text.len());
        match add_value(&mut reader, MAX_DEPTH, &mut nodes) {
            Ok(()) => {}
            Err(Unread::Memory) => {
                drop(nodes);
                return Err(without_nodes(alloc, text));
            }
            Err(Unread::NotJson) => return Err(Unread::NotJson),
        }
        if let Some(_) = reader.next() {
            return Err(Unread::NotJson);
        }
        let (nodes, texts) = nodes.into_lists();
        Ok(Document { nodes, texts })
    }

    /// The value that the text is.
    #[inline(always)]
    pub fn root(&self) -> Tree<'_, 'a>
        ensures { result ≡ self.now }
    {
        Tree::of_nodes(self.nodes.as_slice(), self.texts.as_slice())
    }
}
