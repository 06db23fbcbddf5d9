//! The nodes of a text, made in one pass over its tokens.
ghost use Rattle.std.specs.Prelude.{suc, ◌≡◌, ◌<◌, ◌∷◌, length, Some, None, Err, OnOk};
ghost use Rattle.json.specs.Json.{Json, Items, Members, value, items, members};
ghost use Rattle.serde_json.specs.Data.{no_members};
ghost use Rattle.serde_json.specs.Read.{of_json, of_items, of_members, converted};
ghost use Rattle.json_trees.specs.Added.{Added};
ghost use Rattle.json_trees.specs.Cells.{array_cell, items_cells, json_cells, members_cells, object_cell};
ghost use Rattle.json_trees.specs.Valued.{HasData, HasItems, HasPairs};

use crate::node::Node;
use crate::nodes::Nodes;
use crate::unread::Unread;
use json::{Reader, Token};

/// Adds the nodes of the next value. Arrays and objects may nest `depth` deep.
#[cycle(build)]
#[inline(always)]
pub(crate) fn add_value<'a>(
    reader: &mut Reader<'a>,
    depth: usize,
    nodes: &mut Nodes<'a>,
) -> Result<(), Unread>
    ensures ok { OnOk result ((j : Json) × (value depth reader.old ≡ Some (j, reader.new)) × HasData j
        × Added nodes.old nodes.new (json_cells j)) }
    ensures shorter { OnOk result (length reader.new < length reader.old) }
    ensures not_json { result ≡ Err Unread.NotJson → converted of_json (value depth reader.old) ≡ None }
{
    let Some(token) = reader.next() else {
        return Err(Unread::NotJson);
    };
    match token {
        Token::String(text) => nodes.add_string(text),
        Token::Number(text) => nodes.add_number(text),
        Token::Bool(flag) => nodes.push(Node::Bool(flag)),
        Token::Null => nodes.push(Node::Null),
        Token::EndObject | Token::EndArray | Token::Key(_) | Token::Bad => Err(Unread::NotJson),
        Token::BeginArray => {
            if depth == 0 {
                return Err(Unread::NotJson);
            }
            add_array(reader, depth - 1, nodes)
        }
        Token::BeginObject => {
            if depth == 0 {
                return Err(Unread::NotJson);
            }
            add_object(reader, depth - 1, nodes)
        }
    }
}

/// Adds the nodes of an array whose bracket is passed.
#[cycle(build)]
#[inline(never)]
fn add_array<'a>(reader: &mut Reader<'a>, depth: usize, nodes: &mut Nodes<'a>) -> Result<(), Unread>
    ensures ok { OnOk result ((js : Items) × (items (value depth) (length reader.old) reader.old ≡ Some (js, reader.new)) × HasItems js
        × Added nodes.old nodes.new (array_cell (suc (length (items_cells js))) ∷ items_cells js)) }
    ensures shorter { OnOk result (length reader.new < length reader.old) }
    ensures not_json { result ≡ Err Unread.NotJson → converted of_items (items (value depth) (length reader.old) reader.old) ≡ None }
{
    let at = nodes.list.len();
    nodes.push(Node::Array(0))?;
    'items: while !reader.take_end_array() {
        add_value(reader, depth, nodes)?;
    }
    nodes.list[at] = Node::Array(nodes.span_from(at));
    Ok(())
}

/// Adds the nodes of an object whose bracket is passed.
#[cycle(build)]
#[inline(never)]
fn add_object<'a>(
    reader: &mut Reader<'a>,
    depth: usize,
    nodes: &mut Nodes<'a>,
) -> Result<(), Unread>
    ensures ok { OnOk result ((ms : Members) × (members (value depth) (length reader.old) reader.old ≡ Some (ms, reader.new)) × HasPairs ms
        × Added nodes.old nodes.new (object_cell (suc (length (members_cells ms))) ∷ members_cells ms)) }
    ensures shorter { OnOk result (length reader.new < length reader.old) }
    ensures not_json { result ≡ Err Unread.NotJson → converted (λ ms. of_members ms no_members) (members (value depth) (length reader.old) reader.old) ≡ None }
{
    let at = nodes.list.len();
    nodes.push(Node::Object(0))?;
    'members: loop {
        let Ok(key) = reader.next_key() else {
            return Err(Unread::NotJson);
        };
        let Some(name) = key else {
            break;
        };
        nodes.add_key(name)?;
        add_value(reader, depth, nodes)?;
    }
    nodes.list[at] = Node::Object(nodes.span_from(at));
    Ok(())
}
