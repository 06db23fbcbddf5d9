//! A value of a document.
ghost use Rattle.std.specs.Prelude.{◌≡◌, is_some, Some, None, MatchOption, option_map, option_and_then};
ghost use Rattle.json.specs.Json.{Json};
ghost use Rattle.serde_json.specs.Data.{object, no_members};
ghost use Rattle.serde_json.specs.Find.{get, as_null, as_str, as_bool, as_number, as_u64, as_i64, as_array, as_object};
ghost use Rattle.serde_json.specs.View.{number_view};
ghost use Rattle.json_trees.specs.Cells.{cell, data_at, first_cell, HoldsData};
ghost use Rattle.json_trees.specs.Named.{put_all};
ghost use Rattle.json_trees.specs.Valued.{data_of, HasData};

use crate::items::Items;
use crate::members::Members;
use crate::node::Node;
use serde_json::Number;
use std::marker::Model;

/// A value of a document. A clause sees it as `serde_json` reads it.
#[derive(Drop)]
pub struct Tree<'t, 'a> {
    /// Those of the value, and no more.
    nodes: &'t [Node],
    texts: &'t [&'a str],
}

impl<'t, 'a> Model for Tree<'t, 'a> {
    ghost use Rattle.serde_json.specs.Data.{Data};
    ghost use Rattle.json_trees.specs.DataCode.{data_code};

    ghost Value = { Data };

    ghost coded = { data_code };

    ghost use Rattle.json_trees.specs.Cells.{data_at, HoldsData};

    ghost view = { λ a. data_at a.texts.now a.nodes.now };

    ghost invariant = { λ a. HoldsData a.texts.now a.nodes.now };
}

impl<'t, 'a> Tree<'t, 'a> {
    /// The value of these nodes.
    #[inline(always)]
    pub(crate) fn of_nodes(nodes: &'t [Node], texts: &'t [&'a str]) -> Tree<'t, 'a>
        requires { HoldsData texts.now nodes.now }
        ensures { result ≡ data_at texts.now nodes.now }
    {
        Tree { nodes, texts }
    }

    /// The first node.
    #[inline(always)]
    fn first(&self) -> (&'t Node, &'t [&'a str])
        ensures { (j : Json) × (cell result.1.now result.0.now ≡ first_cell j) × HasData j × (self.now ≡ data_of j) }
    {
        (&self.nodes[0], self.texts)
    }

    /// The member of that name, where this is an object. Of those that have one name it is the last. It walks all
    /// members.
    pub fn get(&self, name: &str) -> Option<Tree<'t, 'a>>
        ensures { result ≡ get name.now self.now }
    {
        let mut members = self.members()?;
        let mut found = None;
        'members: while let Some((own, tree)) = members.next() {
            if own == name {
                found = Some(tree);
            }
        }
        found
    }

    /// The text, where this is one.
    #[inline(always)]
    pub fn as_str(&self) -> Option<&'a str>
        ensures { option_map (λ t. t.now) result ≡ as_str self.now }
    {
        let (node, texts) = self.first();
        node.as_str(texts)
    }

    /// The number, where this is one.
    #[inline(always)]
    pub fn as_number(&self) -> Option<Number>
        ensures { option_map number_view result ≡ as_number self.now }
    {
        let (node, texts) = self.first();
        node.as_number(texts)
    }

    /// The whole number from 0 to 2^64 - 1, where this is one with no point and no exponent.
    pub fn as_u64(&self) -> Option<u64>
        ensures { result ≡ option_and_then as_u64 (as_number self.now) }
    {
        self.as_number()?.as_u64()
    }

    /// The whole number from -2^63 to 2^63 - 1, where this is one with no point and no exponent.
    pub fn as_i64(&self) -> Option<i64>
        ensures { result ≡ option_and_then as_i64 (as_number self.now) }
    {
        self.as_number()?.as_i64()
    }

    /// The truth value, where this is one.
    #[inline(always)]
    pub fn as_bool(&self) -> Option<bool>
        ensures { result ≡ as_bool self.now }
    {
        let (node, _) = self.first();
        node.as_bool()
    }

    /// Whether this is null.
    #[inline(always)]
    pub fn is_null(&self) -> bool
        ensures { result ≡ is_some (as_null self.now) }
    {
        let (node, _) = self.first();
        node.is_null()
    }

    /// Whether this is a number.
    #[inline(always)]
    pub fn is_number(&self) -> bool
        ensures { result ≡ is_some (as_number self.now) }
    {
        self.as_number().is_some()
    }

    /// Whether this is an array.
    #[inline(always)]
    pub fn is_array(&self) -> bool
        ensures { result ≡ is_some (as_array self.now) }
    {
        let (node, _) = self.first();
        node.is_array()
    }

    /// Whether this is an object.
    #[inline(always)]
    pub fn is_object(&self) -> bool
        ensures { result ≡ is_some (as_object self.now) }
    {
        let (node, _) = self.first();
        node.is_object()
    }

    /// The items, where this is an array.
    #[inline(always)]
    pub fn as_array(&self) -> Option<Items<'t, 'a>>
        ensures { result ≡ as_array self.now }
    {
        if self.is_array() {
            Some(Items::of_nodes(&self.nodes[1..], self.texts))
        } else {
            None
        }
    }

    /// The members, where this is an object, in the text's order. A name may come twice: the last stays.
    #[inline(always)]
    pub fn members(&self) -> Option<Members<'t, 'a>>
        ensures { MatchOption result (as_object self.now ≡ None) (λ members. self.now ≡ object (put_all members no_members)) }
    {
        if self.is_object() {
            Some(Members::of_nodes(&self.nodes[1..], self.texts))
        } else {
            None
        }
    }
}
