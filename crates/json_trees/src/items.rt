//! The items of an array.
ghost use Rattle.std.specs.Prelude.{◌≡◌, ◌<◌, Some, None, MatchOption, OnSome};
ghost use Rattle.serde_json.specs.Data.{no_items, item};
ghost use Rattle.serde_json.specs.Events.{items_len};
ghost use Rattle.json_trees.specs.Cells.{items_at, HoldsItems};

use crate::node::Node;
use crate::nodes::first_value;
use crate::tree::Tree;
use std::marker::Model;

/// The items of an array from one on. A clause sees them as `serde_json` reads them.
#[derive(Drop)]
pub struct Items<'t, 'a> {
    /// Those of the array's items, and no more.
    nodes: &'t [Node],
    texts: &'t [&'a str],
    /// Where the next item begins.
    at: usize,
}

impl<'t, 'a> Model for Items<'t, 'a> {
    ghost use Rattle.serde_json.specs.Data.{Items as SpecItems};
    ghost use Rattle.json_trees.specs.DataCode.{items_code};

    ghost Value = { SpecItems };

    ghost coded = { items_code };

    ghost use Rattle.std.specs.Prelude.{drop};
    ghost use Rattle.json_trees.specs.Cells.{items_at, HoldsItems};

    ghost view = { λ a. items_at a.texts.now (drop a.at a.nodes.now) };

    ghost invariant = { λ a. HoldsItems a.texts.now (drop a.at a.nodes.now) };
}

impl<'t, 'a> Items<'t, 'a> {
    /// The items of these nodes.
    #[inline(always)]
    pub(crate) fn of_nodes(nodes: &'t [Node], texts: &'t [&'a str]) -> Items<'t, 'a>
        requires { HoldsItems texts.now nodes.now }
        ensures { result ≡ items_at texts.now nodes.now }
    {
        Items {
            nodes,
            texts,
            at: 0,
        }
    }

    /// No items.
    #[inline(always)]
    pub fn none() -> Items<'t, 'a>
        ensures { result ≡ no_items }
    {
        Items {
            nodes: &[],
            texts: &[],
            at: 0,
        }
    }

    /// The next item, and none at the end.
    #[inline(always)]
    pub fn next(&mut self) -> Option<Tree<'t, 'a>>
        ensures value { MatchOption result ((self.old ≡ no_items) × (self.new ≡ self.old)) (λ tree. self.old ≡ item tree self.new) }
        ensures shorter { OnSome result (items_len self.new < items_len self.old) }
    {
        let (nodes, at) = (self.nodes, self.at);
        if at >= nodes.len() {
            return None;
        }
        let value = first_value(&nodes[at..]);
        self.at = at + value.len();
        Some(Tree::of_nodes(value, self.texts))
    }
}
