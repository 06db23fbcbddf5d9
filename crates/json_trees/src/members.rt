//! The members of an object.
ghost use Rattle.std.specs.Prelude.{◌≡◌, ◌<◌, [], ◌∷◌, length, Some, None, MatchOption, OnSome};
ghost use Rattle.json_trees.specs.Cells.{members_at, HoldsMembers};

use crate::node::Node;
use crate::nodes::first_value;
use crate::tree::Tree;
use std::marker::Model;

/// The members of an object from one on. A clause sees their names, and their values as `serde_json` reads them.
#[derive(Drop)]
pub struct Members<'t, 'a> {
    /// Those of the object's members, and no more.
    nodes: &'t [Node],
    texts: &'t [&'a str],
    /// Where the next member begins.
    at: usize,
}

impl<'t, 'a> Model for Members<'t, 'a> {
    ghost use Rattle.std.specs.Prelude.{ℕ, List, drop};
    ghost use Rattle.serde_json.specs.Data.{Data};
    ghost use Rattle.json_trees.specs.Named.{members_code};

    ghost Value = { List (List ℕ × Data) };

    ghost coded = { members_code };

    ghost use Rattle.json_trees.specs.Cells.{members_at, HoldsMembers};

    ghost view = { λ a. members_at a.texts.now (drop a.at a.nodes.now) };

    ghost invariant = { λ a. HoldsMembers a.texts.now (drop a.at a.nodes.now) };
}

impl<'t, 'a> Members<'t, 'a> {
    /// The members of these nodes.
    #[inline(always)]
    pub(crate) fn of_nodes(nodes: &'t [Node], texts: &'t [&'a str]) -> Members<'t, 'a>
        requires { HoldsMembers texts.now nodes.now }
        ensures { result ≡ members_at texts.now nodes.now }
    {
        Members {
            nodes,
            texts,
            at: 0,
        }
    }

    /// The next member, and none at the end.
    #[inline(always)]
    pub fn next(&mut self) -> Option<(&'a str, Tree<'t, 'a>)>
        ensures value { MatchOption result ((self.old ≡ []) × (self.new ≡ self.old)) (λ m. self.old ≡ (m.0.now, m.1) ∷ self.new) }
        ensures shorter { OnSome result (length self.new < length self.old) }
    {
        let (nodes, at) = (self.nodes, self.at);
        if at >= nodes.len() {
            return None;
        }
        let Some(name) = nodes[at].as_key(self.texts) else {
            unreachable!()
        };
        let value = first_value(&nodes[at + 1..]);
        self.at = at + 1 + value.len();
        Some((name, Tree::of_nodes(value, self.texts)))
    }
}
