//! What a call is to.
ghost use Rattle.std.specs.Prelude.{◌≡◌, ◌↔◌, [], ◌∷◌, ◌++◌, OnOk, OnErr, IsTrue};

use crate::text::Text;
use std::alloc::{AllocError, Global};
use std::marker::Model;

/// An attribute of a span that tells what it called.
#[derive(Clone, Copy, PartialEq, Eq, PartialOrd, Ord, Hash, Debug)]
pub enum Attribute {
    UrlFull,
    HttpUrl,
    UrlPath,
    HttpTarget,
    DbQueryText,
    DbStatement,
    RpcMethod,
    ServerAddress,
    NetPeerName,
    PeerService,
    MessagingDestinationName,
}

/// The text of such an attribute.
#[derive(Drop, Debug)]
pub struct Aim {
    pub attribute: Attribute,
    pub text: Text,
}

impl Aim {
    /// Whether two attributes and their texts are the same.
    fn same(&self, other: &Aim) -> bool
        ensures { IsTrue result ↔ (self.now ≡ other.now) }
    {
        self.attribute == other.attribute && self.text.same(&other.text)
    }
}

/// What a span called: those of the attributes that it has, in the order of `Attribute`. Two calls with the same target
/// are to the same thing.
#[derive(Drop, Debug)]
pub struct Target {
    aims: Vec<Aim>,
}

impl Model for Target {
    ghost use Rattle.std.specs.Prelude.{List};
    ghost use Rattle.trace_spans.specs.declared.target.Aim.{Aim};

    ghost Value = { List Aim };

    ghost view = { λ target. target.aims.items };
}

impl Target {
    /// A target of which nothing is told.
    pub fn new(alloc: Global) -> Target
        ensures { result ≡ [] }
    {
        Target {
            aims: Vec::new(alloc),
        }
    }

    /// Adds an attribute at the end; where memory is out the target stays as it is.
    pub(crate) fn push(&mut self, aim: Aim) -> Result<(), AllocError>
        ensures added { OnOk result (self.new ≡ self.old ++ aim ∷ []) }
        ensures kept { OnErr result (self.new ≡ self.old) }
    {
        self.aims.push(aim)?;
        Ok(())
    }

    /// The attributes that are told, in order.
    pub fn as_slice(&self) -> &[Aim]
        ensures { result.now ≡ self.now }
    {
        self.aims.as_slice()
    }

    /// Whether two targets are the same.
    pub fn same(&self, other: &Target) -> bool
        ensures { IsTrue result ↔ (self.now ≡ other.now) }
    {
        let aims = self.as_slice();
        let others = other.as_slice();
        if aims.len() != others.len() {
            return false;
        }
        for place in 0..aims.len() {
            if !aims[place].same(&others[place]) {
                return false;
            }
        }
        true
    }
}
