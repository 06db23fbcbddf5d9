//! Ends that are set from outside.
ghost use Rattle.std.specs.Prelude.{◌≡◌, ◌↔◌, [], ◌∷◌, ◌++◌, OnOk, OnErr, IfOk, IsTrue};

use act_expr::{ExName, Value};
use std::alloc::{AllocError, Global};
use std::marker::Model;

/// What an end does to a stage, by the method of `CompletableFuture` that was called.
#[derive(Clone, Copy, PartialEq, Eq, Debug)]
pub enum Act {
    /// `complete` with a value.
    Complete(Value),
    /// `completeExceptionally` with an exception.
    CompleteExceptionally(ExName),
    /// `cancel`.
    Cancel,
    /// `orTimeout`: a timeout after this many ticks.
    OrTimeout { delay: u64 },
    /// `completeOnTimeout` with a value, after this many ticks.
    CompleteOnTimeout { delay: u64, value: Value },
}

/// An end that is set from outside.
#[derive(Clone, Copy, PartialEq, Eq, Debug)]
pub struct End {
    /// The tick at which it is set.
    pub at: u64,
    pub act: Act,
}

impl End {
    /// Whether two ends are the same.
    pub fn same(&self, other: &End) -> bool
        ensures { IsTrue result ↔ (self.now ≡ other.now) }
    {
        self.at == other.at && self.act == other.act
    }
}

/// A list of ends.
#[derive(Drop)]
pub struct Ends {
    items: Vec<End>,
}

impl Model for Ends {
    ghost use Rattle.std.specs.Prelude.{List};
    ghost use Rattle.stage_graph.specs.declared.end.End.{End};

    ghost Value = { List End };

    ghost view = { λ ends. ends.items.items };
}

impl Ends {
    /// No ends.
    pub fn new(alloc: Global) -> Ends
        ensures { result ≡ [] }
    {
        Ends {
            items: Vec::new(alloc),
        }
    }

    /// Adds an end after the others; if out of memory, the ends stay as they are.
    pub fn push(&mut self, end: End) -> Result<(), AllocError>
        ensures added { OnOk result (self.new ≡ self.old ++ end ∷ []) }
        ensures kept { OnErr result (self.new ≡ self.old) }
    {
        // This line shows the checker the type inside `End`.
        let _act: Act = end.act;
        self.items.push(end)?;
        Ok(())
    }

    /// The ends, in list order.
    pub fn as_slice(&self) -> &[End]
        ensures { result.now ≡ self.now }
    {
        self.items.as_slice()
    }

    /// Whether two lists have the same ends.
    pub fn same(&self, other: &Ends) -> bool
        ensures { IsTrue result ↔ (self.now ≡ other.now) }
    {
        let ends = self.as_slice();
        let others = other.as_slice();
        if ends.len() != others.len() {
            return false;
        }
        for at in 0..ends.len() {
            if !ends[at].same(&others[at]) {
                return false;
            }
        }
        true
    }

    /// A clone of the ends.
    pub fn again(&self) -> Result<Ends, AllocError>
        ensures { IfOk result (λ same. same ≡ self.now) }
    {
        Ok(Ends {
            items: Vec::from_slice(*self.items.allocator(), &self.items)?,
        })
    }
}
