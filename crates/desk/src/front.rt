//! What any thread knows of the list of versions: a prefix of it.
ghost use Rattle.std.specs.Prelude.{◌≡◌, ◌==◌, ◌+◌, ◌<◌, ◌≤◌, ◌^◌, ◌++◌, ◌∷◌, ◌⊎◌, [], length, MatchBool};
ghost use mathlib.Core.List.{IsPrefix};
ghost use Rattle.desk.specs.Archive.{head_of};

use crate::name::Naming;
use logbook::{Gain, Offer, Plain, Play, Rule, Seen, Start, Word};
use std::marker::{Model, PhantomData};
use version_store::{StateRepresentation, Version};

/// The rule of the archive.
pub(crate) struct Law;

impl<R: StateRepresentation> Rule<Version<R>, u64> for Law {
    ghost use Rattle.std.specs.Prelude.{[]};
    ghost use base.Fml.{ftrue};
    ghost use Rattle.desk.specs.Archive.{IsCounted};

    ghost holds = { λ cells log. IsCounted cells log };

    ghost first = { [] };

    ghost hinted = { λ n log. Unit {0} };

    ghost shows = { λ log. [] };

    ghost keeps = { λ names log. ftrue };

    ghost moves = { λ ask before after answer. Unit {0} };
}

/// Nothing is traded.
struct Nothing;

impl<R: StateRepresentation> Gain<Version<R>, u64> for Nothing {
    ghost use base.Fml.{ftrue};

    ghost after = { λ names about answer. ftrue };
}

/// A step that adds a version.
struct Add;

impl<R: StateRepresentation> Play<Version<R>, u64> for Add {
    ghost use Rattle.desk.specs.Archive.{Adds};

    ghost then = { Adds };
}

impl<R: StateRepresentation> Plain<Version<R>, Version<R>, u64> for Add {
    ghost use Rattle.std.specs.Prelude.{None};

    ghost ask = { λ version. version };

    ghost state = { λ version. None };
}

/// The word that counts the versions of a desk.
#[derive(Drop)]
pub(crate) struct Archive<N: Naming, R: StateRepresentation> {
    head: Word<Version<R>, u64, Law>,
    of: PhantomData<N>,
    ghost head_is: { head ≡ head_of N.book },
}

/// The prefix of a desk's list of versions that was seen. Copying it allocates nothing.
#[derive(Drop)]
pub(crate) struct Front<N: Naming, R: StateRepresentation> {
    count: u64,
    seen: Seen<Version<R>, u64, Law>,
    of: PhantomData<N>,
}

impl<N: Naming, R: StateRepresentation> Model for Front<N, R> {
    ghost use Rattle.std.specs.Prelude.{◌≡◌, List, length};
    ghost use Rattle.std.specs.Coded.{codes};
    ghost use Rattle.act_expr.specs.ExpressionCode.{coded_expression};
    ghost use Rattle.version_store.specs.Plain.{PlainVersion};

    ghost Value = { List PlainVersion };

    ghost coded = { Prim.hlevel (codes, coded_expression) };

    ghost view = { λ f. f.seen.log };

    ghost invariant = { λ f. (f.count ≡ length f.seen.log) × (f.seen.book ≡ N.book) };
}

/// An archive with no version, which has no name yet.
#[derive(Drop)]
pub struct NewArchive<R: StateRepresentation> {
    head: Word<Version<R>, u64, Law>,
    seen: Seen<Version<R>, u64, Law>,
    pub ghost empty: { seen.log ≡ [] },
    pub ghost head_is: { head ≡ head_of seen.book },
}

impl<R: StateRepresentation> NewArchive<R> {
    pub fn new() -> NewArchive<R> {
        let (seen, mut first, _second) = Seen::open(Start::alone(), 0, 0);
        NewArchive {
            head: Word::tracked(0, &mut first),
            seen,
        }
    }

    /// The archive under a name, and the front that has seen nothing.
    pub(crate) fn named<N: Naming>(self) -> (Archive<N, R>, Front<N, R>)
        requires { self.seen.book ≡ N.book }
        ensures { result.1 ≡ [] }
    {
        let NewArchive { head, seen } = self;
        (
            Archive {
                head,
                of: PhantomData,
            },
            Front {
                count: 0,
                seen,
                of: PhantomData,
            },
        )
    }
}

impl<N: Naming, R: StateRepresentation> Front<N, R> {
    /// How many versions it has.
    pub(crate) fn len(&self) -> u64
        ensures { result ≡ length self.now }
    {
        self.count
    }

    /// A copy.
    pub(crate) fn again(&self) -> Front<N, R>
        ensures { result ≡ self.now }
    {
        Front {
            count: self.count,
            seen: self.seen.again(),
            of: PhantomData,
        }
    }

    /// The longer of two fronts, of which the other is a prefix.
    pub(crate) fn longer(&self, other: &Front<N, R>) -> Front<N, R>
        ensures one { (result ≡ self.now) ⊎ (result ≡ other.now) }
        ensures this { IsPrefix self.now result }
        ensures that { IsPrefix other.now result }
    {
        let mut both = self.seen.again();
        both.learn(&other.seen);
        if self.count < other.count {
            other.again()
        } else {
            self.again()
        }
    }

    /// Adds a version after all that was seen, and says whether it did. It did not if the list is longer.
    pub(crate) fn add(&mut self, archive: &Archive<N, R>, version: &Version<R>) -> bool
        requires { length self.old < 2 ^ 62 }
        ensures { MatchBool result (self.new ≡ self.old ++ version.now ∷ []) (length self.old < length self.new) }
    {
        let mut offer: Offer<Version<R>, u64, Law, Nothing> = self
            .seen
            .plain::<Nothing, Version<R>, Add>(version);
        let mut pen = self.seen.no_pen();
        let count = self.count;
        let found = archive
            .head
            .compare_exchange::<Add, Nothing>(
                count,
                count + 1,
                &mut self.seen,
                &mut offer,
                &mut pen,
            );
        self.count = if found == count { count + 1 } else { found };
        found == count
    }
}
