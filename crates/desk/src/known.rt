//! Versions that are known to stand in a desk's list.
ghost use Rattle.std.specs.Prelude.{◌≡◌, Some, IfOk, slice_get};
ghost use mathlib.Core.List.{IsPrefix};

use crate::front::Front;
use crate::name::Naming;
use share_tree::Again;
use std::alloc::AllocError;
use std::marker::Model;
use std::ops::Deref;
use version_store::{StateRepresentation, Version};

/// A version that stands in a desk's list under its number. Contracts see the version.
#[derive(Drop)]
pub struct Known<N: Naming, R: StateRepresentation> {
    version: Version<R>,
    front: Front<N, R>,
}

impl<N: Naming, R: StateRepresentation> Model for Known<N, R> {
    ghost use Rattle.std.specs.Prelude.{◌≡◌, Some, slice_get};
    ghost use Rattle.std.specs.Coded.{codes};
    ghost use Rattle.act_expr.specs.ExpressionCode.{coded_expression};
    ghost use Rattle.version_store.specs.Plain.{PlainVersion};

    ghost Value = { PlainVersion };

    ghost coded = { Prim.hlevel (codes, coded_expression) };

    ghost view = { λ known. known.version };

    ghost invariant = { λ known. slice_get known.front known.version.number ≡ Some known.version };
}

impl<N: Naming, R: StateRepresentation> Known<N, R> {
    pub(crate) fn new(version: Version<R>, front: &Front<N, R>) -> Known<N, R>
        requires { slice_get front.now version.number ≡ Some version }
        ensures { result ≡ version }
    {
        Known {
            version,
            front: front.again(),
        }
    }

    /// A clone of the version. Out of memory is the only error.
    pub fn again(&self) -> Result<Known<N, R>, AllocError>
        ensures { IfOk result (λ same. same ≡ self.now) }
    {
        Ok(Known {
            version: self.version.again()?,
            front: self.front.again(),
        })
    }

    /// Extends the front up to where the version stands.
    pub(crate) fn show(&self, front: &mut Front<N, R>)
        ensures seen { slice_get front.new self.now.number ≡ Some self.now }
        ensures later { IsPrefix front.old front.new }
    {
        *front = front.longer(&self.front);
    }
}

impl<N: Naming, R: StateRepresentation> Deref for Known<N, R> {
    type Target = Version<R>;

    ghost deref_gives = { λ known version. version ≡ known };

    fn deref(&self) -> &Version<R>
        ensures { result.now ≡ self.now }
    {
        &self.version
    }
}
