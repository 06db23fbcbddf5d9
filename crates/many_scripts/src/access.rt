//! What a client needs for calls of its desk.
ghost use Rattle.std.specs.Prelude.{◌≡◌};

use desk::{Desk, Naming};
use report_form::Form;
use std::alloc::Global;
use std::sync::Wait;
use version_store::StateRepresentation;

/// What a client asks its desk with, and the form in which it tells what comes of it.
#[derive(Drop)]
pub(crate) struct Access<'a, N: Naming, K: StateRepresentation, H: Wait + Drop, W> {
    pub(crate) rt: &'a H,
    pub(crate) alloc: Global,
    pub(crate) desk: &'a Desk<N, K, H>,
    pub(crate) runner: &'a W,
    pub(crate) form: Form,
}

impl<'a, N: Naming, K: StateRepresentation, H: Wait + Drop, W> Access<'a, N, K, H, W> {
    /// The same, where another form is asked for.
    pub(crate) fn in_form(&self, form: Form) -> Access<'a, N, K, H, W>
        ensures { result.form ≡ form }
    {
        Access {
            rt: self.rt,
            alloc: self.alloc,
            desk: self.desk,
            runner: self.runner,
            form,
        }
    }
}
