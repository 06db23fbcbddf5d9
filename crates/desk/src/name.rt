//! The identity of a desk.
ghost use Rattle.std.specs.Prelude.{ℕ};

use std::marker::Brand;
use std::sync::ledger::Ledger;

/// The identity of a desk. Whoever starts a desk picks it.
pub trait Naming: Ledger {
    /// How many clients it has.
    ghost clients: { ℕ };

    ghost use Rattle.logbook.specs.Pages.{Book};

    /// Where its versions are listed.
    ghost book: { Book };

    ghost use Rattle.session_core.specs.Machine.{State};

    /// The state that its table begins with.
    ghost opening: { State };
}

impl Naming for Brand {
    ghost use Rattle.std.specs.Prelude.{[]};

    ghost clients = { 0 };

    ghost book = { record { number = 0; log_name = 0; cells_name = 0 } };

    ghost opening = { record { versions = []; most = 0; sessions = [] } };
}
