//! What is compared when a desk is closed.
ghost use Rattle.std.specs.Prelude.{◌≡◌, ◌≤◌, ◌↔◌, All, IsTrue, MatchBool, length};
ghost use Rattle.desk.specs.Closing.{Agrees, GoesWith, HaveOwnNumbers, IsClosed, IsTorn};

use crate::client::Client;
use crate::front::Front;
use crate::name::Naming;
use crate::shared::{Shared, tally};
use session_core::{Entry, Table};
use std::marker::Model;
use std::sync::Wait;
use version_store::StateRepresentation;

/// The entries of a closed desk, in order.
#[derive(Drop)]
pub struct Log<R: StateRepresentation> {
    table: Table<R>,
}

impl<R: StateRepresentation> Model for Log<R> {
    ghost use Rattle.std.specs.Coded.{codes};
    ghost use Rattle.act_expr.specs.ExpressionCode.{coded_expression};
    ghost use Rattle.session_core.specs.TableView.{TableView};

    ghost Value = { TableView };

    ghost coded = { Prim.hlevel (codes, coded_expression) };

    ghost view = { λ l. l.table };
}

impl<R: StateRepresentation> Log<R> {
    pub(crate) fn of(table: Table<R>) -> Log<R>
        ensures { result ≡ table }
    {
        Log { table }
    }

    /// What was asked and answered, in order.
    pub fn entries(&self) -> &[Entry]
        ensures { result.now ≡ self.now.history }
    {
        self.table.history()
    }
}

/// Whether each client's calls are what the log has of it.
pub(crate) fn agree<N: Naming, R: StateRepresentation>(
    clients: &[Client<N, R>],
    log: &[Entry],
) -> bool
    ensures { IsTrue result ↔ All (Agrees log.now) clients.now }
{
    clients.iter().all(|client| client.agrees(log))
}

/// Whether no two clients have one number.
pub(crate) fn have_own_numbers<N: Naming, R: StateRepresentation>(clients: &[Client<N, R>]) -> bool
    ensures { IsTrue result ↔ HaveOwnNumbers clients.now }
{
    let [client, others @ ..] = clients else {
        return true;
    };
    let number = client.number();
    others.iter().all(|other| other.number() != number) && have_own_numbers(others)
}

/// Each client's versions agree with this front, as far as both go, by the rule of the archive. The call is there for the
/// proof alone.
pub(crate) fn go_with<N: Naming, R: StateRepresentation>(
    clients: &[Client<N, R>],
    front: &Front<N, R>,
)
    ensures { All (GoesWith front.now) clients.now }
{
    for client in clients {
        client.goes_with(front);
    }
}

/// Whether clients, of whom none is missing, are those that were started, each with the calls that the log has of it.
pub(crate) fn may_end<N: Naming, R: StateRepresentation, W: Wait + Drop>(
    shared: &mut Shared<N, R, W>,
    clients: &mut [Client<N, R>],
    started: usize,
) -> bool
    requires started { started ≡ N.parts }
    requires complete { started ≤ length clients.old }
    ensures ends { MatchBool result (IsClosed shared.old clients.old) (IsTorn N.opening N.parts clients.old) }
    ensures table { shared.new ≡ shared.old }
    ensures clients { clients.new ≡ clients.old }
{
    if clients.len() > started {
        return false;
    }
    if !have_own_numbers(clients) {
        return false;
    }
    tally(&mut shared.entries, clients, &mut shared.rest);
    go_with(clients, &shared.front);
    agree(clients, shared.table.history())
}
