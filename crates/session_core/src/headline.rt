//! What every list of steps leads to, proved.
ghost use Rattle.std.specs.Prelude.{◌≡◌, ℕ, List, Some, IsSome};
ghost use Rattle.stage_graph.specs.Plain.{PlainGraph};
ghost use Rattle.stage_graph.specs.Sound.{IsSound};
ghost use Rattle.stage_graph.specs.Walk.{IsRanked};
ghost use Rattle.version_store.specs.Plain.{opening_version};
ghost use Rattle.session_core.specs.Machine.{State, opening, book, step};
ghost use Rattle.session_core.specs.Runs.{Runs};
ghost use Rattle.session_core.specs.Headline.{LeadsTo};
ghost use Rattle.session_core.specs.TableView.{TableView};
ghost use Rattle.session_core.specs.declared.event.Event.{Event};
ghost use Rattle.session_core.specs.declared.event.Reply.{Reply};
ghost use Rattle.session_core.specs.declared.event.Reply.TheVariants.{Refused};
ghost use Rattle.session_core.specs.declared.refusal.Refusal.{Refusal};

/// Begin with a sound graph without a cycle, as every loaded one is, and take any list of steps, in any interleaving of
/// sessions. Then each session stands at the version that its accepted edits and undos lead to. The accepted commits
/// made the versions 1, 2 and so on in turn, and nothing else made one: the version that a commit's reply names comes
/// from the commit's base by exactly the commit's edits, and is still there at the end. That base was the version at
/// which the commit's session stood just then, by its own accepted steps so far. Every version's graph is sound and has
/// no cycle, and it is its parent's with one list of edits applied. Every stage's outcome, moment, rank and chain of
/// blame are those of evaluating that graph from scratch, which has one answer. A refused step changes neither versions
/// nor sessions, and neither does a refused call of the table; and each step has a reply.
pub fn every_list_of_steps()
    ensures leads { (graph : PlainGraph) (most : ℕ) (events : List Event) (replies : List Reply) (t u : TableView) → IsSound graph → IsRanked graph.places → t.state ≡ opening (opening_version graph) most → Runs t events replies u → LeadsTo graph events replies u.state }
    ensures refused { (s : State) (event : Event) (refusal : Refusal) (t : State) → step s event ≡ Some (Refused refusal, t) → t ≡ s }
    ensures kept { (s : State) (event : Event) (refusal : Refusal) (t : State) → book s event ≡ Some (Refused refusal, t) → t ≡ s }
    ensures answered { (s : State) (event : Event) → IsSome (step s event) }
{}
