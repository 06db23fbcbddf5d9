//! The processes of a trace, and their clocks.
ghost use Rattle.std.specs.Prelude.{◌≡◌, IfOk, Some, option_map};
ghost use Rattle.serde_json.specs.Find.{get};
ghost use Rattle.trace_spans.specs.declared.member.Member.TheVariants as member;
ghost use Rattle.trace_spans.specs.Members.{object_in, unless_null};
ghost use Rattle.trace_spans.specs.Processes.{IsClockOf, clock_by, clock_of_process, tag_of_process};
ghost use Rattle.trace_spans.specs.Reads.{IsRead, IsReadAs};

use crate::clock::Clock;
use crate::exception::{tag_with_key, text_of_tag};
use crate::fault::Fault;
use crate::member::Member;
use crate::object::{item_object, member, text_or_empty};
use crate::tags::TagForm;
use json_trees::Tree;
use std::alloc::{AllocError, Global};
use std::collections::BTreeMap;
use std::marker::Model;

/// A tag of a process, which is empty where it has none of that key that is a text.
#[tactic(auto, unfolding(crate::specs::Processes::tag_of_process))]
fn tag_of<'a>(process: &Tree<'_, 'a>, key: &str) -> Result<&'a str, Fault>
    ensures { IsReadAs (λ text. text.now) result (tag_of_process key.now process.now) }
{
    let tag = tag_with_key(process, Member::Tags, key)?;
    Ok(text_of_tag(TagForm::Jaeger, &tag))
}

/// The clock of a process.
#[tactic(auto, unfolding(crate::specs::Processes::clock_of_process))]
pub(crate) fn clock_of(alloc: Global, process: &Tree<'_, '_>) -> Result<Clock, Fault>
    ensures { IsRead result (clock_of_process process.now) }
{
    item_object(process, Member::Processes)?;
    let service = text_or_empty(process, Member::ServiceName)?;
    let instance = tag_of(process, "hostname")?;
    let host = tag_of(process, "ip")?;
    Ok(Clock::new(alloc, service, instance, host)?)
}

/// The clock of a process, or the member for which that is refused.
fn clock_told(alloc: Global, told: &Tree<'_, '_>) -> Result<Result<Clock, Member>, AllocError>
    ensures { IfOk result (λ clock. IsClockOf clock told.now) }
{
    match clock_of(alloc, told) {
        Ok(clock) => Ok(Ok(clock)),
        Err(Fault::Shape(misshapen)) => Ok(Err(misshapen.member())),
        Err(_) => Err(AllocError),
    }
}

/// A process of a trace, with its clock. A contract sees how it is told.
///
/// Many spans may name one process: its members are looked through once, and not again for each span.
#[derive(Drop)]
pub(crate) struct Process<'t, 'a> {
    told: Tree<'t, 'a>,
    clock: Result<Clock, Member>,
}

impl<'t, 'a> Model for Process<'t, 'a> {
    ghost use Rattle.serde_json.specs.Data.{Data};
    ghost use Rattle.json_trees.specs.DataCode.{data_code};

    ghost Value = { Data };

    ghost coded = { data_code };

    ghost use Rattle.trace_spans.specs.Processes.{IsClockOf};

    ghost view = { λ process. process.told };

    ghost invariant = { λ process. IsClockOf process.clock process.told };
}

impl<'t, 'a> Process<'t, 'a> {
    /// The process that is told so.
    fn of(alloc: Global, told: Tree<'t, 'a>) -> Result<Process<'t, 'a>, AllocError>
        ensures { IfOk result (λ process. process ≡ told.entry) }
    {
        let clock = clock_told(alloc, &told)?;
        Ok(Process { told, clock })
    }

    /// The clock, of which no part is told where the process is null. What is wrong with a process is a fault of the
    /// span that names it.
    pub(crate) fn clock(&self, alloc: Global) -> Result<Clock, Fault>
        ensures { IsRead result (clock_by (unless_null self.now)) }
    {
        if self.told.is_null() {
            return Ok(Clock::new(alloc, "", "", "")?);
        }
        match &self.clock {
            Ok(clock) => Ok(clock.share()?),
            Err(asked) => Err(Fault::of_shape(*asked)),
        }
    }
}

/// The processes of a trace with their clocks, by their names. A contract sees the object that they are in.
///
/// Each span names a process, and a look-up in the object itself walks all its members. In the map it doesn't, whatever
/// the names are.
#[derive(Drop)]
pub(crate) struct Processes<'t, 'a> {
    by_name: BTreeMap<&'a str, Process<'t, 'a>>,
}

impl<'t, 'a> Model for Processes<'t, 'a> {
    ghost use Rattle.serde_json.specs.Data.{Data, object};
    ghost use Rattle.json_trees.specs.DataCode.{data_code};

    ghost Value = { Data };

    ghost coded = { data_code };

    ghost use Rattle.trace_spans.specs.Processes.{members_from};

    ghost view = { λ processes. object (members_from processes.by_name.entries) };
}

impl<'t, 'a> Processes<'t, 'a> {
    /// The processes of a trace, if it has some. Of those with one name the last stays.
    #[tactic(auto, unfolding(crate::specs::Members::object_in))]
    pub(crate) fn of_trace(
        alloc: Global,
        trace: &Tree<'t, 'a>,
    ) -> Result<Option<Processes<'t, 'a>>, Fault>
        ensures { IsRead result (object_in member.Processes trace.now) }
    {
        let Some(value) = member(trace, Member::Processes) else {
            return Ok(None);
        };
        let Some(mut members) = value.members() else {
            return Err(Fault::of_shape(Member::Processes));
        };
        let mut by_name = BTreeMap::new(alloc);
        while let Some((name, told)) = members.next() {
            let process = Process::of(alloc, told)?;
            if by_name.insert(name, process).is_err() {
                return Err(Fault::Memory);
            }
        }
        Ok(Some(Processes { by_name }))
    }

    /// The process of that name.
    pub(crate) fn get(&self, name: &str) -> Option<&Process<'t, 'a>>
        ensures { option_map (λ process. process.now) result ≡ get name.now self.now }
    {
        self.by_name.get(name)
    }
}
