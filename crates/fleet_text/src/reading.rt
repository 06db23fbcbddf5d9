//! A summary, from its text.
ghost use Rattle.std.specs.Prelude.{◌≡◌, ◌^◌, ◌<◌, Ok, Some, IfOk, codes};
ghost use Rattle.serde_json.specs.Data.{Data};
ghost use Rattle.serde_json.specs.Find.{get};
ghost use Rattle.serde_json.specs.Read.{read};
ghost use Rattle.serde_json.specs.View.{view};
ghost use Rattle.fleet_summary.specs.declared.replies.Replies.{Replies};
ghost use Rattle.fleet_summary.specs.declared.summary.Summary.{Summary};
ghost use Rattle.fleet_summary.specs.Counters.{IsSound};
ghost use Rattle.fleet_summary.specs.Histogram.{IsHistogram};
ghost use Rattle.fleet_text.specs.declared.basis.Basis.{Basis};
ghost use Rattle.fleet_summary.specs.declared.group_by.GroupBy.{GroupBy};
ghost use Rattle.fleet_text.specs.declared.part.PartSummary.{PartSummary};
ghost use Rattle.fleet_text.specs.Back.{IsReadAs};
ghost use Rattle.fleet_text.specs.Json.{grouped_json};
ghost use Rattle.json_objects.specs.Objects.{count_json};
ghost use Rattle.fleet_text.specs.Says.{SaysBasis, SaysPart, SaysReplies, SaysSummary};

use crate::basis::Basis;
use crate::members::{count_of, member_of, optional_text_of};
use crate::part::PartSummary;
use crate::read_fault::ReadFault;
use crate::reading_failures::failures_in;
use crate::reading_groups::groups_in;
use crate::reading_histogram::histogram_of;
use fleet_summary::{GroupBy, Replies, Summary};
use serde_json::Value;
use std::alloc::Global;

/// By what the spans are grouped.
fn grouped_by(value: &Value) -> Result<GroupBy, ReadFault>
    ensures said { IfOk result (λ by. get (codes "by") (view value.now) ≡ Some (grouped_json by)) }
    ensures back { (by : GroupBy) → get (codes "by") (view value.now) ≡ Some (grouped_json by) → result ≡ Ok by }
{
    match member_of(value, "by")?.as_str() {
        Some("span") => Ok(GroupBy::Span),
        Some("service") => Ok(GroupBy::Service),
        _ => Err(ReadFault::Member),
    }
}

fn basis_in(alloc: Global, value: &Value) -> Result<Basis, ReadFault>
    ensures said { IfOk result (SaysBasis (view value.now)) }
    ensures back { (basis : Basis) → SaysBasis (view value.now) basis → IsReadAs result basis }
{
    Ok(Basis {
        by: grouped_by(value)?,
        reply: optional_text_of(alloc, value, "reply")?,
        unit: optional_text_of(alloc, value, "unit")?,
        tried: optional_text_of(alloc, value, "try")?,
    })
}

fn replies_in(alloc: Global, value: &Value) -> Result<Replies, ReadFault>
    ensures times { IfOk result (λ replies. IsHistogram replies.times) }
    ensures count { IfOk result (λ replies. replies.count < 2 ^ 64) }
    ensures failed { IfOk result (λ replies. replies.failed < 2 ^ 64) }
    ensures said { IfOk result (SaysReplies (view value.now)) }
    ensures back { (replies : Replies) → IsHistogram replies.times → SaysReplies (view value.now) replies → IsReadAs result replies }
{
    Ok(Replies {
        count: count_of(value, "count")?,
        failed: count_of(value, "failed")?,
        times: histogram_of(alloc, value, "times")?,
    })
}

fn summary_in(alloc: Global, value: &Value) -> Result<Summary, ReadFault>
    ensures sound { IfOk result IsSound }
    ensures said { IfOk result (SaysSummary (view value.now)) }
    ensures back { (summary : Summary) → IsSound summary → SaysSummary (view value.now) summary → IsReadAs result summary }
{
    Ok(Summary {
        replies: replies_in(alloc, member_of(value, "replies")?)?,
        groups: groups_in(alloc, member_of(value, "groups")?)?,
        failures: failures_in(alloc, member_of(value, "failures")?)?,
    })
}

/// Whether the JSON is a summary in form 2.
fn check_form(value: &Value) -> Result<(), ReadFault>
    ensures said { IfOk result (λ _. get (codes "whatif-fleet") (view value.now) ≡ Some (count_json 2)) }
    ensures back { get (codes "whatif-fleet") (view value.now) ≡ Some (count_json 2) → result ≡ Ok tt }
{
    match value.get("whatif-fleet").and_then(Value::as_u64) {
        Some(2) => Ok(()),
        Some(_) => Err(ReadFault::OtherForm),
        None => Err(ReadFault::NoSummary),
    }
}

fn part_in(alloc: Global, value: &Value) -> Result<PartSummary, ReadFault>
    ensures sound { IfOk result (λ part. IsSound part.summary) }
    ensures said { IfOk result (SaysPart (view value.now)) }
    ensures back { (part : PartSummary) → IsSound part.summary → SaysPart (view value.now) part → IsReadAs result part }
{
    check_form(value)?;
    Ok(PartSummary {
        basis: basis_in(alloc, value)?,
        summary: summary_in(alloc, value)?,
    })
}

/// Reads a summary from its text: the text of a JSON object that says it. A member that a summary has not is passed over.
///
/// Errors: `NotJson`; `NoSummary` where the JSON has no form; `OtherForm` where that is not 2; `Member` where a member is missing
/// or of another kind; `Unsound` where no parts of traces come to what it says; `Memory`.
pub fn read_summary(alloc: Global, text: &str) -> Result<PartSummary, ReadFault>
    ensures sound { IfOk result (λ part. IsSound part.summary) }
    ensures said { IfOk result (λ part. (d : Data) × (read text.now ≡ Some d) × SaysPart d part) }
    ensures back { (part : PartSummary) (d : Data) → IsSound part.summary → read text.now ≡ Some d → SaysPart d part → IsReadAs result part }
{
    match Value::from_str(alloc, text) {
        Ok(value) => part_in(alloc, &value),
        Err(error) if error.is_memory() => Err(ReadFault::Memory),
        Err(_) => Err(ReadFault::NotJson),
    }
}
