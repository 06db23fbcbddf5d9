//! The parts of a summary, as values of JSON.
ghost use Rattle.std.specs.Prelude.{◌≡◌, IfOk};
ghost use Rattle.serde_json.specs.View.{view};
ghost use Rattle.fleet_text.specs.Json.{failure_json, failures_json, group_json, grouped_json, groups_json, part_json, replies_json};

use crate::fault::WriteFault;
use crate::histogram::histogram_value;
use crate::naming::{put_name, put_optional_name};
use crate::part::PartSummary;
use fleet_summary::{Failure, FailureCounts, GroupBy, GroupCounts, Groups, Name, Replies};
use json_objects::Object;
use serde_json::Value;
use std::alloc::{AllocError, Global};

fn group_value(alloc: Global, name: &Name, counts: &GroupCounts) -> Result<Value, WriteFault>
    ensures { IfOk result (λ value. view value ≡ group_json (name.now, counts.now)) }
{
    let mut object = Object::new(alloc);
    put_name(&mut object, "name", name)?;
    object.count("traces", counts.traces)?;
    object.count("spans", counts.spans)?;
    object.count("paths", counts.paths)?;
    object.count("sooner", counts.sooner)?;
    object.value("ran", histogram_value(alloc, &counts.ran)?)?;
    object.value("queued", histogram_value(alloc, &counts.queued)?)?;
    object.value("times", histogram_value(alloc, &counts.times)?)?;
    object.value("timesThen", histogram_value(alloc, &counts.times_then)?)?;
    Ok(object.into_value())
}

fn groups_value(alloc: Global, groups: &Groups) -> Result<Value, WriteFault>
    ensures { IfOk result (λ value. view value ≡ groups_json groups.now) }
{
    let mut values = Vec::new(alloc);
    for (name, counts) in groups.by_name() {
        let value = group_value(alloc, name, counts)?;
        serde_json::push(&mut values, value)?;
    }
    Ok(Value::from(values))
}

fn failure_value(alloc: Global, failure: &Failure, replies: u64) -> Result<Value, WriteFault>
    ensures { IfOk result (λ value. view value ≡ failure_json (failure.now, replies)) }
{
    let mut object = Object::new(alloc);
    put_name(&mut object, "exception", &failure.exception)?;
    put_name(&mut object, "group", &failure.group)?;
    object.count("replies", replies)?;
    Ok(object.into_value())
}

fn failures_value(alloc: Global, failures: &FailureCounts) -> Result<Value, WriteFault>
    ensures { IfOk result (λ value. view value ≡ failures_json failures.now) }
{
    let mut values = Vec::new(alloc);
    for (failure, replies) in failures.by_failure() {
        let value = failure_value(alloc, failure, *replies)?;
        serde_json::push(&mut values, value)?;
    }
    Ok(Value::from(values))
}

fn replies_value(alloc: Global, replies: &Replies) -> Result<Value, AllocError>
    ensures { IfOk result (λ value. view value ≡ replies_json replies.now) }
{
    let mut object = Object::new(alloc);
    object.count("count", replies.count)?;
    object.count("failed", replies.failed)?;
    object.value("times", histogram_value(alloc, &replies.times)?)?;
    Ok(object.into_value())
}

/// By what the spans are grouped.
fn grouped_value(alloc: Global, by: GroupBy) -> Result<Value, AllocError>
    ensures { IfOk result (λ value. view value ≡ grouped_json by) }
{
    match by {
        GroupBy::Span => Value::try_from_str(alloc, "span"),
        GroupBy::Service => Value::try_from_str(alloc, "service"),
    }
}

/// A summary and what it is of.
pub(crate) fn part_value(alloc: Global, part: &PartSummary) -> Result<Value, WriteFault>
    ensures { IfOk result (λ value. view value ≡ part_json part.now) }
{
    let PartSummary { basis, summary } = part;
    let mut object = Object::new(alloc);
    object.count("whatif-fleet", 2)?;
    object.value("by", grouped_value(alloc, basis.by)?)?;
    put_optional_name(&mut object, "reply", &basis.reply)?;
    put_optional_name(&mut object, "unit", &basis.unit)?;
    put_optional_name(&mut object, "try", &basis.tried)?;
    object.value("replies", replies_value(alloc, &summary.replies)?)?;
    object.value("groups", groups_value(alloc, &summary.groups)?)?;
    object.value("failures", failures_value(alloc, &summary.failures)?)?;
    Ok(object.into_value())
}
