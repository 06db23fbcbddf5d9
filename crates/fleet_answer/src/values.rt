//! The parts of an answer, as values of JSON.
ghost use Rattle.std.specs.Prelude.{◌≡◌, IfOk};
ghost use Rattle.serde_json.specs.View.{view};
ghost use Rattle.fleet_answer.specs.Json.{answer_json, failure_json, failures_json, group_json, groups_json, maybe_json, replies_json, share_json, shares_json, slowest_json, tried_json, tries_json, try_json};

use crate::answer::Answer;
use crate::rows::{FailureRow, GroupRow, ReplyRow, TryRow};
use crate::shares::{Share, Shares, Slowest};
use json_objects::Object;
use serde_json::Value;
use std::alloc::{AllocError, Global};

/// A number, or null where there is none.
fn maybe_value(number: Option<u64>) -> Value
    ensures { view result ≡ maybe_json number }
{
    match number {
        Some(number) => Value::from(number),
        None => Value::Null,
    }
}

fn replies_value(alloc: Global, row: ReplyRow) -> Result<Value, AllocError>
    ensures { IfOk result (λ value. view value ≡ replies_json row) }
{
    let mut object = Object::new(alloc);
    object.count("count", row.replies)?;
    object.count("failed", row.failed)?;
    object.count("p50", row.times.p50)?;
    object.count("p90", row.times.p90)?;
    object.count("p99", row.times.p99)?;
    object.count("max", row.times.longest)?;
    Ok(object.into_value())
}

fn share_value(alloc: Global, share: Share) -> Result<Value, AllocError>
    ensures { IfOk result (λ value. view value ≡ share_json share) }
{
    let mut object = Object::new(alloc);
    object.count("ran", share.ran)?;
    object.count("queued", share.queued)?;
    Ok(object.into_value())
}

/// What a group did for each of the slowest replies, and of all; null where that was not asked for.
fn shares_value(alloc: Global, shares: Option<Shares>) -> Result<Value, AllocError>
    ensures { IfOk result (λ value. view value ≡ shares_json shares) }
{
    let Some(shares) = shares else {
        return Ok(Value::Null);
    };
    let mut object = Object::new(alloc);
    object.value("slowest", share_value(alloc, shares.slowest)?)?;
    object.value("all", share_value(alloc, shares.all)?)?;
    Ok(object.into_value())
}

fn group_value(alloc: Global, row: &GroupRow) -> Result<Value, AllocError>
    ensures { IfOk result (λ value. view value ≡ group_json row.now) }
{
    let mut object = Object::new(alloc);
    object.text("name", row.name.as_str())?;
    object.count("traces", row.traces)?;
    object.count("spans", row.spans)?;
    object.count("onPath", row.on_path)?;
    object.count("ran", row.ran)?;
    object.count("queued", row.queued)?;
    object.count("sooner", row.sooner)?;
    object.value("p99", maybe_value(row.p99))?;
    object.value("perReply", shares_value(alloc, row.shares)?)?;
    Ok(object.into_value())
}

fn groups_value(alloc: Global, rows: &[GroupRow]) -> Result<Value, AllocError>
    ensures { IfOk result (λ value. view value ≡ groups_json rows.now) }
{
    let mut values = Vec::new(alloc);
    for row in rows {
        let value = group_value(alloc, row)?;
        serde_json::push(&mut values, value)?;
    }
    Ok(Value::from(values))
}

/// How the replies would have come; null where no reply was tried.
fn tried_value(alloc: Global, replies: Option<ReplyRow>) -> Result<Value, AllocError>
    ensures { IfOk result (λ value. view value ≡ tried_json replies) }
{
    match replies {
        Some(row) => replies_value(alloc, row),
        None => Ok(Value::Null),
    }
}

fn try_value(alloc: Global, row: &TryRow) -> Result<Value, AllocError>
    ensures { IfOk result (λ value. view value ≡ try_json row.now) }
{
    let mut object = Object::new(alloc);
    object.text("change", row.change.as_str())?;
    object.value("replies", tried_value(alloc, row.replies)?)?;
    Ok(object.into_value())
}

fn tries_value(alloc: Global, rows: &[TryRow]) -> Result<Value, AllocError>
    ensures { IfOk result (λ value. view value ≡ tries_json rows.now) }
{
    let mut values = Vec::new(alloc);
    for row in rows {
        let value = try_value(alloc, row)?;
        serde_json::push(&mut values, value)?;
    }
    Ok(Value::from(values))
}

/// Which replies are the slowest; null where that was not asked for.
fn slowest_value(alloc: Global, slowest: Option<Slowest>) -> Result<Value, AllocError>
    ensures { IfOk result (λ value. view value ≡ slowest_json slowest) }
{
    let Some(slowest) = slowest else {
        return Ok(Value::Null);
    };
    let mut object = Object::new(alloc);
    object.count("percent", u64::from(slowest.percent))?;
    object.count("replies", slowest.replies)?;
    Ok(object.into_value())
}

fn failure_value(alloc: Global, row: &FailureRow) -> Result<Value, AllocError>
    ensures { IfOk result (λ value. view value ≡ failure_json row.now) }
{
    let mut object = Object::new(alloc);
    object.text("exception", row.exception.as_str())?;
    object.text("group", row.group.as_str())?;
    object.count("replies", row.replies)?;
    Ok(object.into_value())
}

fn failures_value(alloc: Global, rows: &[FailureRow]) -> Result<Value, AllocError>
    ensures { IfOk result (λ value. view value ≡ failures_json rows.now) }
{
    let mut values = Vec::new(alloc);
    for row in rows {
        let value = failure_value(alloc, row)?;
        serde_json::push(&mut values, value)?;
    }
    Ok(Value::from(values))
}

/// An answer.
pub(crate) fn answer_value(alloc: Global, answer: &Answer) -> Result<Value, AllocError>
    ensures { IfOk result (λ value. view value ≡ answer_json answer.now) }
{
    let mut object = Object::new(alloc);
    object.text("report", "fleet")?;
    object.value("replies", replies_value(alloc, answer.replies)?)?;
    object.value("groups", groups_value(alloc, answer.groups.as_slice())?)?;
    object.value("tries", tries_value(alloc, answer.tries.as_slice())?)?;
    object.value("slowest", slowest_value(alloc, answer.slowest)?)?;
    object.value(
        "failures",
        failures_value(alloc, answer.failures.as_slice())?,
    )?;
    Ok(object.into_value())
}
