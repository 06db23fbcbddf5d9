//! What a span called, by its tags.
ghost use Rattle.std.specs.Prelude.{◌≡◌, ◌++◌, IfOk, OnOk};
ghost use Rattle.trace_spans.specs.Targets.{aims_of, target_of};

use crate::tags::{Tags, text_of};
use crate::target::{Aim, Attribute, Target};
use crate::text::Text;
use json_trees::Tree;
use std::alloc::{AllocError, Global};

/// Adds an attribute to a target, where it is a text.
fn add_aim(
    alloc: Global,
    target: &mut Target,
    attribute: Attribute,
    value: &Option<Tree<'_, '_>>,
) -> Result<(), AllocError>
    ensures { OnOk result (target.new ≡ target.old ++ aims_of attribute value.now) }
{
    if let Some(text) = text_of(value) {
        let text = Text::new(alloc, text)?;
        target.push(Aim { attribute, text })?;
    }
    Ok(())
}

/// What a span called, by its tags.
#[tactic(auto, unfolding(crate::specs::Targets::target_of))]
pub(crate) fn target_of(alloc: Global, tags: &Tags<'_, '_>) -> Result<Target, AllocError>
    ensures { IfOk result (λ target. target ≡ target_of tags.now) }
{
    let mut target = Target::new(alloc);
    add_aim(alloc, &mut target, Attribute::UrlFull, &tags.url_full)?;
    add_aim(alloc, &mut target, Attribute::HttpUrl, &tags.http_url)?;
    add_aim(alloc, &mut target, Attribute::UrlPath, &tags.url_path)?;
    add_aim(alloc, &mut target, Attribute::HttpTarget, &tags.http_target)?;
    add_aim(
        alloc,
        &mut target,
        Attribute::DbQueryText,
        &tags.db_query_text,
    )?;
    add_aim(
        alloc,
        &mut target,
        Attribute::DbStatement,
        &tags.db_statement,
    )?;
    add_aim(alloc, &mut target, Attribute::RpcMethod, &tags.rpc_method)?;
    add_aim(
        alloc,
        &mut target,
        Attribute::ServerAddress,
        &tags.server_address,
    )?;
    add_aim(
        alloc,
        &mut target,
        Attribute::NetPeerName,
        &tags.net_peer_name,
    )?;
    add_aim(
        alloc,
        &mut target,
        Attribute::PeerService,
        &tags.peer_service,
    )?;
    add_aim(
        alloc,
        &mut target,
        Attribute::MessagingDestinationName,
        &tags.messaging_destination_name,
    )?;
    Ok(target)
}
