//! What stays the same in a conversation.
use console::Voice;
use std::alloc::Global;

/// What stays the same in a conversation.
#[derive(Drop)]
pub(crate) struct Setting<'a, W> {
    pub(crate) alloc: Global,
    /// By which people are told of mistakes.
    pub(crate) voice: Voice<'a>,
    /// By which changes and trials are computed.
    pub(crate) runner: &'a W,
    /// The recording, by whose names mistaken ones are explained.
    pub(crate) recording: &'a [u8],
}
