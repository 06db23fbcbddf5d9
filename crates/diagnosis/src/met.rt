//! Which members of an object were met already.

/// Meets a member. The answer is whether it was not met before.
#[inline(always)]
pub(crate) fn meet(is_met: &mut bool) -> bool {
    let is_first = !*is_met;
    *is_met = true;
    is_first
}

/// The members of a stage that were met.
#[derive(Clone, Copy)]
pub(crate) struct StageMet {
    pub name: bool,
    pub op: bool,
    pub value: bool,
    pub throws: bool,
    pub sources: bool,
    pub inner: bool,
    pub created: bool,
    pub takes: bool,
    pub queued: bool,
    pub runs: bool,
    pub action: bool,
    pub pin_result: bool,
    pub pin_moment: bool,
    pub ends: bool,
}

impl StageMet {
    /// None.
    pub(crate) fn none() -> StageMet {
        StageMet {
            name: false,
            op: false,
            value: false,
            throws: false,
            sources: false,
            inner: false,
            created: false,
            takes: false,
            queued: false,
            runs: false,
            action: false,
            pin_result: false,
            pin_moment: false,
            ends: false,
        }
    }
}

/// The members of an end that were met.
#[derive(Clone, Copy)]
pub(crate) struct EndMet {
    pub at: bool,
    pub kind: bool,
    pub delay: bool,
    pub value: bool,
    pub throws: bool,
}

impl EndMet {
    /// None.
    pub(crate) fn none() -> EndMet {
        EndMet {
            at: false,
            kind: false,
            delay: false,
            value: false,
            throws: false,
        }
    }
}

/// The members of an outcome that were met.
#[derive(Clone, Copy)]
pub(crate) struct OutcomeMet {
    pub value: bool,
    pub bare: bool,
    pub wrapped: bool,
}

impl OutcomeMet {
    /// None.
    pub(crate) fn none() -> OutcomeMet {
        OutcomeMet {
            value: false,
            bare: false,
            wrapped: false,
        }
    }

    /// Meets the member of a name. The answer is whether it is one of an outcome and was not met before.
    #[inline(always)]
    pub(crate) fn name(&mut self, name: &[u8]) -> bool {
        match name {
            b"value" => meet(&mut self.value),
            b"bare" => meet(&mut self.bare),
            b"wrapped" => meet(&mut self.wrapped),
            _ => false,
        }
    }
}
