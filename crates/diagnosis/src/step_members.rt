//! The members of steps and of the edits of their lists, by their names.
use crate::members::Member;
use crate::wanted::Wanted;

const SESSION: Member = Member::Needed("session", Wanted::Count);

const VERSION: Member = Member::Needed("version", Wanted::Count);

const BASE: Member = Member::Optional("base", Wanted::Count);

const STAGE: Member = Member::Needed("stage", Wanted::Text);

const WHAT: Member = Member::Needed("what", Wanted::Report);

/// The names of the members of steps and of edits, of whatever name these are.
pub(crate) const STEP_MEMBERS: &[&str] = &[
    "do", "session", "version", "base", "stage", "result", "at", "takes", "queued", "runs",
    "action", "ends", "new", "sources", "inner", "edits", "what", "against",
];

/// The members of a step of a name, beside `do` and but for reports.
pub(crate) fn members_of(name: &str) -> &'static [Member] {
    match name {
        "open" => &[SESSION, VERSION],
        "head" | "undo" | "close" => &[SESSION],
        "edits" => &[SESSION, BASE, Member::Needed("edits", Wanted::Edits)],
        "pinResult" => &[
            SESSION,
            BASE,
            STAGE,
            Member::Needed("result", Wanted::OutcomeOrNull),
        ],
        "pinMoment" => &[
            SESSION,
            BASE,
            STAGE,
            Member::Needed("at", Wanted::TicksOrNull),
        ],
        "setTakes" => &[SESSION, BASE, STAGE, Member::Needed("takes", Wanted::Ticks)],
        "setTimes" => &[
            SESSION,
            BASE,
            STAGE,
            Member::Needed("queued", Wanted::Ticks),
            Member::Needed("runs", Wanted::Ticks),
        ],
        "setAction" => &[
            SESSION,
            BASE,
            STAGE,
            Member::Needed("action", Wanted::Action),
        ],
        "setEnds" => &[SESSION, BASE, STAGE, Member::Needed("ends", Wanted::Ends)],
        "add" => &[SESSION, BASE, Member::Needed("new", Wanted::Stage)],
        "remove" => &[SESSION, BASE, STAGE],
        _ => &[
            SESSION,
            BASE,
            STAGE,
            Member::Needed("sources", Wanted::Names),
            Member::Needed("inner", Wanted::Names),
        ],
    }
}

/// The members of an edit of a list, beside `do`: those of a step but for its session and its base.
pub(crate) fn members_of_edit(name: &str) -> &'static [Member] {
    match members_of(name) {
        [_, _, others @ ..] => others,
        _ => &[],
    }
}

/// The members of a report of a name, beside `do`.
pub(crate) fn members_of_report(name: &str) -> &'static [Member] {
    match name {
        "one" | "blame" | "path" | "sweep" => &[SESSION, VERSION, WHAT, STAGE],
        "changes" | "drift" => &[
            SESSION,
            VERSION,
            WHAT,
            Member::Optional("against", Wanted::Count),
        ],
        _ => &[SESSION, VERSION, WHAT],
    }
}
