//! The operations of stages, by their names.

/// What an operation takes.
#[derive(Clone, Copy)]
pub(crate) struct Operation {
    /// How many sources, where the number is fixed.
    pub sources: Option<usize>,
    /// Whether its function picks an inner stage.
    pub picks: bool,
    /// Whether it has an action.
    pub acts: bool,
}

/// The names of operations that are told: each but those that end with `Async`.
pub(crate) const OPERATIONS: &[&str] = &[
    "async",
    "supplyAsync",
    "manual",
    "completed",
    "failed",
    "thenApply",
    "thenAccept",
    "thenRun",
    "copy",
    "handle",
    "whenComplete",
    "exceptionally",
    "thenCompose",
    "exceptionallyCompose",
    "thenCombine",
    "thenAcceptBoth",
    "runAfterBoth",
    "applyToEither",
    "acceptEither",
    "runAfterEither",
    "allOf",
    "anyOf",
];

/// What the operation of a name takes, if there is one.
pub(crate) fn operation_of(name: &str) -> Option<Operation> {
    let (sources, acts) = match name {
        "async" | "supplyAsync" => (Some(0), true),
        "manual" | "completed" | "failed" => (Some(0), false),
        "copy" => (Some(1), false),
        "allOf" | "anyOf" => (None, false),
        _ => return operation_of_function(name.strip_suffix("Async").unwrap_or(name)),
    };
    Some(Operation {
        sources,
        picks: false,
        acts,
    })
}

/// The same of operations that have an `Async` form, by the name without it.
fn operation_of_function(plain: &str) -> Option<Operation> {
    let (sources, picks) = match plain {
        "thenApply" | "thenAccept" | "thenRun" | "handle" | "whenComplete" | "exceptionally" => {
            (1, false)
        }
        "thenCompose" | "exceptionallyCompose" => (1, true),
        "thenCombine"
        | "thenAcceptBoth"
        | "runAfterBoth"
        | "applyToEither"
        | "acceptEither"
        | "runAfterEither" => (2, false),
        _ => return None,
    };
    Some(Operation {
        sources: Some(sources),
        picks,
        acts: true,
    })
}
