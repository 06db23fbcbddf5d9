//! What a row shows.
ghost use Rattle.std.specs.Prelude.{◌≡◌};
ghost use Rattle.timeline_svg.specs.Services.{service_of};

/// When a stage that has completed did what. What its action did not come to before the completion was cut off by that.
#[derive(Clone, Copy, Debug, PartialEq, Eq)]
pub struct Run {
    /// The tick at which what it waited for had come.
    pub triggered: u64,
    /// The tick at which its action started; the completion, where that came before.
    pub started: u64,
    /// The tick at which its action ended; the completion, where that came before.
    pub ended: u64,
    /// The tick at which its action would have ended, where the completion came before.
    pub missed_end: Option<u64>,
    pub completed: u64,
    /// The tick of what the completion is put down to: its own share of a path begins here.
    pub since: u64,
    pub has_failed: bool,
}

/// What became of a stage.
#[derive(Clone, Copy, Debug, PartialEq, Eq)]
pub enum Course {
    /// It is no stage, but a service, whose stages have the rows below.
    Service,
    Pending,
    Completed(Run),
}

/// A row of the picture.
#[derive(Drop)]
pub struct Row {
    pub name: String,
    /// What is told of it beside its name, line by line.
    pub about: String,
    pub created: u64,
    pub course: Course,
    pub is_on_path: bool,
}

/// The service of a stage of an imported recording: what stands before the first dot of its name.
pub fn service_of(name: &str) -> &str
    ensures { result.now ≡ service_of name.now }
{
    match name.split_once('.') {
        Some(parts) => parts.0,
        None => name,
    }
}
