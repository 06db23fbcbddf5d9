//! The names of arguments: those of options stand after two dashes.

pub(crate) const FILE: &str = "FILE";

pub(crate) const GOOD: &str = "GOOD";

pub(crate) const BAD: &str = "BAD";

pub(crate) const STAGE: &str = "STAGE";

pub(crate) const SCRIPT: &str = "SCRIPT";

pub(crate) const QUIET: &str = "quiet";

pub(crate) const STRICT: &str = "strict";

pub(crate) const FORMAT: &str = "format";

pub(crate) const TOP: &str = "top";

/// How the stage is to end in the trials that are printed.
pub(crate) const WANT: &str = "want";

/// Whether actions are queued for less time in trials and run as long as they do.
pub(crate) const QUEUED: &str = "queued";

/// The most ticks longer of what is printed.
pub(crate) const WITHIN: &str = "within";

/// By which tick there is to be a value; how many hundredths are left of the times of actions in trials.
pub(crate) const BY: &str = "by";

/// The value in place of an exception.
pub(crate) const AS: &str = "as";

/// Whether the steps are printed that lines say.
pub(crate) const STEPS: &str = "steps";

pub(crate) const WORKERS: &str = "workers";

/// The stage whose path is drawn.
pub(crate) const PATH_OF: &str = "stage";

/// The stage that a page is about.
pub(crate) const STAGE_OF_PAGE: &str = "stage";

/// The stage in which a failure arose.
pub(crate) const ORIGIN: &str = "origin";

/// The stage that is reported on, of what comes of changes.
pub(crate) const STAGE_OF_TRIAL: &str = "stage";

pub(crate) const CHANGE: &str = "CHANGE";

pub(crate) const SAVE: &str = "save";

pub(crate) const DRAW: &str = "draw";

/// Which stages have a row in a picture.
pub(crate) const ROWS: &str = "what";

/// The first tick that is drawn.
pub(crate) const FROM: &str = "from";

/// The last tick that is drawn.
pub(crate) const TO: &str = "to";

/// How many ticks a stage takes at least that is drawn.
pub(crate) const LEAST: &str = "min";

/// By what rows stand together.
pub(crate) const GROUP: &str = "group";

/// The script whose version is drawn.
pub(crate) const SCRIPT_OF_PICTURE: &str = "script";

/// Which of the versions that a script makes is drawn.
pub(crate) const VERSION: &str = "version";

pub(crate) const LIST: &str = "list";

pub(crate) const EACH: &str = "each";

pub(crate) const TRACE: &str = "trace";

pub(crate) const UNIT: &str = "unit";

pub(crate) const CLOCKS: &str = "clocks";

pub(crate) const CALLS: &str = "calls";

/// The span whose end is the reply of its trace.
pub(crate) const REPLY: &str = "reply";

/// By what spans are counted together.
pub(crate) const GROUPED_BY: &str = "by";

/// How many hundredths of the replies are the slowest.
pub(crate) const SLOWEST: &str = "slowest";

/// A change of a group that is tried in each trace.
pub(crate) const TRY: &str = "try";

/// That the summary is written.
pub(crate) const PART: &str = "part";

/// That the files hold summaries.
pub(crate) const JOIN: &str = "join";

/// Which recording to begin with is printed.
pub(crate) const FORM: &str = "FORM";
