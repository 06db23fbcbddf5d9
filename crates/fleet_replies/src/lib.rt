//! What the replies of many traces, or recordings, came to, and what they come to by changes that are tried: of each by itself,
//! whatever the number of threads that find it.
#![tactic(auto)]

mod beside;
mod naming;
mod placed;
mod question;
mod recorded;
mod recordings;
mod reply;
mod traced;
mod traces;

pub use beside::found_beside;
pub use question::Question;
pub use recorded::RecordedReply;
pub use recordings::replies_of_recordings;
pub use reply::{Found, NotTried, Reply, reply_at};
pub use traced::TraceReply;
pub use traces::replies_of_traces;
