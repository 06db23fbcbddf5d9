//! What is answered to a line.
use change_words::Change;
use recording::Step;
use step_words::Spoken;

/// What is answered: a step, or what no step asks of the version of a number.
#[derive(Drop)]
pub(crate) enum Answer {
    /// What the step is answered.
    Step(Step),
    /// What would come of a change of the version.
    Trial { number: u32, change: Change },
    /// What became of each end of the version.
    Ends(u32),
    /// Where failures arose in the version.
    Failures(u32),
    /// The version as a recording.
    Recording(u32),
    /// Which versions there are, of which a session stands at this one.
    Versions(Option<u32>),
}

impl Answer {
    /// What is answered of the version of a number, where that is what is said.
    pub(crate) fn of_version(number: u32, spoken: Spoken) -> Option<Answer> {
        match spoken {
            Spoken::Trial(change) => Some(Answer::Trial { number, change }),
            Spoken::Ends => Some(Answer::Ends(number)),
            Spoken::Failures => Some(Answer::Failures(number)),
            Spoken::Save => Some(Answer::Recording(number)),
            _ => None,
        }
    }
}
