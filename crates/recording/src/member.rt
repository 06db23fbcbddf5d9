//! The members of recordings and steps.
ghost use Rattle.std.specs.Prelude.{◌≡◌};
ghost use Rattle.recording.specs.MemberTexts.{member_text};

use std::fmt;

/// A member of a recording or of a step, or one of these as a whole (`Recording`, `Step`).
#[derive(Clone, Copy, PartialEq, Eq, Debug)]
pub enum Member {
    Recording,
    Form,
    Wrap,
    Stages,
    Name,
    Op,
    Value,
    Throws,
    Sources,
    Inner,
    Created,
    Takes,
    Queued,
    Runs,
    Action,
    PinResult,
    PinMoment,
    Ends,
    Step,
    Do,
    Session,
    Version,
    Base,
    Stage,
    Result,
    At,
    New,
    Edits,
    What,
    Against,
}

impl Member {
    /// The member's name in JSON, by which a fault of shape is printed too.
    pub fn text(self) -> &'static str
        ensures { result.now ≡ member_text self }
    {
        match self {
            Member::Recording => "recording",
            Member::Form => "form",
            Member::Wrap => "wrap",
            Member::Stages => "stages",
            Member::Name => "name",
            Member::Op => "op",
            Member::Value => "value",
            Member::Throws => "throws",
            Member::Sources => "sources",
            Member::Inner => "inner",
            Member::Created => "created",
            Member::Takes => "takes",
            Member::Queued => "queued",
            Member::Runs => "runs",
            Member::Action => "action",
            Member::PinResult => "pinResult",
            Member::PinMoment => "pinMoment",
            Member::Ends => "ends",
            Member::Step => "step",
            Member::Do => "do",
            Member::Session => "session",
            Member::Version => "version",
            Member::Base => "base",
            Member::Stage => "stage",
            Member::Result => "result",
            Member::At => "at",
            Member::New => "new",
            Member::Edits => "edits",
            Member::What => "what",
            Member::Against => "against",
        }
    }
}

impl fmt::Display for Member {
    ghost use Rattle.std.specs.Prelude.{Some};

    ghost output = { λ member. Some (member_text member) };

    fn fmt<W: fmt::Write>(&self, f: &mut fmt::Formatter<W>) -> fmt::Result {
        f.write_str(self.text())
    }
}
