//! The form in which something is told.
ghost use Rattle.std.specs.Prelude.{◌≡◌};
ghost use Rattle.report_form.specs.Forms.{form_of};

/// What answers are written as.
#[derive(Clone, Copy, Debug, PartialEq, Eq)]
pub enum Format {
    /// Lines of text, for people.
    Text,
    /// A line for each answer, which is one JSON object, for programs.
    Json,
}

/// The form in which one answer is told.
#[derive(Clone, Copy, Debug, PartialEq, Eq)]
pub enum Form {
    /// Lines of text.
    Text,
    /// A line that is one JSON object, with the number of the script's line that it answers as a member `line`; None where
    /// there is no script.
    Json { line: Option<u64> },
}

impl Format {
    /// The form of what answers the line of this number of a script; None where there is no script.
    pub fn form(self, line: Option<u64>) -> Form
        ensures { result ≡ form_of self line }
    {
        match self {
            Format::Text => Form::Text,
            Format::Json => Form::Json { line },
        }
    }
}
