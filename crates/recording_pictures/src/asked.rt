//! What is asked for.
ghost use Rattle.std.specs.Prelude.{◌≡◌};
ghost use Rattle.recording_pictures.specs.Words.{form_named, scope_named};

use version_rows::{Scope, Selection};

/// What the picture is written as.
#[derive(Clone, Copy, Debug, PartialEq, Eq)]
pub enum Form {
    /// An SVG file.
    Svg,
    /// Chrome's trace events, as JSON.
    TraceEvents,
}

impl Form {
    /// The form that a word names.
    pub fn new(word: &str) -> Option<Form>
        ensures { result ≡ form_named word.now }
    {
        match word {
            "svg" => Some(Form::Svg),
            "trace" => Some(Form::TraceEvents),
            _ => None,
        }
    }
}

/// Which stages a word names.
pub fn scope_named(word: &str) -> Option<Scope>
    ensures { result ≡ scope_named word.now }
{
    match word {
        "all" => Some(Scope::All),
        "path" => Some(Scope::Path),
        _ => None,
    }
}

/// How it is drawn.
#[derive(Clone, Copy, Debug, PartialEq, Eq)]
pub struct Layout {
    pub form: Form,
    /// Whether the rows of a service stand together: in an SVG file below its name, among trace events as a process.
    pub by_service: bool,
    /// Which stages have a row, where there is room, and the ticks that an SVG file shows.
    pub selection: Selection,
}

/// What is asked for.
#[derive(Clone, Copy)]
pub struct Asked<'a> {
    /// The file that the recording is in, where one is named.
    pub file: Option<&'a str>,
    pub layout: Layout,
    /// The name of the stage whose path is drawn over the rows.
    pub stage: Option<&'a str>,
}
