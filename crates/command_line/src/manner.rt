//! How things are told.
ghost use Rattle.std.specs.Prelude.{◌≡◌, false, option_map};
ghost use Rattle.command_line.specs.Words.{format_of};
ghost use Rattle.command_line.specs.declared.manner.Format.TheVariants.{Text};

/// What answers are written as.
#[derive(Clone, Copy, Debug, PartialEq, Eq)]
pub enum Format {
    /// Text, for people.
    Text,
    /// A line for each answer, which is one JSON object, for programs.
    Json,
}

pub(crate) static FORMATS: [&str; 2] = ["text", "json"];

impl Format {
    /// What the word asks for; text where there is none.
    pub fn of(word: Option<&str>) -> Format
        ensures { result ≡ format_of (option_map (λ word. word.now) word.entry) }
    {
        match word {
            Some("json") => Format::Json,
            _ => Format::Text,
        }
    }
}

/// How answers, and what else there is to tell, are told. What a command has no option for is as where it is left out.
#[derive(Clone, Copy, Debug, PartialEq, Eq)]
pub struct Manner {
    /// What answers are written as, and refusals that end the program.
    pub format: Format,
    /// Whether explanations and warnings are left out.
    pub is_quiet: bool,
    /// Whether a warning ends the program, and a refused step.
    pub is_strict: bool,
}

impl Manner {
    /// Where no option is given.
    pub fn plain() -> Manner
        ensures format { result.format ≡ Text }
        ensures quiet { result.is_quiet ≡ false }
        ensures strict { result.is_strict ≡ false }
    {
        Manner {
            format: Format::Text,
            is_quiet: false,
            is_strict: false,
        }
    }
}
