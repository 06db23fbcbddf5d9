//! What is asked of a picture.
ghost use Rattle.std.specs.Prelude.{◌≡◌, option_map};
ghost use Rattle.command_line.specs.Words.{has_no_tick, picture_format_of, rows_of};

/// What a picture is written as.
#[derive(Clone, Copy, Debug, PartialEq, Eq)]
pub enum PictureFormat {
    /// An SVG file.
    Svg,
    /// Chrome's trace events, as JSON.
    TraceEvents,
}

pub(crate) static PICTURE_FORMATS: [&str; 2] = ["svg", "trace"];

impl PictureFormat {
    /// What the word asks for; an SVG file where there is none.
    pub fn of(word: Option<&str>) -> PictureFormat
        ensures { result ≡ picture_format_of (option_map (λ word. word.now) word.entry) }
    {
        match word {
            Some("trace") => PictureFormat::TraceEvents,
            _ => PictureFormat::Svg,
        }
    }
}

/// Which stages have a row in a picture.
#[derive(Clone, Copy, Debug, PartialEq, Eq)]
pub enum Rows {
    All,
    /// Those on the path alone.
    Path,
}

pub(crate) static ROWS_NAMES: [&str; 2] = ["all", "path"];

impl Rows {
    /// What the word asks for; all where there is none.
    pub fn of(word: Option<&str>) -> Rows
        ensures { result ≡ rows_of (option_map (λ word. word.now) word.entry) }
    {
        match word {
            Some("path") => Rows::Path,
            _ => Rows::All,
        }
    }
}

/// The ticks that are drawn: as far as one is named, from there or until then alone.
#[derive(Clone, Copy, Debug, PartialEq, Eq)]
pub struct Ticks {
    pub from: Option<u64>,
    pub to: Option<u64>,
}

impl Ticks {
    /// Whether there are none, as the last one comes before the first.
    pub(crate) fn is_empty(self) -> bool
        ensures { result ≡ has_no_tick self }
    {
        self.to.unwrap_or(u64::MAX) < self.from.unwrap_or(0)
    }
}

/// A version that a script makes.
#[derive(Clone, Copy, Debug, PartialEq, Eq)]
pub struct PlayedVersion<'a> {
    pub script: &'a str,
    /// Its number; that of the last one where it is left out.
    pub version: Option<u32>,
}

/// What is asked of a picture.
#[derive(Clone, Copy, Debug, PartialEq, Eq)]
pub struct Picture<'a> {
    pub format: PictureFormat,
    pub rows: Rows,
    pub ticks: Ticks,
    /// How many ticks a stage takes at least that has a row and is not on the path.
    pub least: u64,
    /// The stage whose path is drawn over the rows.
    pub path_of: Option<&'a str>,
    /// Whether the rows of a service stand together.
    pub by_service: bool,
    /// The version that is drawn; that of the recording where no script is named.
    pub played: Option<PlayedVersion<'a>>,
}
