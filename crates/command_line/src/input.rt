//! Where what a command is about is read from.
ghost use Rattle.std.specs.Prelude.{◌≡◌, option_map};
ghost use Rattle.command_line.specs.Words.{path_of, wanted_path};

/// Where a recording or a trace is read from.
#[derive(Clone, Copy, Debug, PartialEq, Eq)]
pub enum Input<'a> {
    /// Standard input.
    Standard,
    /// The file of this path.
    File(&'a str),
}

impl<'a> Input<'a> {
    /// What the word names: `-` is standard input, and so is none.
    pub fn of(word: Option<&'a str>) -> Input<'a>
        ensures { path_of result ≡ wanted_path (option_map (λ word. word.now) word.entry) }
    {
        match word {
            None | Some("-") => Input::Standard,
            Some(path) => Input::File(path),
        }
    }
}
