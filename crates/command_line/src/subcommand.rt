//! What the program can be told to do, with the word for each.
ghost use Rattle.std.specs.Prelude.{◌≡◌, IfSome};
ghost use Rattle.command_line.specs.Subcommands.{word_of};

/// What the program can be told to do, in the order of its help.
#[derive(Clone, Copy)]
pub(crate) enum Subcommand {
    Report,
    Explain,
    Sweep,
    Slack,
    Rescue,
    Ends,
    Failures,
    Try,
    Compare,
    Draw,
    Page,
    Check,
    Serve,
    Console,
    Export,
    Many,
    Import,
    Fleet,
    New,
}

pub(crate) static SUBCOMMANDS: [Subcommand; 19] = [
    Subcommand::Report,
    Subcommand::Explain,
    Subcommand::Sweep,
    Subcommand::Slack,
    Subcommand::Rescue,
    Subcommand::Ends,
    Subcommand::Failures,
    Subcommand::Try,
    Subcommand::Compare,
    Subcommand::Draw,
    Subcommand::Page,
    Subcommand::Check,
    Subcommand::Serve,
    Subcommand::Console,
    Subcommand::Export,
    Subcommand::Many,
    Subcommand::Import,
    Subcommand::Fleet,
    Subcommand::New,
];

impl Subcommand {
    /// The word for it.
    pub(crate) fn name(self) -> &'static str
        ensures { result.now ≡ word_of self }
    {
        match self {
            Subcommand::Report => "report",
            Subcommand::Explain => "explain",
            Subcommand::Sweep => "sweep",
            Subcommand::Slack => "slack",
            Subcommand::Rescue => "rescue",
            Subcommand::Ends => "ends",
            Subcommand::Failures => "failures",
            Subcommand::Try => "try",
            Subcommand::Compare => "compare",
            Subcommand::Draw => "draw",
            Subcommand::Page => "page",
            Subcommand::Check => "check",
            Subcommand::Serve => "serve",
            Subcommand::Console => "console",
            Subcommand::Export => "export",
            Subcommand::Many => "many",
            Subcommand::Import => "import",
            Subcommand::Fleet => "fleet",
            Subcommand::New => "new",
        }
    }

    /// The one that a word is for.
    pub(crate) fn named(word: &str) -> Option<Subcommand>
        ensures { IfSome result (λ subcommand. word_of subcommand ≡ word.now) }
    {
        SUBCOMMANDS.iter().copied().find(|it| it.name() == word)
    }
}
