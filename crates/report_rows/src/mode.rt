//! The names of modes.
ghost use Rattle.std.specs.Prelude.{◌≡◌};
ghost use Rattle.report_rows.specs.Modes.{mode_text};

use act_expr::Mode;

/// The mode, by its name in recordings.
pub fn mode_text(mode: Mode) -> &'static str
    ensures { result.now ≡ mode_text mode }
{
    match mode {
        Mode::Computed => "computed",
        Mode::Literal => "literal",
    }
}
