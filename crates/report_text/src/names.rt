//! Lines of names.
ghost use Rattle.std.specs.Prelude.{◌≡◌, ◌++◌, OnOk, string_bytes};
ghost use Rattle.report_rows.specs.Names.{bytes_of};
ghost use Rattle.report_text.specs.Texts.{names_line, names_text};

use report_rows::Names;
use std::alloc::AllocError;

/// A title, and names.
pub(crate) fn push_names_line(
    line: &mut String,
    title: &str,
    names: &Names<'_>,
) -> Result<(), AllocError>
    ensures { OnOk result (string_bytes line.new ≡ string_bytes line.old ++ names_line title.now names.now) }
{
    line.push_str(title)?;
    push_names(line, names.as_slice())?;
    line.push_str("\n")
}

/// A title, and names, within a line.
pub(crate) fn push_titled_names(
    line: &mut String,
    title: &str,
    names: &[&str],
) -> Result<(), AllocError>
    ensures { OnOk result (string_bytes line.new ≡ string_bytes line.old ++ (title.now ++ names_text (bytes_of names.now))) }
{
    line.push_str(title)?;
    push_names(line, names)
}

fn push_names(line: &mut String, names: &[&str]) -> Result<(), AllocError>
    ensures { OnOk result (string_bytes line.new ≡ string_bytes line.old ++ names_text (bytes_of names.now)) }
{
    if names.is_empty() {
        return line.push_str(" -");
    }
    for name in names {
        line.push_str(" ")?;
        line.push_str(name)?;
    }
    Ok(())
}
