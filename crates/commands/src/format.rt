//! What answers are written as.
use command_line::Manner;
use report_form::Format;

/// What answers are written as.
pub fn format_of(manner: Manner) -> Format {
    match manner.format {
        command_line::Format::Text => Format::Text,
        command_line::Format::Json => Format::Json,
    }
}
