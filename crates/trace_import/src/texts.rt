//! The texts of a trace, which are UTF-8.
ghost use Rattle.std.specs.Prelude.{All};
ghost use Rattle.std.specs.Str.{IsUtf8};
ghost use Rattle.trace_import.specs.Texts.{HasTexts, TellsTexts};

use trace_spans::{Span, Text, Trace};

/// Texts are UTF-8.
fn are_texts(texts: &[Text])
    ensures { All IsUtf8 texts.now }
{
    for text in texts {
        text.as_str();
    }
}

/// The id of a span and the parts of its clock are UTF-8.
fn has_texts(span: &Span)
    ensures { HasTexts span.now }
{
    span.id.as_str();
    are_texts(span.clock.parts());
}

/// The id of a trace and the texts of its spans are UTF-8.
pub(crate) fn tells_texts(trace: &Trace)
    ensures { TellsTexts trace.now }
{
    trace.id.as_str();
    for span in trace.spans.as_slice() {
        has_texts(span);
    }
}
