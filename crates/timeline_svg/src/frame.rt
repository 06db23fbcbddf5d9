//! What stands round the rows: the sizes, the style, the heading and the legend.
ghost use Rattle.std.specs.Prelude.{◌≡◌, ◌+◌, ◌≤◌, ◌++◌, OnOk, string_bytes};
ghost use Rattle.timeline_svg.specs.Frames.{band_y, head_text, heading_lines, heading_text, row_y, size_text};

use crate::escape::push_element;
use crate::picture::Heading;
use std::alloc::{AllocError, Global};
use std::fmt::Write;

/// How many rows stand below each axis.
pub(crate) const ROWS_OF_BAND: usize = 50;

/// How high a row is.
pub(crate) const ROW: u32 = 18;

/// How high an axis is.
pub(crate) const BAND: u32 = 24;

/// Where the first axis stands.
pub(crate) const HEAD: u32 = 84;

/// How wide the rows' ticks are drawn.
pub(crate) const CHART: u32 = 960;

/// How far the right end of a picture is from the left end of its scale.
pub(crate) const MARGIN: u32 = CHART + 72;

const STYLE: &str = "<style>\
svg{font:12px ui-monospace,SFMono-Regular,Menlo,Consolas,'DejaVu Sans Mono',monospace}\
.paper{fill:#fff}\
text{fill:#1f2937}\
.heading{font-size:15px;font-weight:600}\
.note,.tick,.key{font-size:11px;fill:#4b5563}\
.tick{text-anchor:middle}\
.deadline{stroke:#b45309;stroke-width:1.5;stroke-dasharray:6 3;fill:none}\
.late{text-anchor:middle;font-size:11px;fill:#b45309}\
.grid{stroke:#e5e7eb;fill:none}\
.axis{stroke:#9ca3af;fill:none}\
.hit{fill:#fff;fill-opacity:0}\
g.row:hover .hit{fill:#dbeafe;fill-opacity:.6}\
.wait{stroke:#cbd5e1;fill:none}\
.pending .wait{stroke-dasharray:2 3;stroke:#4b5563}\
.open{stroke:#111827;stroke-width:1.5;fill:none}\
.queued{fill:#fff;stroke:#64748b}\
.ran{fill:#4a7ba6}\
.failed .ran{fill:#e2937f}\
.hatch{stroke:#64748b;stroke-width:1.6;fill:none}\
.cut{fill:url(#hatch);stroke:#64748b;stroke-width:.8}\
.done{fill:#fff;stroke:#1e3a5f;stroke-width:1.5}\
.cross{stroke:#991b1b;stroke-width:2.5;fill:none}\
.service text{fill:#1e3a5f;font-weight:600}\
.failed text{fill:#991b1b}\
.pending text{fill:#6b7280;font-style:italic}\
.on text{font-weight:700}\
.halo{stroke:#fff;stroke-width:4;fill:none;stroke-linejoin:round}\
.path{stroke:#6d28d9;stroke-width:2;fill:none;stroke-linejoin:round}\
</style>\n\
<defs><pattern id='hatch' width='5' height='5' patternUnits='userSpaceOnUse'>\
<path class='hatch' d='M-1 1L1 -1M0 5L5 0M4 6L6 4'/></pattern></defs>\n\
<rect class='paper' width='100%' height='100%'/>\n";

const LEGEND: &str = "<g class='key' transform='translate(16 66)'>\
<path class='wait' d='M0 -4H26'/><text class='key' x='32'>created, waits</text>\
<rect class='queued' x='140.5' y='-7.5' width='26' height='7'/><text class='key' x='174'>queued</text>\
<rect class='ran' x='236' y='-9' width='26' height='10'/><text class='key' x='268'>runs</text>\
<rect class='cut' x='318' y='-8.5' width='26' height='9'/><text class='key' x='350'>cut off</text>\
<circle class='done' cx='420' cy='-4' r='3'/><text class='key' x='430'>complete</text>\
<path class='cross' d='M504 -4m-4-4l8 8m0-8l-8 8'/><text class='key' x='516'>failed</text>\
<path class='open' d='M578 -4m-7-5l7 5l-7 5'/><text class='key' x='586'>pending</text>\
<path class='path' d='M656 -4H682'/><text class='key' x='688'>the path</text>\
</g>\n";

/// The top of a row.
pub(crate) fn row_y(index: usize) -> u32
    requires { index ≤ 65536 }
    ensures { result ≡ row_y index }
{
    HEAD + (index / ROWS_OF_BAND + 1) as u32 * BAND + index as u32 * ROW
}

/// The top of the axis above the rows from 50 times a number on.
pub(crate) fn band_y(band: usize) -> u32
    requires { band ≤ 1400 }
    ensures { result ≡ band_y band }
{
    HEAD + band as u32 * (BAND + ROWS_OF_BAND as u32 * ROW)
}

/// What comes before all that is drawn.
pub(crate) fn push_head(
    alloc: Global,
    line: &mut String,
    heading: &Heading,
    width: u32,
    height: u32,
) -> Result<(), AllocError>
    ensures { OnOk result (string_bytes line.new ≡ string_bytes line.old ++ head_text heading.now width height) }
{
    push_size(line, width, height)?;
    push_heading(alloc, line, heading)?;
    line.push_str(LEGEND)
}

fn push_size(line: &mut String, width: u32, height: u32) -> Result<(), AllocError>
    ensures { OnOk result (string_bytes line.new ≡ string_bytes line.old ++ size_text width height) }
{
    write!(
        line,
        "<svg xmlns='http://www.w3.org/2000/svg' width='{width}' height='{height}'>\n"
    )
}

// The title of the file, the style, and the lines of the heading.
fn push_heading(alloc: Global, line: &mut String, heading: &Heading) -> Result<(), AllocError>
    ensures { OnOk result (string_bytes line.new ≡ string_bytes line.old ++ heading_text heading.now) }
{
    push_element(alloc, line, "<title>", heading.title.as_str(), "</title>\n")?;
    line.push_str(STYLE)?;
    push_lines(alloc, line, heading)
}

fn push_lines(alloc: Global, line: &mut String, heading: &Heading) -> Result<(), AllocError>
    ensures { OnOk result (string_bytes line.new ≡ string_bytes line.old ++ heading_lines heading.now) }
{
    push_element(
        alloc,
        line,
        "<text class='heading' x='16' y='24'>",
        heading.title.as_str(),
        "</text>\n",
    )?;
    push_element(
        alloc,
        line,
        "<text class='note' x='16' y='43'>",
        heading.note.as_str(),
        "</text>\n",
    )
}
