//! The picture of a recording, or of a version that a script makes of it.
use crate::fault::reported;
use crate::naming::with_name_explained;
use crate::played::play_script;
use command_line::{Input, Manner, Picture, PictureFormat, PlayedVersion, Rows};
use console::{Fault, Voice, flushed, warn, with_reason};
use diagnosis::Quoted;
use level_pool::Runner;
use recording::Told;
use recording_pictures::{Asked, Form, Layout, draw_recording, draw_version};
use std::cell::Cell;
use std::mem::forget;
use timeline_svg::Window;
use version_rows::{LeftOut, Scope, Selection};
use version_store::{StateRepresentation, Version};

/// The name of the file that is read, where it is one.
pub(crate) fn file_of<'a>(input: Input<'a>) -> Option<&'a str> {
    match input {
        Input::Standard => None,
        Input::File(path) => Some(path),
    }
}

/// The picture that the command line asks for.
fn asked<'a>(input: Input<'a>, picture: Picture<'a>) -> Asked<'a> {
    Asked {
        file: file_of(input),
        layout: Layout {
            form: match picture.format {
                PictureFormat::Svg => Form::Svg,
                PictureFormat::TraceEvents => Form::TraceEvents,
            },
            by_service: picture.by_service,
            selection: Selection {
                scope: match picture.rows {
                    Rows::All => Scope::All,
                    Rows::Path => Scope::Path,
                },
                window: Window {
                    first: picture.ticks.from,
                    last: picture.ticks.to,
                },
                least: picture.least,
            },
        },
        stage: picture.path_of,
    }
}

/// Tells how many stages have no row.
pub(crate) fn tell_left_out(voice: Voice<'_>, left_out: LeftOut) {
    let LeftOut { unasked, for_room } = left_out;
    if unasked > 0 {
        voice.say(format_args!(
            "{unasked} of the stages are left out: they are not between --from and --to, or took less than --min"
        ));
    }
    if for_room > 0 {
        voice.say(format_args!(
            "no room for {for_room} of the stages: those on the path have a row, and those whose own actions took longest"
        ));
    }
}

/// Writes a picture of a recording, or of a version that a script makes of it.
pub fn run_draw<'a, K: StateRepresentation, W: Runner>(
    rt: &'a HostRuntime,
    runner: &W,
    manner: Manner,
    input: Input<'a>,
    picture: Picture<'a>,
) -> Result<(), Fault> {
    let asked = asked(input, picture);
    let voice = Voice::new(rt, manner, input);
    let recording = console::recording(rt, voice, input)?;
    warn(rt.alloc(), voice, &recording)?;
    match picture.played {
        Some(played) => draw_played::<K, _>(rt, runner, voice, &recording, played, asked),
        None => draw_recorded::<K>(rt, voice, &recording, asked),
    }
}

/// Writes a picture of a recording.
fn draw_recorded<K: StateRepresentation>(
    rt: &HostRuntime,
    voice: Voice<'_>,
    recording: &[u8],
    asked: Asked<'_>,
) -> Result<(), Fault> {
    let reason = Cell::new(None);
    let mut sink = console::output(rt, &reason)?;
    let end = draw_recording::<K, _>(rt.alloc(), recording, asked, &mut sink);
    let end = match with_reason(voice, &reason, flushed(&mut sink, reported(end))) {
        Ok(left_out) => {
            tell_left_out(voice, left_out);
            Ok(())
        }
        Err(fault) => Err(fault),
    };
    let name = asked.stage.unwrap_or("");
    with_name_explained(rt.alloc(), voice, recording, name, end)
}

/// Writes a picture of a version that a script makes of a recording; its refused steps are told.
fn draw_played<K: StateRepresentation, W: Runner>(
    rt: &HostRuntime,
    runner: &W,
    voice: Voice<'_>,
    recording: &[u8],
    asked_for: PlayedVersion<'_>,
    asked: Asked<'_>,
) -> Result<(), Fault> {
    let PlayedVersion { script, version } = asked_for;
    let played = match play_script::<K, _>(rt, runner, voice, recording, script) {
        Ok(played) => played,
        Err(fault) => return Err(fault.before_script(rt.alloc())),
    };
    let last = match played.made.last() {
        Some(version) => version.number(),
        None => 0,
    };
    let number = version.unwrap_or(last);
    let end = if number == 0 {
        draw_recorded::<K>(rt, voice, recording, asked)
    } else if let Some(version) = played.made.get(number as usize - 1) {
        draw_made(rt, voice, version, &played.told, asked)
    } else {
        let why = voice.text_of(
            script,
            format_args!("no version {number}, as the last one that it makes is {last}"),
        );
        Err(Fault::NoVersion(why))
    };
    // The program ends with its answer.
    forget(played);
    end
}

/// Writes a picture of a version of a recording of which this is told.
fn draw_made<K: StateRepresentation>(
    rt: &HostRuntime,
    voice: Voice<'_>,
    version: &Version<K>,
    told: &Told,
    asked: Asked<'_>,
) -> Result<(), Fault> {
    let reason = Cell::new(None);
    let mut sink = console::output(rt, &reason)?;
    let end = draw_version(rt.alloc(), version, told, asked, &mut sink);
    match with_reason(voice, &reason, flushed(&mut sink, reported(end))) {
        Ok(left_out) => {
            tell_left_out(voice, left_out);
            Ok(())
        }
        Err(Fault::NoStage(_)) => Err(no_stage(voice, version.number(), asked)),
        Err(fault) => Err(fault),
    }
}

/// That a version has no stage of the name.
fn no_stage(voice: Voice<'_>, number: u32, asked: Asked<'_>) -> Fault {
    let name = Quoted(asked.stage.unwrap_or(""));
    Fault::NoStage(voice.text(format_args!("version {number} has no stage {name}")))
}
