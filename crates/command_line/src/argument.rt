//! An argument of a command, as data, and as clap has it.
use crate::fleet::GROUPINGS;
use crate::manner::FORMATS;
use crate::picture::{PICTURE_FORMATS, ROWS_NAMES};
use crate::traces::{READINGS, UNITS};
use clap::{Arg, ArgAction, value_parser};
use recording_forms::FORM_NAMES;
use std::alloc::{AllocError, Global};

/// The most ticks that a recording may say.
const LAST_TICK: i64 = 1 << 40;

/// An argument: its name, what help says of it, and what it takes.
#[derive(Clone, Copy)]
pub(crate) struct Argument {
    pub(crate) name: &'static str,
    pub(crate) help: &'static str,
    pub(crate) takes: Takes,
}

/// What an argument takes. The first eleven are options, whose name stands after two dashes, the others are told by their place.
#[derive(Clone, Copy)]
pub(crate) enum Takes {
    /// Nothing: it is there or not.
    Nothing,
    /// The same, and none of these others may be there.
    NothingBeside(&'static [&'static str]),
    /// A text, by the name that help has for it.
    Text(&'static str),
    /// The same, and any number of them.
    Texts(&'static str),
    /// A text, required where the other argument is the word.
    TextIf(&'static str, &'static str, &'static str),
    /// A number; where it is bounded, from 1 to the bound, and 1 where it is left out.
    Number(&'static str, Option<u8>),
    /// A number from 0 to the bound, where the other argument is there.
    NumberWith(&'static str, u16, &'static str),
    /// A number from 1 to 100, 1 where the option stands without one.
    Percent(&'static str),
    /// A number of ticks, no more than a recording may say.
    Ticks(&'static str),
    /// A text that may be a number below 0.
    Value(&'static str),
    /// One of these words, or none.
    MaybeWord(&'static str, &'static [&'static str]),
    /// One of the words, the first where it is left out.
    OneOf(&'static str, Choice),
    /// One of the words, the first where it is left out.
    Chosen(Choice),
    /// A text that may be left out.
    MaybeOne,
    /// A text.
    One,
    /// At least one text, and at most so many.
    UpTo(usize),
}

/// What words an argument is chosen from.
#[derive(Clone, Copy)]
pub(crate) enum Choice {
    /// What an answer is written as.
    Format,
    /// What a picture is written as.
    Picture,
    /// Which stages have a row in a picture.
    Rows,
    /// Which recording to begin with is printed.
    Form,
    /// By what spans are counted together.
    Grouping,
    /// The unit of an imported recording's ticks.
    Unit,
    /// Whether something of a trace is inferred, or taken as it is told.
    Reading,
}

/// The argument as clap has it.
pub(crate) fn arg_of<'a>(alloc: Global, argument: Argument) -> Result<Arg<'a>, AllocError> {
    let arg = Arg::new(alloc, argument.name).help(argument.help);
    Ok(match argument.takes {
        Takes::Nothing => arg.long(argument.name).action(ArgAction::SetTrue),
        Takes::NothingBeside(others) => arg
            .long(argument.name)
            .action(ArgAction::SetTrue)
            .conflicts_with_all(others)?,
        Takes::Text(value) => arg.long(argument.name).value_name(value),
        Takes::Texts(value) => {
            arg.long(argument.name)
                .value_name(value)
                .action(ArgAction::Append)
        }
        Takes::TextIf(value, other, word) => {
            arg.long(argument.name)
                .value_name(value)
                .required_if_eq(other, word)?
        }
        Takes::Number(value, most) => number(arg.long(argument.name).value_name(value), most),
        Takes::NumberWith(value, most, other) => {
            arg.long(argument.name)
                .value_name(value)
                .value_parser(value_parser!(u32).range(0..=i64::from(most)))
                .requires_arg(other)?
        }
        Takes::Percent(value) => percent(arg.long(argument.name).value_name(value)),
        Takes::Ticks(value) => ticks(arg.long(argument.name).value_name(value)),
        Takes::Value(value) => {
            arg.long(argument.name)
                .value_name(value)
                .allow_negative_numbers(true)
        }
        Takes::MaybeWord(value, words) => {
            arg.long(argument.name)
                .value_name(value)
                .value_parser(words)
        }
        Takes::OneOf(value, choice) => one_of(arg.long(argument.name).value_name(value), choice),
        Takes::Chosen(choice) => one_of(arg, choice),
        Takes::MaybeOne => arg,
        Takes::One => arg.required(true),
        Takes::UpTo(most) => arg.num_args(1..=most).required(true),
    })
}

fn number<'a>(arg: Arg<'a>, most: Option<u8>) -> Arg<'a> {
    match most {
        None => arg.value_parser(value_parser!(usize)),
        Some(most) => arg
            .value_parser(value_parser!(usize).range(1..=i64::from(most)))
            .default_value("1"),
    }
}

fn percent<'a>(arg: Arg<'a>) -> Arg<'a> {
    arg.value_parser(value_parser!(u64).range(1..=100))
        .num_args(0..=1)
        .default_missing_value("1")
}

fn ticks<'a>(arg: Arg<'a>) -> Arg<'a> {
    arg.value_parser(value_parser!(u64).range(0..=LAST_TICK))
}

fn one_of<'a>(arg: Arg<'a>, choice: Choice) -> Arg<'a> {
    match choice {
        Choice::Format => arg.value_parser(&FORMATS[..]).default_value("text"),
        Choice::Picture => arg.value_parser(&PICTURE_FORMATS[..]).default_value("svg"),
        Choice::Rows => arg.value_parser(&ROWS_NAMES[..]).default_value("all"),
        Choice::Form => arg.value_parser(&FORM_NAMES[..]).default_value("first"),
        Choice::Grouping => arg.value_parser(&GROUPINGS[..]).default_value("span"),
        Choice::Unit => arg.value_parser(&UNITS[..]).default_value("us"),
        Choice::Reading => arg.value_parser(&READINGS[..]).default_value("inferred"),
    }
}
