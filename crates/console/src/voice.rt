//! What is said to people, on standard error. A fault of writing there changes nothing.
use crate::file_name::FileName;
use crate::reasons::reason_of;
use command_line::{Input, Manner};
use std::alloc::AllocError;
use std::fmt::Display;
use std::io::{self, IsTerminal};

/// What the words of the command line ask to be told, and of which file.
#[derive(Clone, Copy)]
pub struct Voice<'a> {
    rt: &'a HostRuntime,
    file: &'a str,
    /// The script whose lines are told of, where there are several.
    script: Option<&'a str>,
    /// The trace that is told of, where there are several.
    trace: Option<&'a str>,
    /// The line of the file that is told of, where each is a recording.
    line: Option<usize>,
    /// Whether other files are told of beside it.
    is_of_several: bool,
    is_quiet: bool,
    is_strict: bool,
}

impl<'a> Voice<'a> {
    /// Tells of a file, or of standard input.
    pub fn new(rt: &'a HostRuntime, manner: Manner, input: Input<'a>) -> Voice<'a> {
        let file = match input {
            Input::Standard => "standard input",
            Input::File(path) => path,
        };
        Voice::of_file(rt, manner, file)
    }

    /// Tells of the file of this name.
    pub fn of_file(rt: &'a HostRuntime, manner: Manner, file: &'a str) -> Voice<'a> {
        Voice {
            rt,
            file,
            script: None,
            trace: None,
            line: None,
            is_of_several: false,
            is_quiet: manner.is_quiet,
            is_strict: manner.is_strict,
        }
    }

    /// The same, where lines of the script of this name are told of.
    pub fn of_script(self, script: &'a str) -> Voice<'a> {
        Voice {
            script: Some(script),
            ..self
        }
    }

    /// The same, where the trace of this id is told of.
    pub fn of_trace(self, trace: &'a str) -> Voice<'a> {
        Voice {
            trace: Some(trace),
            ..self
        }
    }

    /// The same, where the recording on the line of this number is told of.
    pub fn of_line(self, line: usize) -> Voice<'a> {
        Voice {
            line: Some(line),
            ..self
        }
    }

    /// The same, where other files are told of beside it.
    pub fn of_several(self) -> Voice<'a> {
        Voice {
            is_of_several: true,
            ..self
        }
    }

    /// The name of the file.
    pub fn file(self) -> FileName<'a> {
        FileName(self.file)
    }

    pub fn is_quiet(self) -> bool {
        self.is_quiet
    }

    pub fn is_strict(self) -> bool {
        self.is_strict
    }

    /// Says something of the recording, unless nothing is to be said.
    pub fn say<D: Display + Drop>(self, what: D) {
        if !self.is_quiet {
            self.tell(what);
        }
    }

    /// Says something of the file, by its name where other files are told of beside it, unless nothing is to be said.
    pub fn say_of_file<D: Display + Drop>(self, what: D) {
        if self.is_of_several {
            let file = self.file();
            self.say(format_args!("{file}: {what}"));
        } else {
            self.say(what);
        }
    }

    /// Says something that is never left out.
    pub fn tell<D: Display + Drop>(self, what: D) {
        let _ = match self.trace {
            None => self.rt.eprintln(format_args!("whatif: {what}")),
            Some(trace) => self
                .rt
                .eprintln(format_args!("whatif: trace {trace}: {what}")),
        };
    }

    /// Says something of the file that is never left out, by its name where other files are told of beside it.
    pub fn tell_of_file<D: Display + Drop>(self, what: D) {
        if self.is_of_several {
            let file = self.file();
            self.tell(format_args!("{file}: {what}"));
        } else {
            self.tell(what);
        }
    }

    /// Says something of a line of the script.
    pub fn say_of_line<D: Display + Drop>(self, number: u64, what: D) {
        match self.script {
            None => self.say(format_args!("line {number}: {what}")),
            Some(script) => {
                let script = FileName(script);
                self.say(format_args!("{script}: line {number}: {what}"));
            }
        }
    }

    /// What is to be said of the file where the program ends, unless nothing is; where memory is out nothing is.
    pub fn text<D: Display + Drop>(self, what: D) -> Option<String> {
        match self.line {
            None => self.text_of(self.file, what),
            Some(line) => self.text_of(
                self.file,
                format_args!("the recording of line {line}: {what}"),
            ),
        }
    }

    /// The same of another file.
    pub fn text_of<D: Display + Drop>(self, file: &str, what: D) -> Option<String> {
        if self.is_quiet {
            return None;
        }
        let file = FileName(file);
        let text: Result<String, AllocError> = format!(in self.rt.alloc(); "{file}: {what}");
        text.ok()
    }

    /// What is to be said where the program ends, and is of no file, unless nothing is; where memory is out nothing is.
    pub fn said<D: Display + Drop>(self, what: D) -> Option<String> {
        if self.is_quiet {
            return None;
        }
        let text: Result<String, AllocError> = format!(in self.rt.alloc(); "{what}");
        text.ok()
    }

    /// The system's reason why a file can't be read or written, unless nothing is to be said.
    pub fn reason(self, file: &str, error: io::Error) -> Option<String> {
        if self.is_quiet {
            return None;
        }
        reason_of(self.rt.alloc(), file, error)
    }

    /// Says that standard input is read, where a person may wait for something else.
    pub fn say_what_is_read(self, what: &str) {
        if self.rt.stdin().is_terminal() {
            self.say(format_args!("the {what} is read from standard input, to its end"));
        }
    }
}
