//! What was said so far, and what a further line is answered.
use crate::answer::Answer;
use crate::helping::help_of;
use crate::mistaken::why_mistaken;
use crate::printing::{print, tell_answer};
use crate::served::Served;
use crate::setting::Setting;
use crate::step_text::step_text;
use crate::telling::write_answer;
use crate::versions::Versions;
use command_line::Printed;
use console::{Fault, output, with_reason};
use level_pool::Runner;
use recording::Step;
use std::cell::Cell;
use std::fmt::Display;
use step_words::{Mistake, SESSION, Spoken, is_json, spoken_of};
use text_io::CountedWriter;
use version_store::{StateRepresentation, Version};

/// A conversation about a recording.
#[derive(Drop)]
pub(crate) struct Talk<'a, K: StateRepresentation, W> {
    rt: &'a HostRuntime,
    setting: Setting<'a, W>,
    served: Served<'a, K, W>,
    /// By which words versions were made.
    versions: Versions,
    printed: Printed,
}

impl<'a, K: StateRepresentation, W: Runner> Talk<'a, K, W> {
    /// A conversation in which nothing was said.
    pub(crate) fn new(
        rt: &'a HostRuntime,
        setting: Setting<'a, W>,
        served: Served<'a, K, W>,
        printed: Printed,
    ) -> Talk<'a, K, W> {
        Talk {
            rt,
            setting,
            served,
            versions: Versions::new(rt.alloc()),
            printed,
        }
    }

    /// Opens the session to which lines are said, at version 0.
    pub(crate) fn begin(&mut self) -> Result<(), Fault> {
        let step = Step::Open {
            session: SESSION,
            version: 0,
        };
        self.give("", Answer::Step(step))
    }

    /// Asks for a line, by the number of the version at which the session stands.
    pub(crate) fn prompt(&mut self) -> Result<(), Fault> {
        // (where standard error can't be written nobody can be asked)
        let _ = match self.served.standing()? {
            Some(number) => self.rt.eprint(format_args!("{number}> ")),
            None => self.rt.eprint(format_args!("> ")),
        };
        Ok(())
    }

    /// Tells people something that is never left out.
    pub(crate) fn tell<D: Display + Drop>(&self, what: D) {
        self.setting.voice.tell(what);
    }

    /// The version at which the session stands; version 0 where it is closed.
    fn version(&self, number: Option<u32>) -> &Version<K> {
        self.served.version_or_last(number.unwrap_or(0))
    }

    /// What a line says of the version at which the session stands; of version 0 where it is closed.
    fn spoken(&self, number: Option<u32>, text: &str) -> Result<Spoken, Mistake> {
        spoken_of(self.setting.alloc, self.version(number).graph(), text)
    }

    /// Answers a line; whether another one may follow.
    pub(crate) fn hear(&mut self, line: &str) -> Result<bool, Fault> {
        let text = line.trim();
        let number = self.served.standing()?;
        match self.spoken(number, text) {
            Ok(spoken) => self.answer(number, text, spoken),
            Err(Mistake::Memory) => Err(Fault::Memory),
            Err(mistake) => {
                self.tell_mistake(number, text, &mistake)?;
                Ok(true)
            }
        }
    }

    /// Tells why a line says nothing.
    fn tell_mistake(
        &self,
        number: Option<u32>,
        text: &str,
        mistake: &Mistake,
    ) -> Result<(), Fault> {
        let graph = self.version(number).graph();
        let why = why_mistaken(&self.setting, graph, text, mistake)?;
        self.tell(why.as_str());
        Ok(())
    }

    /// Answers what a line says; whether another one may follow.
    fn answer(&mut self, number: Option<u32>, text: &str, spoken: Spoken) -> Result<bool, Fault> {
        match spoken {
            Spoken::Nothing => {}
            Spoken::Steps(steps) => {
                for step in steps.into_items() {
                    self.give(text, Answer::Step(step))?;
                }
            }
            Spoken::Versions => self.give(text, Answer::Versions(number))?,
            Spoken::Help(command) => {
                let help = help_of(self.setting.alloc, command)?;
                self.show(help.as_str())?;
            }
            Spoken::Quit => return Ok(false),
            spoken => self.give_of_head(number, text, spoken)?,
        }
        Ok(true)
    }

    /// Prints lines, or where steps are printed tells people of them.
    fn show(&self, lines: &str) -> Result<(), Fault> {
        match self.printed {
            Printed::Answers => print(self.rt, self.setting.voice, lines),
            Printed::Steps => {
                // (where standard error can't be written nobody can be told)
                let _ = self.rt.eprintln(format_args!("{lines}"));
                Ok(())
            }
        }
    }

    /// Gives what is answered of the version at which the session stands, or that it is closed, as the step is answered that asks
    /// for its head.
    fn give_of_head(
        &mut self,
        number: Option<u32>,
        text: &str,
        spoken: Spoken,
    ) -> Result<(), Fault> {
        let answer = match number {
            Some(number) => Answer::of_version(number, spoken),
            None => Some(Answer::Step(Step::Head { session: SESSION })),
        };
        match answer {
            Some(answer) => self.give(text, answer),
            None => Ok(()),
        }
    }

    /// Gives an answer to a text.
    fn give(&mut self, text: &str, answer: Answer) -> Result<(), Fault> {
        match self.printed {
            Printed::Answers => self.print_answer(text, answer),
            Printed::Steps => self.print_step(text, answer),
        }
    }

    /// Prints an answer to a text.
    fn print_answer(&mut self, text: &str, answer: Answer) -> Result<(), Fault> {
        let reason = Cell::new(None);
        let mut sink = output(self.rt, &reason)?;
        let end = write_answer(
            &self.setting,
            &mut self.served,
            &mut self.versions,
            text,
            answer,
            &mut sink,
        );
        with_reason(self.setting.voice, &reason, end)
    }

    /// Prints the step that is answered, if one is, and tells people the answer.
    fn print_step(&mut self, text: &str, answer: Answer) -> Result<(), Fault> {
        if let Answer::Step(step) = &answer {
            if is_json(text) {
                print(self.rt, self.setting.voice, text)?;
            } else {
                let line = step_text(self.setting.alloc, step)?;
                print(self.rt, self.setting.voice, line.as_str())?;
            }
        }
        let mut sink = CountedWriter::new(Vec::new(self.setting.alloc));
        write_answer(
            &self.setting,
            &mut self.served,
            &mut self.versions,
            text,
            answer,
            &mut sink,
        )?;
        let answer = sink.into_inner();
        tell_answer(self.rt, answer.as_slice());
        Ok(())
    }
}
