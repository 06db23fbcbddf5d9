//! A desk with its clients until its close.
ghost use Rattle.std.specs.Prelude.{◌≡◌};

use crate::calls::Trial;
use crate::refusals::{Refused, Window};
use crate::seats::{play, push_left};
use crate::tables::push_history;
use crate::told::Told;
use crate::turn::Shown;
use anyhow::Result;
use desk::{Client, Desk, Naming};
use level_pool::Runner;
use std::sync::Wait;
use version_store::StateRepresentation;

/// A desk that was started, with all its clients.
#[derive(Drop)]
pub(crate) struct Started<'a, N: Naming, R: StateRepresentation, H: Wait, W> {
    pub(crate) trial: &'a Trial<'a, H, W>,
    pub(crate) desk: Desk<N, R, &'a H>,
    pub(crate) clients: Vec<Client<N, R>>,
    pub(crate) ghost all: { N.clients ≡ N.parts },
}

impl<N: Naming, R: StateRepresentation, H: Wait, W: Runner> Started<'_, N, R, H, W> {
    /// Closes the desk in the window, and tells its log. If it stays open, the fault is told, and it comes back.
    fn close(self, window: &mut Window, text: &mut Told) -> Option<Self> {
        let Started {
            trial,
            desk,
            clients,
        } = self;
        window.begin();
        let answer = desk.close(clients);
        window.end();
        match answer {
            Ok(log) => {
                push_history(text, log.entries());
                None
            }
            Err((fault, desk, clients)) => {
                text.push_number(fault.number());
                Some(Started {
                    trial,
                    desk,
                    clients,
                })
            }
        }
    }

    /// The desk stays open, though it should not.
    fn stay(self, text: &mut Told) {
        text.keep(false);
    }

    /// Closes the desk in the window, which has to succeed.
    fn push_log(self, window: &mut Window, text: &mut Told) {
        if let Some(started) = self.close(window, text) {
            started.stay(text);
        }
    }

    /// Closes the desk with one more client, and tells its versions before.
    fn close_with(self, last: Client<N, R>, text: &mut Told) {
        let Started {
            trial,
            desk,
            clients,
        } = self;
        let mut clients = clients;
        let is_back = clients.push(last).is_ok();
        text.keep(is_back);
        push_left(trial, &desk, clients.as_mut_slice(), text);
        let started = Started {
            trial,
            desk,
            clients,
        };
        started.push_log(&mut Window::new(trial.alloc, Refused::None), text);
    }

    /// Closes the desk in the window before its last client is back, and then with it.
    fn close_before(self, last: Client<N, R>, window: &mut Window, shown: &mut Shown) {
        match self.close(window, &mut shown.answer) {
            Some(started) => started.close_with(last, &mut shown.after),
            None => shown.answer.keep(false),
        }
    }

    /// Closes the desk in the window without its last client, and then with it.
    fn close_without_last(mut self, window: &mut Window, shown: &mut Shown) {
        match self.clients.pop() {
            Some(last) => self.close_before(last, window, shown),
            None => self.stay(&mut shown.answer),
        }
    }

    /// Closes the desk: in the window, if the close is the call.
    fn end(self, windows: &mut [Window], shown: &mut Shown) {
        let (alloc, scene) = (self.trial.alloc, self.trial.scene);
        let mut with_memory = Window::new(alloc, Refused::None);
        match (scene.call, windows.first_mut()) {
            ("close", Some(window)) => self.push_log(window, &mut shown.answer),
            ("missing", Some(window)) => self.close_without_last(window, shown),
            _ => self.push_log(&mut with_memory, &mut shown.after),
        }
    }

    /// Plays a case, and closes the desk.
    pub(crate) fn show(self, windows: &mut [Window], shown: &mut Shown) -> Result<()> {
        let Started {
            trial,
            desk,
            clients,
        } = self;
        let mut clients = clients;
        let played = play(trial, &desk, clients.as_mut_slice(), windows, shown);
        let started = Started {
            trial,
            desk,
            clients,
        };
        started.end(windows, shown);
        played
    }
}
