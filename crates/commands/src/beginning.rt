//! A recording to begin with.
use crate::printing::print_text;
use command_line::{Input, Manner};
use console::{Fault, Voice};
use recording_forms::Form;

/// Prints a recording to begin with.
pub fn run_new(rt: &HostRuntime, manner: Manner, form: Form) -> Result<(), Fault> {
    print_text(rt, Voice::new(rt, manner, Input::Standard), form.text())
}
