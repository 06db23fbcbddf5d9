//! Where ticks stand in a picture: a scale from ticks to whole units of length, and the round ticks of its axis.
#![tactic(auto)]

mod axis;
mod scale;

pub use axis::{axis_ticks, round_step};
pub use scale::{Bar, Scale};
