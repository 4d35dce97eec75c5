//! `run`: what the program does with its words and its input.
#![tactic(auto)]

ghost use Rattle.std.specs.Prelude.{◌≡◌, ◌<◌};

mod check_text;
mod laws;
mod made;
mod map;
mod proved;
mod ranked;
mod read;
mod separator;
mod spelling;
mod start;
mod stream;
mod task;
mod top;
mod walk;
mod words;
mod written;

pub use laws::{one_reply, one_text, own_checkpoints, stops, walks_are_standard, within_limits};
pub use spelling::command;
pub use task::{Task, Way};
pub use top::run;
pub use words::{Command, View};
