//! Reading a command from its words.
ghost use Rattle.std.specs.Prelude.{◌≡◌, ◌≤◌, ◌<◌, ◌+◌, ◌^◌, ◌↔◌, ℕ, IfSome, IfNone, IsTrue, decimal};
ghost use Rattle.fpl_run.specs.Words.{spelled, IsCommand, view_name, most_limit};
ghost use Rattle.fpl_run.specs.declared.words.View.{View};
ghost use Rattle.fpl_run.specs.declared.words.Command.{Command};

use crate::words::{Command, View};
use itoa::Buffer;

fn view_named(word: &str) -> Option<View>
    ensures some { IfSome result (λ v. word.now ≡ view_name v) }
    ensures none { IfNone result ((v : View) → word.now ≡ view_name v → ⊥) }
{
    match word {
        "table" => Some(View::Table),
        "series" => Some(View::Series),
        "gap" => Some(View::Gap),
        "log" => Some(View::Log),
        "checkpoint" => Some(View::Checkpoint),
        "centre" => Some(View::Centre),
        "lcs" => Some(View::Lcs),
        "ideal" => Some(View::Ideal),
        "cohomology" => Some(View::Cohomology),
        "equal" => Some(View::Equal),
        "check" => Some(View::Check),
        "map" => Some(View::Map),
        "sample" => Some(View::Sample),
        "envelope" => Some(View::Envelope),
        "why" => Some(View::Why),
        _ => None,
    }
}

/// The name of a view.
pub(crate) fn name_of(view: View) -> &'static [u8]
    ensures { result.now ≡ view_name view }
{
    match view {
        View::Table => b"table",
        View::Series => b"series",
        View::Gap => b"gap",
        View::Log => b"log",
        View::Checkpoint => b"checkpoint",
        View::Centre => b"centre",
        View::Lcs => b"lcs",
        View::Ideal => b"ideal",
        View::Cohomology => b"cohomology",
        View::Equal => b"equal",
        View::Check => b"check",
        View::Map => b"map",
        View::Sample => b"sample",
        View::Envelope => b"envelope",
        View::Why => b"why",
    }
}

// A decimal number without a sign or a leading zero, so that it prints as it was spelled.
fn number(word: &str) -> Option<u64>
    ensures some { IfSome result (λ n. word.now ≡ decimal n) }
    ensures none { IfNone result ((n : ℕ) → n < 2 ^ 64 → word.now ≡ decimal n → ⊥) }
{
    let Ok(n) = word.parse::<u64>() else {
        return None;
    };
    let mut buffer = Buffer::new();
    if buffer.format(n).as_bytes() == word.as_bytes() {
        Some(n)
    } else {
        None
    }
}

// A number from 1 to `most`.
#[tactic(auto, using(crate::proofs::Names::names))]
fn number_within(word: &str, most: u32) -> Option<u32>
    ensures some { IfSome result (λ n. (word.now ≡ decimal n) × (1 ≤ n) × (n ≤ most)) }
    ensures none { IfNone result ((n : ℕ) → word.now ≡ decimal n → 1 ≤ n → n ≤ most → ⊥) }
{
    let n = number(word)?;
    if n < 1 || n > u64::from(most) {
        return None;
    }
    Some(n as u32)
}

fn most_limit(view: View) -> u32
    ensures { result ≡ most_limit view }
{
    match view {
        View::Sample => 64,
        _ => 1000,
    }
}

/// The command that the words spell, without the program's name. It takes no memory.
#[tactic(auto, using(crate::proofs::Names::names))]
pub fn command(words: &Vec<String>) -> Option<Command>
    ensures some { IfSome result (IsCommand (spelled words.now.items)) }
    ensures one { IfSome result (λ c. (d : Command) → IsCommand (spelled words.now.items) d → d ≡ c) }
    ensures none { IfNone result ((c : Command) → IsCommand (spelled words.now.items) c → ⊥) }
{
    match words.as_slice() {
        [view, limit] => {
            let view = view_named(view.as_str())?;
            let limit = number_within(limit.as_str(), most_limit(view))?;
            Some(Command {
                view,
                limit,
                entries: 200_000,
            })
        }
        [view, limit, entries] => {
            let view = view_named(view.as_str())?;
            let limit = number_within(limit.as_str(), most_limit(view))?;
            let entries = number_within(entries.as_str(), 2_000_000)?;
            Some(Command {
                view,
                limit,
                entries: u64::from(entries),
            })
        }
        _ => None,
    }
}
