ghost use Rattle.std.specs.Prelude.{◌≡◌, ◌≤◌};
ghost use Rattle.fpl_check.specs.Refusal.{GivesCheck};
ghost use Rattle.fpl_check.specs.Steps.{test_cites};
ghost use Rattle.fpl_check.specs.Cited.{named};

use crate::{CheckFault, Spot, Why};
use fpl_log::{Step, StepList, Terms};

/// Which earlier steps may be cited.
#[derive(Clone, Copy, Debug)]
pub enum Cited {
    Inserts,
    Closes,
}

/// Whether `m` is a step of that sort before step `n`.
pub fn is_named(cited: Cited, steps: &StepList, n: u64, m: u64) -> bool
    ensures { result ≡ named cited steps.now n m }
{
    if m < 1 || m >= n {
        return false;
    }
    match steps.get(m as usize - 1) {
        None => false,
        Some(Step::Insert { .. }) => match cited {
            Cited::Inserts => true,
            Cited::Closes => false,
        },
        Some(Step::Close { .. }) => match cited {
            Cited::Inserts => false,
            Cited::Closes => true,
        },
    }
}

/// Tests that the terms of step `n` cite such steps alone.
pub fn test_cites(cited: Cited, steps: &StepList, n: u64, terms: &Terms) -> Result<(), CheckFault>
    ensures { GivesCheck (λ done. done) result (test_cites (named cited steps.now n) n terms.now) }
{
    for i in 0..terms.len() {
        match terms.get(i) {
            None => {}
            Some(term) => {
                if !is_named(cited, steps, n, term.step) {
                    return Err(CheckFault::Bad {
                        spot: Spot::Step(n),
                        why: Why::BadCite(term.step),
                    });
                }
            }
        }
    }
    Ok(())
}
