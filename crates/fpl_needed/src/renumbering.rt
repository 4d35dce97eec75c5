//! Rules with new numbers.
ghost use Rattle.std.specs.Prelude.{◌≡◌, length, map};
ghost use Rattle.math_proofs.specs.Renumbering.{renumbered};
ghost use Rattle.fpl_lines.specs.Meaning.{rule_in};
ghost use Rattle.fpl_needed.specs.Needed.{cited};
ghost use Rattle.fpl_needed.specs.Numbers.{IsWithin, AreWithin, number_in};

use fpl_lines::{Lines, Rule};

fn new_number(n: u64, new: &[u64]) -> u64
    requires { IsWithin (length new.now) n }
    ensures { result ≡ number_in new.now n }
{
    new[n as usize - 1]
}

fn new_numbers(mut lines: Lines, new: &[u64]) -> Lines
    requires { AreWithin (length new.now) lines }
    ensures { result ≡ map (number_in new.now) lines }
{
    for i in 0..lines.len() {
        let n = lines.as_slice()[i];
        lines.set(i, new_number(n, new));
    }
    lines
}

/// The rule with the new numbers of the lines that it cites.
pub(crate) fn renumbered(why: Rule, new: &[u64]) -> Rule
    requires { AreWithin (length new.now) (cited (rule_in why)) }
    ensures { rule_in result ≡ renumbered (number_in new.now) (rule_in why) }
{
    match why {
        Rule::Turn(n) => Rule::Turn(new_number(n, new)),
        Rule::Chain(n, m) => Rule::Chain(new_number(n, new), new_number(m, new)),
        Rule::Parts(lines) => Rule::Parts(new_numbers(lines, new)),
        Rule::Factor(n) => Rule::Factor(new_number(n, new)),
        Rule::Members(n, m) => Rule::Members(new_number(n, new), new_number(m, new)),
        other => other,
    }
}
