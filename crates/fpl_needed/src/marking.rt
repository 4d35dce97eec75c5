//! Which lines are needed, and their new numbers. Here 0 stands for a line that isn't needed.
ghost use Rattle.std.specs.Prelude.{◌≡◌, ◌≤◌, length, replicate, IfOk};
ghost use Rattle.fpl_lines.specs.Meaning.{rule_in};
ghost use Rattle.fpl_needed.specs.Needed.{cited};
ghost use Rattle.fpl_needed.specs.Numbers.{AreWithin, CiteEarlier, marked, IsMarked, numbered, AreNumbers};

use fpl_lines::{Line, Rule};
use std::alloc::{AllocError, Global};

/// Marks each line that a rule cites.
fn mark_cited(needed: &mut [u64], why: &Rule)
    requires { AreWithin (length needed.old) (cited (rule_in why.now)) }
    ensures { needed.new ≡ marked needed.old (cited (rule_in why.now)) }
{
    match why {
        Rule::Turn(n) | Rule::Factor(n) => needed[*n as usize - 1] = 1,
        Rule::Chain(n, m) | Rule::Members(n, m) => {
            needed[*n as usize - 1] = 1;
            needed[*m as usize - 1] = 1;
        }
        Rule::Parts(lines) => mark_all(needed, lines.as_slice()),
        _ => {}
    }
}

fn mark_all(needed: &mut [u64], lines: &[u64])
    requires { AreWithin (length needed.old) lines.now }
    ensures { needed.new ≡ marked needed.old lines.now }
{
    for n in lines {
        needed[*n as usize - 1] = 1;
    }
}

/// From the last line on, marks each line that a marked one cites.
fn mark_needed(needed: &mut [u64], lines: &[Line])
    requires cite { CiteEarlier lines.now }
    requires last { IsMarked lines.now needed.old (length lines.now) }
    ensures { IsMarked lines.now needed.new 0 }
{
    for i in (0..lines.len()).rev() {
        if needed[i] > 0 {
            mark_cited(needed, &lines[i].why);
        }
    }
}

/// Numbers the marked lines, from 1.
fn number(needed: &mut [u64])
    ensures { needed.new ≡ numbered 0 needed.old }
{
    let mut count = 0;
    for n in needed.iter_mut() {
        if *n > 0 {
            count += 1;
            *n = count;
        }
    }
}

fn put_numbers(new: &mut [u64], lines: &[Line])
    requires some { 1 ≤ length lines.now }
    requires cite { CiteEarlier lines.now }
    requires blank { new.old ≡ replicate (length lines.now) 0 }
    ensures { AreNumbers lines.now new.new }
{
    new[lines.len() - 1] = 1;
    mark_needed(new, lines);
    number(new);
}

/// The new number of each line that the last one needs, and 0 for each other.
pub(crate) fn numbers(alloc: Global, lines: &[Line]) -> Result<Vec<u64>, AllocError>
    requires some { 1 ≤ length lines.now }
    requires cite { CiteEarlier lines.now }
    ensures { IfOk result (λ new. AreNumbers lines.now new.items) }
{
    let mut new = vec![in alloc; 0; lines.len()]?;
    put_numbers(new.as_mut_slice(), lines);
    Ok(new)
}
