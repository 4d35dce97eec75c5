ghost use Rattle.std.specs.Prelude.{◌≡◌};
ghost use Rattle.fpl_syntax.specs.Sight.{sight};

use crate::{Scope, Word};

/// The number of the generator that a name stands for, from 1, or 0 where there is none.
pub fn number_of(scope: &Scope, word: Word) -> u32
    ensures { result ≡ (sight scope.now).number word }
{
    let name = word.bytes(scope.text);
    let mut number = 0;
    for g in scope.generators {
        number += 1;
        if g.name.text().as_bytes() == name {
            return number;
        }
    }
    0
}
