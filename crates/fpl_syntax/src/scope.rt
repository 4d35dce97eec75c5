ghost use Rattle.std.specs.Prelude.{◌≡◌, ◌≤◌, length, IsTrue};
ghost use Rattle.std.specs.Prelude.{true};
ghost use Rattle.fpl_syntax.specs.Grammar.{coefficient_of};
ghost use Rattle.fpl_syntax.specs.Kinds.{is_field};

use fpl_model::{Generator, Scalar};
use fpl_numbers::Kind;

/// How the names and numbers of a text are understood.
#[derive(Drop)]
pub struct Scope<'a> {
    pub kind: Kind,
    pub text: &'a [u8],
    pub generators: &'a [Generator],
    /// The number of a term that has a `-` and no number, made once for all of them.
    pub minus_one: &'a Scalar,
    ghost few: { length generators.now ≤ 64 },
    ghost known: { IsTrue (is_field kind) },
    ghost minus: { minus_one.now ≡ coefficient_of kind true 1 1 },
}
