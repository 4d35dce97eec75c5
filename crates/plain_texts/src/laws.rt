ghost use Rattle.std.specs.Prelude.{◌≡◌, ◌≤◌, ◌+◌, ◌*◌, ℕ, List, length, Result, IfOk, IfErr};
ghost use Rattle.fpl_model.specs.declared.presentation.Presentation.{Presentation};
ghost use Rattle.fpl_model.specs.Sound.{IsSound};
ghost use Rattle.fpl_reader.specs.declared.fault.ReaderError.{ReaderError};
ghost use Rattle.fpl_reader.specs.declared.fault.ReaderError.TheVariants.{NoMemory};
ghost use Rattle.fpl_reader.specs.Reading.{HasPresentation, Read};
ghost use Rattle.fpl_canonical.specs.Canonical.{canonical_of};

/// The canonical text of a sound presentation is read as that presentation, and as nothing else.
pub fn canonical_text_is_read()
    ensures presentation { (p : Presentation) → IsSound p → HasPresentation (canonical_of p) p }
    ensures answer { (p : Presentation) (answer : Result Presentation ReaderError) → IsSound p → Read (canonical_of p) answer →
        IfOk answer (λ q. q ≡ p) × IfErr answer (λ e. e ≡ NoMemory) }
{}

/// The canonical text of what is read is at most 16 times as long as the text, and 65536 bytes more.
pub fn canonical_text_is_short()
    ensures { (text : List ℕ) (p : Presentation) → HasPresentation text p → length (canonical_of p) ≤ 16 * length text + 65536 }
{}
