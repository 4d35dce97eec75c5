//! Laws of heads. Each function does nothing: what it ensures is the law.

ghost use Rattle.std.specs.Prelude.{◌≡◌, ◌<◌, ◌+◌, ◌^◌, ◌++◌, ◌⊎◌, ℕ, List, length, drop};
ghost use Rattle.fpl_model.specs.declared.presentation.Presentation.{Presentation};
ghost use Rattle.fpl_model.specs.Sound.{IsSound};
ghost use Rattle.fpl_canonical.specs.Canonical.{canonical_of};
ghost use Rattle.fpl_bytes.specs.declared.fault.BadBytes.{BadBytes};
ghost use Rattle.fpl_bytes.specs.Codes.{IsBytes};
ghost use Rattle.fpl_checkpoint.specs.declared.head.Head.{Head};
ghost use Rattle.fpl_checkpoint.specs.Heads.{head_bytes_of};
ghost use Rattle.fpl_checkpoint.specs.Scans.{HasHead, IsBadHead};

/// The head of a sound presentation is found, whatever stands after it; and where a head is found,
/// the bytes begin with that of its presentation.
pub fn heads_are_read_back()
    ensures again { (version : ℕ) (p : Presentation) (rest : List ℕ) → (version ≡ 1) ⊎ (version ≡ 2) → IsSound p → length (canonical_of p) < 2 ^ 32 →
        HasHead (head_bytes_of version p ++ rest) (record { presentation = p; version = version; end = 9 + length (canonical_of p) }) }
    ensures taken { (bytes : List ℕ) (h : Head) → IsBytes bytes → HasHead bytes h →
        ((h.version ≡ 1) ⊎ (h.version ≡ 2)) × (bytes ≡ head_bytes_of h.version h.presentation ++ drop h.end bytes) }
{}

/// Bytes have one head or one refusal of it, and not both.
pub fn one_head()
    ensures head { (bytes : List ℕ) (h g : Head) → HasHead bytes h → HasHead bytes g → h ≡ g }
    ensures refusal { (bytes : List ℕ) (f g : BadBytes) → IsBadHead bytes f → IsBadHead bytes g → f ≡ g }
    ensures apart { (bytes : List ℕ) (h : Head) (f : BadBytes) → HasHead bytes h → IsBadHead bytes f → ⊥ }
    ensures some { (bytes : List ℕ) → ((h : Head) × HasHead bytes h) ⊎ ((f : BadBytes) × IsBadHead bytes f) }
{}
