//! What the built-in presentation is.
//!
//! The function does nothing: what it ensures is a law.
ghost use Rattle.fpl_sample.specs.Laws.{TypeAIsSound};

/// The presentation of type A is sound, so that a table can be made of it.
pub fn type_a_is_sound()
    ensures { TypeAIsSound }
{}
