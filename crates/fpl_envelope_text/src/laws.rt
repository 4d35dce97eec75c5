//! What the text of the view says.
//!
//! The function does nothing: what it ensures is a law.
ghost use Rattle.fpl_envelope_text.specs.Shows.{EnvelopeShows};

/// The text counts the ordered words by parity, and lists the products with their straight forms.
pub fn envelope_shows()
    ensures { EnvelopeShows }
{}
