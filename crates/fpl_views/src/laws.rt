//! What the texts of the views obey.
//!
//! Each function does nothing: what it ensures are laws.
ghost use Rattle.fpl_views.specs.Laws.{TextsAreOfTables, TextsFitOverPrimes, TextsShow};

/// The text that a view gives shows what the view promises. Over a prime every operation of a view fits.
pub fn views_show()
    ensures show { TextsShow }
    ensures fit { TextsFitOverPrimes }
{}

/// The text of a view of the table alone is the same whatever sections the table was raised by.
pub fn views_of_tables()
    ensures { TextsAreOfTables }
{}
