//! The plain run stands for the mathematics: a table that is raised weight by weight is the table of its presentation.
//!
//! Each function does nothing: what it ensures is a law.
#![tactic(auto)]

ghost use Rattle.plain_tables.specs.Holds.{HeldIsTable, PushHolds, PushKeepsShape, SoundIsSound, StartHolds, SymbolsAreSame, TablesAreOne, TruncatesHold};
ghost use Rattle.plain_tables.specs.Printed.{PrintedAreOver, PrintedHaveValues, StandardTreesArePrinted};
ghost use Rattle.plain_tables.specs.Raised.{RaisedAreOne};

/// A sound presentation is sound as far as the algebra goes, and a table names the symbols of its presentation.
pub fn presentations()
    ensures sound { SoundIsSound }
    ensures symbols { SymbolsAreSame }
{}

/// The invariant holds of the table through weight 0, goes on where closed rows that span exactly the source rows are pushed, and makes a table that of
/// its presentation.
pub fn raising()
    ensures start { StartHolds }
    ensures shape { PushKeepsShape }
    ensures push { PushHolds }
    ensures table { HeldIsTable }
{}

/// A presentation has one table through a weight. Raised tables are one list by list.
pub fn one_table()
    ensures one { TablesAreOne }
    ensures raised { RaisedAreOne }
{}

/// The invariant holds of the part of a table through a lower weight.
pub fn truncated()
    ensures { TruncatesHold }
{}

/// The bracket monomial that is printed for a basis element is its expression in the standard table, is over the presentation, and has that basis element
/// as its value.
pub fn printed_trees()
    ensures any { StandardTreesArePrinted }
    ensures over { PrintedAreOver }
    ensures values { PrintedHaveValues }
{}
