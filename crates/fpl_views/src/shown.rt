//! The texts of the views.
ghost use Rattle.std.specs.Prelude.{◌≡◌, ◌≤◌, ◌↔◌, Ok, Err, IfOk, IsErrOf, IsTrue};
ghost use Rattle.fpl_reply.specs.declared.view_fault.ViewFault.{ViewFault};
ghost use Rattle.fpl_model.specs.Sound.{IsSound};
ghost use Rattle.fpl_table.specs.Standard.{IsTableOf};
ghost use Rattle.fpl_views.specs.Views.{text_of_view, IsCounted, IsOverPrimes, IsServed};

use crate::centre::show_centre;
use crate::cohomology::show_cohomology;
use crate::envelope::show_envelope;
use crate::equal::show_equal;
use crate::gap::show_gap;
use crate::ideal::show_ideal;
use crate::lcs::show_lcs;
use crate::log::show_log;
use crate::sample::show_sample;
use crate::series::show_series;
use crate::table::show_table;
use crate::viewed::{Viewed, residues};
use fpl_log::Sections;
use fpl_model::Presentation;
use fpl_reply::ViewFault;
use fpl_steps::Steps;
use fpl_table::Table;
use std::alloc::Global;
use std::sync::ledger::Ledger;

/// What is shown of a table.
#[derive(Clone, Copy, Debug, PartialEq, Eq)]
pub enum Shown {
    /// The commutator table.
    Table,
    /// How many even and how many odd basis elements each weight has.
    Series,
    /// The table as a record of GAP.
    Gap,
    /// The steps and closed rows of each weight.
    Log,
    /// Whether the two sides of each query are equal.
    Equal,
    /// How large the table is: the size of its basis and of each weight, and how many brackets aren't 0.
    Sample,
    /// What represents H1 and H2, weight by weight.
    Cohomology,
    /// The centre.
    Centre,
    /// The lower central series.
    Lcs,
    /// The ideal that the presentation's ideal elements generate.
    Ideal,
    /// The enveloping superalgebra, in ordered words.
    Envelope,
}

impl Shown {
    /// Whether the view works over primes alone.
    pub fn is_over_primes(self) -> bool
        ensures { IsTrue result ↔ IsOverPrimes self }
    {
        match self {
            Shown::Table
            | Shown::Series
            | Shown::Gap
            | Shown::Log
            | Shown::Equal
            | Shown::Sample
            | Shown::Cohomology
            | Shown::Centre
            | Shown::Lcs
            | Shown::Ideal => false,
            Shown::Envelope => true,
        }
    }
}

/// Why a view has no text.
#[derive(Clone, Copy, Debug, PartialEq, Eq)]
pub enum ShowError {
    Fault(ViewFault),
    NoMemory,
}

/// The text of a view of the presentation's table, which was raised by the sections.
///
/// A fault is the first of the view's own operations that doesn't fit, or the number of its words, where it is more than `entries`.
/// A view that eliminates takes a step for each row that it gives. A view over primes alone has no text over fractions.
pub fn show<F: Viewed, L: Ledger>(
    alloc: Global,
    shown: Shown,
    entries: u64,
    p: &Presentation,
    table: &Table<F>,
    sections: &Sections,
    steps: &mut Steps<L>,
) -> Result<Vec<u8>, ShowError>
    requires entries { entries ≤ 2000000 }
    requires sound { IsSound p.now }
    requires standard { IsTableOf p.now table.now.weight table.now }
    requires served { IsServed shown p.now.field }
    ensures text { IfOk result (λ text. text_of_view shown entries p.now table.now sections.now ≡ Ok text.items) }
    ensures fault { (fault : ViewFault) → IsErrOf result (ShowError.Fault fault) → text_of_view shown entries p.now table.now sections.now ≡ Err fault }
    ensures rises { steps.old ≤ steps.new }
    ensures idle { IsCounted shown → steps.new ≡ steps.old }
{
    match shown {
        Shown::Table => show_table(alloc, p, table),
        Shown::Series => show_series(alloc, p, table),
        Shown::Gap => show_gap(alloc, p, table),
        Shown::Log => show_log(alloc, p, table, sections),
        Shown::Equal => show_equal(alloc, p, table),
        Shown::Sample => show_sample(alloc, table),
        Shown::Cohomology => show_cohomology(alloc, p, table, steps),
        Shown::Centre => show_centre(alloc, table, steps),
        Shown::Lcs => show_lcs(alloc, table, steps),
        Shown::Ideal => show_ideal(alloc, p, table, steps),
        Shown::Envelope => show_envelope(alloc, entries, p, residues(table)),
    }
}
