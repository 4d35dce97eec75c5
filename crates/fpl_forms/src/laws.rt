//! What sums that are put in order obey.
//!
//! The functions do nothing: what they ensure are laws.
ghost use Rattle.fpl_forms.specs.Laws.{TidiedIsForm, MultipliedIsForm, JoinedAddUp, CombinedAddUp, BracketedAddUp, OneForm};

/// Tidied terms ascend by atom, none has number 0, and each atom has the number that it had.
pub fn sums_in_order()
    ensures { TidiedIsForm }
{}

/// The terms that multiples, sums, replaced atoms and brackets give have the numbers that they are to have, and forms with equal numbers are equal.
pub fn forms_add_up()
    ensures multiples { MultipliedIsForm }
    ensures sums { JoinedAddUp }
    ensures replaced { CombinedAddUp }
    ensures brackets { BracketedAddUp }
    ensures one { OneForm }
{}
