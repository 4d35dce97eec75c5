//! Laws of valid sections: those that the check of a section accepts.
//!
//! Each function does nothing: what it ensures are laws.
#![tactic(auto)]

ghost use Rattle.plain_sections.specs.Valid.{AcceptedInOrder, OneStepEach, SectionIsAccepted, SectionIsFor, SectionIsSlim, SlimIsAccepted, SlimIsFor, SlimIsSlim, WholeIsAccepted};

/// The steps of an accepted section are in order: what a step names comes before it, and what a
/// Close step closes is no dependent origin. Without the steps of dependent origins it is accepted
/// again, with the same rows.
pub fn accepted_sections()
    ensures order { AcceptedInOrder }
    ensures slim { SlimIsAccepted }
    ensures numbers { SlimIsFor }
    ensures again { SlimIsSlim }
{}

/// The section of a computed weight is accepted with the rows that were computed: as it was
/// recorded, and as it is kept, where it has one Insert step and one Close step for each closed row.
pub fn computed_sections()
    ensures whole { WholeIsAccepted }
    ensures section { SectionIsAccepted }
    ensures numbers { SectionIsFor }
    ensures again { SectionIsSlim }
    ensures steps { OneStepEach }
{}
