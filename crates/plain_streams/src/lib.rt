//! Laws of own streams: the checkpoints that a run writes for a presentation.
//!
//! Each function does nothing: what it ensures are laws.
#![tactic(auto)]

ghost use Rattle.plain_streams.specs.Laws.{HaveHeads, HeadsAreOf, OwnStreamsGive, OwnStreamsPass, RunsKeepSections, RunsWriteStreams, SmallStreams};

/// A stream of a presentation, in either version, whole or cut at any byte after its head, gives
/// what the presentation gives: the same table, the same sections, the same reason to stop. A
/// check never refuses it.
pub fn own_streams()
    ensures heads { HaveHeads }
    ensures holds { HeadsAreOf }
    ensures give { OwnStreamsGive }
    ensures pass { OwnStreamsPass }
{}

/// What a run keeps for a presentation is what a stream of the second version holds. There is one of
/// the first version where no origin is a cube and no number of a section is too large for it.
pub fn written_streams()
    ensures kept { RunsKeepSections }
    ensures streams { RunsWriteStreams }
    ensures small { SmallStreams }
{}
