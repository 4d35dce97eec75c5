ghost use Rattle.fpl_bytes.specs.Numbers.{number_at};
ghost use Rattle.fpl_bytes.specs.Reading.{Gives, items_at};
ghost use Rattle.fpl_section_bytes.specs.Reading.{scale_at, term_at, terms_at};

use fpl_bytes::{ByteWhy, ScanError, Version, bad_bytes, number_field, u32_field, u64_field};
use fpl_log::{Term, Terms};
use fpl_scalar::{Kind, Num};
use std::alloc::Global;

/// How a payload is read: its version, its field, and the place where it ends.
#[derive(Clone, Copy)]
pub struct Payload {
    pub version: Version,
    pub kind: Kind,
    pub end: usize,
}

impl Payload {
    pub fn number(self, bytes: &[u8]) -> Result<(Num, &[u8]), ScanError>
        ensures { Gives (λ x. (x.0, x.1.now)) result (number_at self.version self.kind self.end bytes.now) }
    {
        number_field(self.version, self.kind, self.end, bytes)
    }

    /// The scale of an Insert step. The second version has none that is 0.
    #[tactic(auto, unfolding(crate::specs::Reading::scale_at))]
    pub fn scale(self, bytes: &[u8]) -> Result<(Num, &[u8]), ScanError>
        ensures { Gives (λ x. (x.0, x.1.now)) result (scale_at self.version self.kind self.end bytes.now) }
    {
        let (scale, rest) = self.number(bytes)?;
        if self.version == Version::Two && scale.numerator == 0 {
            return Err(bad_bytes(self.end, bytes, ByteWhy::BadNumber));
        }
        Ok((scale, rest))
    }

    #[tactic(auto, unfolding(crate::specs::Reading::term_at))]
    fn term(self, bytes: &[u8]) -> Result<(Term, &[u8]), ScanError>
        ensures { Gives (λ x. (x.0, x.1.now)) result (term_at self.version self.kind self.end bytes.now) }
    {
        let (step, rest) = u64_field(self.end, bytes)?;
        let (factor, rest) = self.number(rest)?;
        Ok((Term { step, factor }, rest))
    }

    // There is room for what the bytes that are left can hold, and no more.
    fn terms_of(self, alloc: Global, count: u32, bytes: &[u8]) -> Result<(Terms, &[u8]), ScanError>
        ensures { Gives (λ x. (x.0, x.1.now)) result (items_at (term_at self.version self.kind self.end) count bytes.now) }
    {
        let room = (count as usize).min(bytes.len() / 12);
        let mut terms = Terms::with_capacity(alloc, room)?;
        let mut rest = bytes;
        for _ in 0..count {
            let (term, after) = self.term(rest)?;
            terms.push(term)?;
            rest = after;
        }
        Ok((terms, rest))
    }

    /// The terms of a step, after their number.
    pub fn terms(self, alloc: Global, bytes: &[u8]) -> Result<(Terms, &[u8]), ScanError>
        ensures { Gives (λ x. (x.0, x.1.now)) result (terms_at self.version self.kind self.end bytes.now) }
    {
        let (count, rest) = u32_field(self.end, bytes)?;
        self.terms_of(alloc, count, rest)
    }
}
