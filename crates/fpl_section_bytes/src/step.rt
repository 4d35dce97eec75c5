ghost use Rattle.fpl_bytes.specs.Reading.{Gives, items_at};
ghost use Rattle.fpl_section_bytes.specs.Reading.{insert_at, close_at, step_at};

use crate::origin::{origin_field, tag_field};
use crate::tags::{CLOSE, INSERT};
use crate::terms::Payload;
use fpl_bytes::{ByteWhy, ScanError, bad_bytes, u64_field};
use fpl_log::{Step, StepList};
use std::alloc::Global;

impl Payload {
    #[tactic(auto, unfolding(crate::specs::Reading::insert_at))]
    fn insert(self, alloc: Global, bytes: &[u8]) -> Result<(Step, &[u8]), ScanError>
        ensures { Gives (λ x. (x.0, x.1.now)) result (insert_at self.version self.kind self.end bytes.now) }
    {
        let (origin, rest) = origin_field(self.version, self.end, bytes)?;
        let (scale, rest) = self.scale(rest)?;
        let (terms, rest) = self.terms(alloc, rest)?;
        let step = Step::Insert {
            origin,
            terms,
            scale,
        };
        Ok((step, rest))
    }

    #[tactic(auto, unfolding(crate::specs::Reading::close_at))]
    fn close(self, alloc: Global, bytes: &[u8]) -> Result<(Step, &[u8]), ScanError>
        ensures { Gives (λ x. (x.0, x.1.now)) result (close_at self.version self.kind self.end bytes.now) }
    {
        let (of, rest) = u64_field(self.end, bytes)?;
        let (terms, rest) = self.terms(alloc, rest)?;
        Ok((Step::Close { of, terms }, rest))
    }

    #[tactic(auto, unfolding(crate::specs::Reading::step_at))]
    fn step(self, alloc: Global, bytes: &[u8]) -> Result<(Step, &[u8]), ScanError>
        ensures { Gives (λ x. (x.0, x.1.now)) result (step_at self.version self.kind self.end bytes.now) }
    {
        let (tag, rest) = tag_field(self.end, bytes)?;
        if tag == INSERT {
            self.insert(alloc, rest)
        } else if tag == CLOSE {
            self.close(alloc, rest)
        } else {
            Err(bad_bytes(self.end, bytes, ByteWhy::BadTag))
        }
    }

    /// So many steps.
    pub fn steps_of(
        self,
        alloc: Global,
        count: u64,
        bytes: &[u8],
    ) -> Result<(StepList, &[u8]), ScanError>
        ensures { Gives (λ x. (x.0, x.1.now)) result (items_at (step_at self.version self.kind self.end) count bytes.now) }
    {
        let mut steps = StepList::new(alloc);
        let mut rest = bytes;
        for _ in 0..count {
            let (step, after) = self.step(alloc, rest)?;
            steps.push(step)?;
            rest = after;
        }
        Ok((steps, rest))
    }
}
