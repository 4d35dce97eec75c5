ghost use Rattle.fpl_bytes.specs.Reading.{Gives, items_at};
ghost use Rattle.fpl_section_bytes.specs.Reading.{coefficient_at, row_at};

use crate::terms::Payload;
use fpl_bytes::{ScanError, u32_field};
use fpl_log::{ClosedList, ClosedRow, Coefficient};
use std::alloc::Global;

impl Payload {
    #[tactic(auto, unfolding(crate::specs::Reading::coefficient_at))]
    fn coefficient(self, bytes: &[u8]) -> Result<(Coefficient, &[u8]), ScanError>
        ensures { Gives (λ x. (x.0, x.1.now)) result (coefficient_at self.version self.kind self.end bytes.now) }
    {
        let (symbol, rest) = u32_field(self.end, bytes)?;
        let (number, rest) = self.number(rest)?;
        Ok((Coefficient { symbol, number }, rest))
    }

    // There is room for what the bytes that are left can hold, and no more.
    fn row_of(
        self,
        alloc: Global,
        count: u32,
        bytes: &[u8],
    ) -> Result<(ClosedRow, &[u8]), ScanError>
        ensures { Gives (λ x. (x.0, x.1.now)) result (items_at (coefficient_at self.version self.kind self.end) count bytes.now) }
    {
        let room = (count as usize).min(bytes.len() / 8);
        let mut row = ClosedRow::with_capacity(alloc, room)?;
        let mut rest = bytes;
        for _ in 0..count {
            let (coefficient, after) = self.coefficient(rest)?;
            row.push(coefficient)?;
            rest = after;
        }
        Ok((row, rest))
    }

    fn row(self, alloc: Global, bytes: &[u8]) -> Result<(ClosedRow, &[u8]), ScanError>
        ensures { Gives (λ x. (x.0, x.1.now)) result (row_at self.version self.kind self.end bytes.now) }
    {
        let (count, rest) = u32_field(self.end, bytes)?;
        self.row_of(alloc, count, rest)
    }

    /// So many closed rows.
    pub fn rows_of(
        self,
        alloc: Global,
        count: u32,
        bytes: &[u8],
    ) -> Result<(ClosedList, &[u8]), ScanError>
        ensures { Gives (λ x. (x.0, x.1.now)) result (items_at (row_at self.version self.kind self.end) count bytes.now) }
    {
        let mut rows = ClosedList::new(alloc);
        let mut rest = bytes;
        for _ in 0..count {
            let (row, after) = self.row(alloc, rest)?;
            rows.push(row)?;
            rest = after;
        }
        Ok((rows, rest))
    }
}
