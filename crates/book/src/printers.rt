// How many printers a book has, and their lanes on opening.
ghost use Rattle.std.specs.Prelude.{◌≡◌, ◌<◌, ◌≤◌, true, false, MatchResult, IfOk};
ghost use Rattle.book.specs.Lanes.{printers_allowed, lane_start, opened_lane, opened_lanes};
ghost use Rattle.book.specs.declared.refusal.OpeningFault.TheVariants.{NumberOfPrinters};

use super::lane::Lane;
use super::refusal::OpeningFault;
use std::alloc::{AllocError, Global};

// A number of printers that a book may have.
#[derive(Clone, Copy)]
pub(crate) struct Printers {
    count: usize,
    ghost some: { 0 < count },
    ghost few: { count ≤ 16 },
}

impl TryFrom<usize> for Printers {
    type Error = OpeningFault;

    ghost try_from_gives = { λ k r. MatchResult r (λ p. (printers_allowed k ≡ true) × (p.count ≡ k)) (λ e. (printers_allowed k ≡ false) × (e ≡ NumberOfPrinters)) };

    fn try_from(count: usize) -> Result<Printers, OpeningFault> {
        if count < 1 || count > 16 {
            return Err(OpeningFault::NumberOfPrinters);
        }
        Ok(Printers { count })
    }
}

impl Printers {
    // Where the lane of printer i begins, with so many rows; that behind the last printer is where its lane ends.
    #[tactic(auto, using(crate::proofs::Starts::start_le))]
    fn lane_start(self, rows: u32, i: usize) -> u32
        requires { i ≤ self.count }
        ensures { result ≡ lane_start rows self.count i }
    {
        (i as u64 * u64::from(rows) / self.count as u64) as u32
    }

    // The lane of printer i on opening, with an empty hand.
    fn lane(self, rows: u32, i: usize) -> Lane
        requires { i < self.count }
        ensures { result ≡ opened_lane rows self.count i }
    {
        Lane {
            next: self.lane_start(rows, i),
            end: self.lane_start(rows, i + 1),
            hand: None,
        }
    }

    // The lanes on opening.
    pub(crate) fn lanes(self, rows: u32, heap: Global) -> Result<Vec<Lane>, AllocError>
        ensures { IfOk result (λ lanes. lanes.items ≡ opened_lanes rows self.count) }
    {
        (0..self.count).map(|i| self.lane(rows, i)).collect(heap)
    }
}
