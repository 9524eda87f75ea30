// Opening a book.
ghost use Rattle.std.specs.Prelude.{MatchResult, IfOk};
ghost use Rattle.walk.specs.Meaning.{size};
ghost use Rattle.book.specs.Opening.{OpensLedger, NoLedger, Opens};
ghost use Rattle.book.specs.State.{state};
ghost use Rattle.book.specs.WholeLife.{WholeLife};

use super::book::Book;
use super::ledger::Ledger;
use super::printers::Printers;
use super::refusal::OpeningFault;
use std::alloc::Global;
use std::collections::VecDeque;
use walk::Walk;
use walk::making::Refused;

impl Ledger {
    // The ledger of a freshly opened book on the walk.
    #[tactic(auto, using(crate::proofs::Starts::hands_opened, crate::proofs::Starts::undrawn_opened))]
    fn open<W: Walk>(walk: &W, printers: usize, heap: Global) -> Result<Ledger, OpeningFault>
        ensures { MatchResult result (OpensLedger (size (W.Walk.meaning walk.now)) printers) (NoLedger printers) }
    {
        // The walk is asked for its size only once there may be so many printers.
        let lanes = Printers::try_from(printers)?.lanes(walk.size(), heap)?;
        let waiting = VecDeque::with_capacity(heap, lanes.len())?;
        Ok(Ledger {
            lanes,
            waiting,
            bench: 0,
        })
    }
}

impl<W: Walk> Book<W> {
    // A book on the walk, with so many printers. A refusal opens no book and gives the walk back as it was.
    #[tactic(auto, using(crate::proofs::WholeLives::opened_life, crate::proofs::WholeLives::not_opened))]
    pub fn open(walk: W, printers: usize, heap: Global) -> Result<Book<W>, Refused<OpeningFault, W>>
        ensures answer { Opens W.Walk.meaning walk printers result }
        ensures life { IfOk result (λ b. WholeLife (state W.Walk.meaning b)) }
    {
        // A match, since the walk goes into either answer: two closures could not both take it.
        match Ledger::open(&walk, printers, heap) {
            Ok(ledger) => Ok(Book { walk, ledger }),
            Err(fault) => Err(Refused { fault, kept: walk }),
        }
    }
}
