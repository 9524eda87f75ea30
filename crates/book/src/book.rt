// The book of one trial.
use super::ledger::Ledger;

// A book stands on one walk. It is never copied.
#[derive(Drop)]
pub struct Book<W> {
    pub(crate) walk: W,
    pub(crate) ledger: Ledger,
}
