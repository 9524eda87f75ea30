// What the book keeps: lanes and hands, the waiting labels, and how many rows the bench has.
ghost use Rattle.std.specs.Prelude.{◌+◌, ◌≤◌, vec_len};
ghost use Rattle.std.specs.VecDeque.{deque_len, deque_capacity};
ghost use Rattle.book.specs.Lanes.{hands, undrawn};

use super::lane::Lane;
use std::collections::VecDeque;

#[derive(Drop)]
pub struct Ledger {
    pub(crate) lanes: Vec<Lane>,
    // the labels of spoiled prints, in order of arrival
    pub(crate) waiting: VecDeque<u32>,
    pub(crate) bench: u32,
    // everything that is counted fits 32 bits
    ghost few: { bench + hands lanes.items + deque_len waiting + undrawn lanes.items ≤ 4294967295 },
    // no more labels are out than there are printers
    ghost out: { hands lanes.items + deque_len waiting ≤ vec_len lanes },
    // and each of them has room among the waiting ones
    ghost room: { vec_len lanes ≤ deque_capacity waiting },
}
