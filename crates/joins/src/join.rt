// Two walks joined: each row of the left one followed by the rows of the right one.
ghost use Rattle.std.specs.Prelude.{◌≡◌, ◌<◌, true, false, ◌&&◌, is_ok};
ghost use Rattle.walk.specs.Meaning.{size};
ghost use Rattle.walk.specs.Rows.{odd};
ghost use Rattle.joins.specs.Steps.{goes_down, steps, after_step};
ghost use Rattle.joins.specs.Join.{swings, mirrored, joined_label, join_size, join_meaning, Joins};
ghost use Rattle.joins.specs.JoinLaws.{join_lawful};

use super::fault::JoinFault;
use super::way::Way;
use walk::Walk;
use walk::answers::Refusal;
use walk::making::{MakingFault, Refused};

// The order of the right rows: always the same, or backward after a left row with an odd label.
#[derive(Clone, Copy, PartialEq, Eq, Debug)]
pub enum Order {
    Odometer,
    Swing,
}

// It stands where the two walks stand.
#[derive(Drop)]
pub struct Join<L, R> {
    left: L,
    right: R,
    order: Order,
}

// The number of rows of a join, or why there can be none.
fn join_size<L: Walk, R: Walk>(left: &L, right: &R) -> Result<u32, JoinFault>
    ensures { result ≡ join_size (L.Walk.meaning left.now) (R.Walk.meaning right.now) }
{
    if left.width() + right.width() > 64 {
        return Err(JoinFault::TooWide);
    }
    left.size()
        .checked_mul(right.size())
        .ok_or(JoinFault::Making(MakingFault::TooManyRows))
}

impl<L: Walk, R: Walk> Join<L, R> {
    // For each left row, in order, every right row in order.
    pub fn odometer(left: L, right: R) -> Result<Join<L, R>, Refused<JoinFault, (L, R)>>
        ensures { Joins L.Walk.meaning R.Walk.meaning false left right result }
    {
        Join::new(Order::Odometer, left, right)
    }

    // The same, with the right rows backward after a left row with an odd label.
    pub fn swing(left: L, right: R) -> Result<Join<L, R>, Refused<JoinFault, (L, R)>>
        ensures { Joins L.Walk.meaning R.Walk.meaning true left right result }
    {
        Join::new(Order::Swing, left, right)
    }

    // The join in that order, standing at 0. A refusal gives the walks back as they were.
    pub fn new(
        order: Order,
        mut left: L,
        mut right: R,
    ) -> Result<Join<L, R>, Refused<JoinFault, (L, R)>>
        ensures { Joins L.Walk.meaning R.Walk.meaning (swings order) left right result }
    {
        // No `?`, since the refusal takes the walks along.
        if let Err(fault) = join_size(&left, &right) {
            return Err(Refused {
                fault,
                kept: (left, right),
            });
        }
        let _ = left.seek(0);
        let _ = right.seek(0);
        Ok(Join { left, right, order })
    }

    // The number of rows.
    #[tactic(auto, using(crate::proofs::JoinCalls::join_rows))]
    fn rows(&self) -> u32
        ensures { result ≡ size (join_meaning L.Walk.meaning R.Walk.meaning self.now) }
    {
        join_size(&self.left, &self.right).unwrap_or(0)
    }

    // Whether the right rows come backward under the left row i.
    fn backward(&self, i: u32) -> bool
        ensures { result ≡ (swings self.now.order && odd i) }
    {
        self.order == Order::Swing && i % 2 == 1
    }

    // The right label j, counted from the other end where the right rows come backward under the left row i.
    fn under(&self, i: u32, j: u32) -> u32
        requires { j < size (R.Walk.meaning self.now.right) }
        ensures { result ≡ mirrored (swings self.now.order && odd i) (size (R.Walk.meaning self.now.right)) j }
    {
        if self.backward(i) {
            self.right.size() - 1 - j
        } else {
            j
        }
    }

    // The label of the left row i followed by the right row j.
    fn label(&self, i: u32, j: u32) -> u32
        requires fits { is_ok (join_size (L.Walk.meaning self.now.left) (R.Walk.meaning self.now.right)) ≡ true }
        requires left { i < size (L.Walk.meaning self.now.left) }
        requires right { j < size (R.Walk.meaning self.now.right) }
        ensures { result ≡ joined_label (swings self.now.order) (size (R.Walk.meaning self.now.right)) i j }
    {
        i * self.right.size() + self.under(i, j)
    }

    // Goes one label that way: the right walk steps if it can, and else the left one.
    fn step(&mut self, way: Way) -> Result<(), Refusal>
        ensures answer { result ≡ steps (goes_down way) (join_meaning L.Walk.meaning R.Walk.meaning self.old) }
        ensures after { join_meaning L.Walk.meaning R.Walk.meaning self.new ≡ after_step (goes_down way) (join_meaning L.Walk.meaning R.Walk.meaning self.old) }
    {
        if self.rows() == 0 {
            return Err(Refusal::NoSuchLabel);
        }
        let back = self.backward(self.left.place());
        if way.turned(back).step(&mut self.right).is_ok() {
            return Ok(());
        }
        way.step(&mut self.left)?;
        match self.order {
            Order::Odometer => way.begin(&mut self.right),
            Order::Swing => Ok(()),
        }
    }
}

impl<L: Walk, R: Walk> Walk for Join<L, R> {
    ghost meaning = { join_meaning L.Walk.meaning R.Walk.meaning };

    ghost lawful = { λ w. join_lawful (swings w.order) (L.Walk.meaning w.left) (R.Walk.meaning w.right) (L.Walk.lawful w.left) (R.Walk.lawful w.right) };

    fn size(&self) -> u32 {
        self.rows()
    }

    fn width(&self) -> usize {
        join_size(&self.left, &self.right).map_or(0, |_| self.left.width() + self.right.width())
    }

    fn place(&self) -> u32 {
        if self.rows() == 0 {
            return 0;
        }
        self.label(self.left.place(), self.right.place())
    }

    fn steady(&self) -> bool {
        self.order == Order::Swing
            && join_size(&self.left, &self.right).is_ok()
            && self.left.steady()
            && self.right.steady()
    }

    #[tactic(auto, using(crate::proofs::JoinCalls::some_rows))]
    fn seek(&mut self, label: u32) -> Result<(), Refusal> {
        if label >= self.rows() {
            return Err(Refusal::NoSuchLabel);
        }
        let n = self.right.size();
        let i = label / n;
        let j = self.under(i, label % n);
        self.left.seek(i)?;
        self.right.seek(j)
    }

    fn read(&self, tray: &mut [u8]) -> Result<(), Refusal> {
        if self.rows() == 0 {
            return Err(Refusal::NoSuchLabel);
        }
        let width = self.left.width();
        if tray.len() < width + self.right.width() {
            return Err(Refusal::ShortTray);
        }
        self.left.read(tray)?;
        self.right.read(&mut tray[width..])
    }

    #[tactic(auto, using(crate::proofs::JoinCalls::some_rows, crate::proofs::JoinCalls::join_lost_left, walk::proofs::Cases::found_below))]
    fn find(&self, row: &[u8]) -> Result<u32, Refusal> {
        let width = self.left.width();
        if self.rows() == 0 || row.len() != width + self.right.width() {
            return Err(Refusal::NoSuchRow);
        }
        let i = self.left.find(&row[0..width])?;
        let j = self.right.find(&row[width..])?;
        Ok(self.label(i, j))
    }

    fn advance(&mut self) -> Result<(), Refusal> {
        self.step(Way::Up)
    }

    fn back(&mut self) -> Result<(), Refusal> {
        self.step(Way::Down)
    }
}
