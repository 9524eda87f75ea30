// Label to row and row to label, shape by shape. The same nodes are made in both: one enum of them would need an `impl Node`
// with a match in each method.
// At `Sums` the order is written out, so that the loop over the values is compiled for each order: with the order asked for at
// each value, a row of `choose` or `door` took a third more time.
ghost use Rattle.std.specs.Prelude.{◌≡◌, ◌<◌, length};
ghost use Rattle.walk.specs.Rows.{row_at, label_of};
ghost use Rattle.kinds.specs.Shapes.{rows_of};

use super::super::multiset::WordsNode;
use super::super::plain_changes::{find_changes, write_changes};
use super::super::radix::RadixNode;
use super::super::shape::{Order, Shape};
use super::super::sums::StockNode;
use super::super::tree::{find_row, write_row};
use super::Kind;

impl Kind {
    // Writes the row at the place into a tray as wide as a row.
    #[tactic(auto, using(crate::specs::MixedRadix::mixed_length, crate::specs::RowSums::filled_length))]
    pub(crate) fn write_row(&self, tray: &mut [u8])
        requires some { 0 < self.now.size }
        requires wide { length tray.old ≡ self.now.width }
        ensures { tray.new ≡ row_at (rows_of self.now.shape) self.now.place }
    {
        let label = self.place;
        match &self.shape {
            Shape::Radices(levels, order) => {
                write_row(RadixNode::new(levels, *order), label, tray)
            }
            Shape::Sums(bins, sum, Order::Rising) => {
                write_row(StockNode::new(bins, *sum, Order::Rising), label, tray)
            }
            Shape::Sums(bins, sum, Order::Reflected) => {
                write_row(StockNode::new(bins, *sum, Order::Reflected), label, tray)
            }
            Shape::Words(counts) => write_row(WordsNode::new(counts, self.size), label, tray),
            Shape::Changes(_) => write_changes(label, tray),
        }
    }

    // The label of a row, if it is one of the kind's.
    #[tactic(auto, using(crate::specs::MixedRadix::mixed_length, crate::specs::RowSums::filled_length, crate::specs::ShapeLaws::no_rows, crate::specs::ShapeLaws::other_width))]
    pub(crate) fn find_row(&self, row: &[u8]) -> Option<u32>
        ensures { result ≡ label_of (rows_of self.now.shape) row.now }
    {
        let size = self.size;
        if size == 0 || row.len() != self.width {
            return None;
        }
        match &self.shape {
            Shape::Radices(levels, order) => find_row(RadixNode::new(levels, *order), size, row),
            Shape::Sums(bins, sum, Order::Rising) => {
                find_row(StockNode::new(bins, *sum, Order::Rising), size, row)
            }
            Shape::Sums(bins, sum, Order::Reflected) => {
                find_row(StockNode::new(bins, *sum, Order::Reflected), size, row)
            }
            Shape::Words(counts) => find_row(WordsNode::new(counts, size), size, row),
            Shape::Changes(_) => find_changes(row),
        }
    }
}
