// Rows as a tree: the first value of a row is a branch, and what is left of the row is a row of the node there. Label to
// row and row to label are written and proved here once, for every such tree.
ghost use Rattle.std.specs.Prelude.{◌≡◌, ℕ, ◌+◌, ◌<◌, ◌≤◌, List, [], ◌∷◌, ◌++◌, length, OnSome};
ghost use Rattle.walk.specs.Rows.{Row, row_at, label_of};
ghost use Rattle.std.specs.Iterator.{AlwaysYields, UpTo};
ghost use Rattle.kinds.specs.Tree.{Enters, FallsIn, label_in, label_within, after_both};

use super::stretch::Stretch;

impl Stretch {
    // The label in the inner list of the row at a label of the outer one.
    fn label_within(self, label: u32) -> u32
        requires from { self.from ≤ label }
        requires to { label < self.from + self.count }
        ensures { result ≡ label_within self label }
    {
        if self.backward {
            self.count - 1 - (label - self.from)
        } else {
            label - self.from
        }
    }

    // Where a stretch of this stretch's inner list stands in the outer one.
    fn then(self, inner: Stretch) -> Stretch
        requires inner { inner.from + inner.count ≤ self.count }
        requires outer { self.from + self.count ≤ 4294967295 }
        ensures { result ≡ after_both self inner }
    {
        let skipped = if self.backward {
            self.count - inner.from - inner.count
        } else {
            inner.from
        };
        Stretch {
            from: self.from + skipped,
            count: inner.count,
            backward: self.backward != inner.backward,
        }
    }
}

// A node of a tree of rows.
pub(crate) trait Node {
    // the rows below the node, in order
    ghost below: { Self → List Row };

    // how many values each of them has
    ghost depth: { Self → ℕ };

    // where no value is left there is one row, the empty one
    ghost leaf: { (n : Self) → depth n ≡ 0 → below n ≡ [] ∷ [] };

    // The first value of the row at a label.
    fn pick(&self, label: u32) -> u8
        requires inner { 0 < depth self.now }
        requires listed { label < length (below self.now) }
        ensures { (r : Row) × (row_at (below self.now) label ≡ result ∷ r) };

    // Goes to the node of what is left of the rows that begin with the value, and says where these stand; `None` where
    // no row does.
    fn enter(&mut self, value: u8) -> Option<Stretch>
        requires { 0 < depth self.old }
        ensures branch { Enters (below self.old) value result (below self.new) }
        ensures down { OnSome result (depth self.old ≡ depth self.new + 1) };
}

// The first value whose count is above the rest, after the counts of the values before it are taken from that.
pub(crate) fn falls_in<I: Iterator<Item = u64> + Drop>(counts: I, mut rest: u64) -> Option<u8>
    requires can { I.can_next counts }
    requires few { UpTo (I.remaining counts) 256 }
    ensures { (list : List ℕ) → AlwaysYields I.next_gives (λ x. x) counts list → FallsIn list rest result }
{
    // A `for`: the rest shrinks from count to count, and in `try_fold` the value found would be the error.
    for (value, count) in counts.enumerate() {
        if rest < count {
            return Some(value as u8);
        }
        rest -= count;
    }
    None
}

// Writes the row at a label of the node's rows.
pub(crate) fn write_row<N: Node + Drop>(mut node: N, label: u32, tray: &mut [u8])
    requires listed { label < length (N.Node.below node) }
    requires wide { length tray.old ≡ N.Node.depth node }
    ensures { tray.new ≡ row_at (N.Node.below node) label }
{
    let mut rest = label;
    for cell in tray.iter_mut() {
        let value = node.pick(rest);
        *cell = value;
        // `pick` gave a value with which a row begins, so there is a branch.
        let Some(stretch) = node.enter(value) else {
            return;
        };
        rest = stretch.label_within(rest);
    }
}

// The label of a row among the node's rows, of which there are `size`.
pub(crate) fn find_row<N: Node + Drop>(mut node: N, size: u32, row: &[u8]) -> Option<u32>
    requires counted { size ≡ length (N.Node.below node) }
    requires wide { length row.now ≡ N.Node.depth node }
    ensures { result ≡ label_of (N.Node.below node) row.now }
{
    let mut whole = Stretch {
        from: 0,
        count: size,
        backward: false,
    };
    // Row values are looked at by a loop with an index: a rule of the project.
    for i in 0..row.len() {
        let stretch = node.enter(row[i])?;
        whole = whole.then(stretch);
    }
    Some(whole.from)
}
