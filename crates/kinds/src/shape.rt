// What a kind was made from, with the counts that take a label to its row and back.
ghost use Rattle.std.specs.Prelude.{◌≡◌, ◌&&◌};
ghost use Rattle.walk.specs.Rows.{odd};
ghost use Rattle.kinds.specs.Shapes.{reflects, steady_of};

// Whether the rows after an odd value come backward.
#[derive(Clone, Copy, PartialEq, Eq, Debug)]
pub(crate) enum Order {
    Rising,
    Reflected,
}

// One radix, and how many rows the radices after it have.
#[derive(Clone, Copy)]
pub(crate) struct Level {
    pub radix: u8,
    pub below: u32,
}

// One stock, and for each sum up to 32 how many rows the stocks after it have with that sum, counted up to 2^32: always 33 counts.
#[derive(Clone, Copy)]
pub(crate) struct Bin {
    pub most: u8,
    pub ways: [u64; 33],
}

#[derive(Drop)]
pub(crate) enum Shape {
    // `digits`, and reflected `gray`
    Radices(Vec<Level>, Order),
    // `stock` and `choose`, and reflected, with stocks of 1, `door`: the stocks, and the sum of a row
    Sums(Vec<Bin>, u8, Order),
    // `words`: how often each value occurs
    Words(Vec<u8>),
    // `changes`: how many values are ordered
    Changes(u8),
}

impl Order {
    // Whether the rows after a value come backward.
    pub(crate) fn turns(self, value: u8) -> bool
        ensures { result ≡ (reflects self && odd value) }
    {
        self == Order::Reflected && value % 2 == 1
    }
}

impl Shape {
    // Whether the kind is steady.
    pub(crate) fn steady(&self) -> bool
        ensures { result ≡ steady_of self.now }
    {
        match self {
            Shape::Radices(_, order) | Shape::Sums(_, _, order) => *order == Order::Reflected,
            Shape::Words(_) => false,
            Shape::Changes(_) => true,
        }
    }
}
