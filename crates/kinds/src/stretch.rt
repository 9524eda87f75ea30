// Where the rows of one list stand in another.

// `count` neighbouring rows from the label `from` on, in the order of the inner list or backward: a yes or no on which no other
// field depends.
#[derive(Clone, Copy, PartialEq, Eq, Debug)]
pub(crate) struct Stretch {
    pub from: u32,
    pub count: u32,
    pub backward: bool,
}
