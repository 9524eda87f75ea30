// A printer's lane, the labels that are put by for it and not yet drawn, and its hand, which is empty or holds one label.
#[derive(Clone, Copy, PartialEq, Eq, Debug)]
pub struct Lane {
    // the first label of the lane
    pub(crate) next: u32,
    // the label behind its last one
    pub(crate) end: u32,
    pub(crate) hand: Option<u32>,
}
