// Where a printer's next label comes from.
#[derive(Clone, Copy, PartialEq, Eq, Debug)]
pub enum Source {
    // the label that has waited longest
    Waiting,
    // the first label of a lane
    Front(usize),
    // the last label of a lane
    Back(usize),
}

#[derive(Clone, Copy, PartialEq, Eq, Debug)]
pub struct Draw {
    pub(crate) label: u32,
    pub(crate) from: Source,
}
