// How many rows are on the bench (printed and accepted), in hands, waiting, and undrawn in lanes.
#[derive(Clone, Copy, PartialEq, Eq, Debug)]
pub struct Counts {
    pub bench: u32,
    pub hands: u32,
    pub waiting: u32,
    pub undrawn: u32,
}
