// What has been compared with what the library says.
use std::fmt;

#[derive(Clone, Copy, Default)]
pub(crate) struct Tally {
    pub plans: u64,
    pub claims: u64,
    pub faults: u64,
}

impl fmt::Display for Tally {
    fn fmt<W: fmt::Write>(&self, f: &mut fmt::Formatter<W>) -> fmt::Result {
        let Tally {
            plans,
            claims,
            faults,
        } = self;
        write!(f, "{plans} plans with {claims} claims, {faults} faults")
    }
}
