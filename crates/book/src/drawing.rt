// What the ledger says of printers and their next labels.
ghost use Rattle.std.specs.Prelude.{◌≡◌, ◌<◌, ◌==◌, max, map, position, vec_len};
ghost use Rattle.std.specs.List.{reduce};
ghost use Rattle.book.specs.Lanes.{left, longest_of, hands, undrawn};
ghost use Rattle.book.specs.Calls.{lane_of, held, next_draw, last_of_longest, lanes_after, waiting_after, Drawable};

use super::draw::{Draw, Source};
use super::lane::Lane;
use super::ledger::Ledger;
use super::refusal::BookRefusal;

impl Lane {
    // How many labels the lane has left.
    pub(crate) fn left(self) -> u32
        ensures { result ≡ left self }
    {
        self.end.saturating_sub(self.next)
    }
}

// How many labels the longest lane has left; none where there are no lanes.
fn most_left(lanes: &[Lane]) -> Option<u32>
    ensures { result ≡ reduce max (map left lanes.now) }
{
    lanes.iter().map(|lane| lane.left()).max()
}

// The lowest number of a lane that has so many labels left.
fn first_with(lanes: &[Lane], labels: u32) -> Option<usize>
    ensures { result ≡ position (λ lane. left lane == labels) lanes.now }
{
    lanes.iter().position(|lane| lane.left() == labels)
}

// The number of the longest lane, the lowest where several are equally long; none where there are no lanes.
#[tactic(auto, using(crate::proofs::Longest::longest_missing))]
fn longest(lanes: &[Lane]) -> Option<usize>
    ensures { result ≡ longest_of lanes.now }
{
    first_with(lanes, most_left(lanes)?)
}

// The last label of the longest lane, if any lane has labels left.
#[tactic(auto, using(crate::proofs::Longest::longest_is, crate::proofs::Longest::last_of_none))]
fn last_of_longest(lanes: &[Lane]) -> Option<Draw>
    ensures { result ≡ last_of_longest lanes.now }
{
    let number = longest(lanes)?;
    let lane = lanes[number];
    if lane.left() == 0 {
        return None;
    }
    Some(Draw {
        label: lane.end - 1,
        from: Source::Back(number),
    })
}

impl Ledger {
    // How many hands hold a label.
    pub(crate) fn hands(&self) -> u32
        ensures { result ≡ hands self.now.lanes.items }
    {
        self.lanes
            .iter()
            .map(|lane| u32::from(lane.hand.is_some()))
            .sum()
    }

    // How many labels the lanes have left.
    pub(crate) fn undrawn(&self) -> u32
        ensures { result ≡ undrawn self.now.lanes.items }
    {
        self.lanes.iter().map(|lane| lane.left()).sum()
    }

    // The printer's next label, and where it comes from.
    pub(crate) fn next_draw(&self, printer: usize) -> Option<Draw>
        requires { printer < vec_len self.now.lanes }
        ensures { result ≡ next_draw self.now.waiting.items self.now.lanes.items printer }
    {
        if let Some(label) = self.waiting.front() {
            return Some(Draw {
                label: *label,
                from: Source::Waiting,
            });
        }
        let own = self.lanes[printer];
        if own.left() == 0 {
            return last_of_longest(&self.lanes);
        }
        Some(Draw {
            label: own.next,
            from: Source::Front(printer),
        })
    }

    // The printer's lane and hand.
    pub(crate) fn lane(&self, printer: usize) -> Result<Lane, BookRefusal>
        ensures { result ≡ lane_of self.now.lanes.items printer }
    {
        self.lanes
            .get(printer)
            .copied()
            .ok_or(BookRefusal::UnknownPrinter)
    }

    // The label in the printer's hand.
    pub(crate) fn held(&self, printer: usize) -> Result<u32, BookRefusal>
        ensures { result ≡ held self.now.lanes.items printer }
    {
        self.lane(printer)?.hand.ok_or(BookRefusal::HandEmpty)
    }

    // Takes a label away where it comes from.
    #[tactic(auto, using(crate::proofs::Accounts::lane_open, crate::proofs::Accounts::first_drawn, crate::proofs::Accounts::last_drawn))]
    pub(crate) fn remove(&mut self, from: Source)
        requires { Drawable from self.old.lanes.items }
        ensures lanes { self.new.lanes.items ≡ lanes_after from self.old.lanes.items }
        ensures waiting { self.new.waiting.items ≡ waiting_after from self.old.waiting.items }
        ensures bench { self.new.bench ≡ self.old.bench }
    {
        match from {
            Source::Waiting => {
                let _ = self.waiting.pop_front();
            }
            Source::Front(lane) => {
                let own = &mut self.lanes[lane];
                // A lane that is drawn from has a label left, so the sum fits.
                prove!(own.next < own.end);
                own.next += 1;
            }
            Source::Back(lane) => self.lanes[lane].end -= 1,
        }
    }
}
