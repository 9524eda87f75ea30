// Walks over walks over walks, some over a walk that another crate makes, and what they list.
#![tactic(auto)]

mod show;
mod trouble;

use joins::join::Join;
use kinds::kind::Kind;
use ladder::Ladder;
use layers::part::Part;
use layers::reverse::Reverse;
use show::show;
use trouble::Trouble;

fn gray_and_door(rt: &HostRuntime) -> Result<(), Trouble> {
    let heap = rt.alloc();
    let swing = Join::swing(Kind::gray(heap, 2, &[3, 2])?, Kind::door(heap, 3, 1)?)?;
    let mut pile = Part::new(Reverse::new(swing), 2, 9)?;
    show(
        rt,
        "part 2..9 (reverse (swing (gray 3 2) (door 3 1)))",
        &mut pile,
    )
}

fn changes_and_gray(rt: &HostRuntime) -> Result<(), Trouble> {
    let left = Reverse::new(Kind::changes(3)?);
    let right = Part::new(Kind::gray(rt.alloc(), 2, &[2, 2])?, 1, 4)?;
    let mut pile = Join::swing(left, right)?;
    show(
        rt,
        "swing (reverse (changes 3)) (part 1..4 (gray 2 2))",
        &mut pile,
    )
}

fn ladders_and_choice(rt: &HostRuntime) -> Result<(), Trouble> {
    let swing = Join::swing(Ladder::new(2), Kind::choose(rt.alloc(), 3, 2)?)?;
    let mut pile = Join::odometer(Ladder::new(3), Reverse::new(swing))?;
    show(
        rt,
        "odometer (ladder 3) (reverse (swing (ladder 2) (choose 3 2)))",
        &mut pile,
    )
}

fn changes_door_and_ladder(rt: &HostRuntime) -> Result<(), Trouble> {
    let swing = Join::swing(Kind::door(rt.alloc(), 3, 2)?, Ladder::new(2))?;
    let odometer = Join::odometer(Kind::changes(3)?, swing)?;
    let mut pile = Part::new(Reverse::new(odometer), 5, 17)?;
    show(
        rt,
        "part 5..17 (reverse (odometer (changes 3) (swing (door 3 2) (ladder 2))))",
        &mut pile,
    )
}

fn door_changes_and_gray(rt: &HostRuntime) -> Result<(), Trouble> {
    let heap = rt.alloc();
    let swing = Join::swing(Kind::changes(3)?, Kind::gray(heap, 1, &[2])?)?;
    let mut pile = Join::swing(Kind::door(heap, 4, 2)?, swing)?;
    show(
        rt,
        "swing (door 4 2) (swing (changes 3) (gray 2))",
        &mut pile,
    )
}

fn words_and_stock(rt: &HostRuntime) -> Result<(), Trouble> {
    let heap = rt.alloc();
    let words = Kind::words(heap, 2, &[2, 1])?;
    let mut pile = Join::odometer(words, Kind::stock(heap, 3, 2, &[2, 1, 1])?)?;
    show(rt, "odometer (words 2 1) (stock 2 1 1 sum 2)", &mut pile)
}

fn one_rung(rt: &HostRuntime) -> Result<(), Trouble> {
    let mut pile = Part::new(Reverse::new(Ladder::new(255)), 3, 4)?;
    show(rt, "part 3..4 (reverse (ladder 255))", &mut pile)
}

fn no_rungs(rt: &HostRuntime) -> Result<(), Trouble> {
    let mut pile = Reverse::new(Join::swing(Ladder::new(0), Kind::changes(2)?)?);
    show(rt, "reverse (swing (ladder 0) (changes 2))", &mut pile)
}

fn show_all(rt: &HostRuntime) -> Result<(), Trouble> {
    gray_and_door(rt)?;
    changes_and_gray(rt)?;
    ladders_and_choice(rt)?;
    changes_door_and_ladder(rt)?;
    door_changes_and_gray(rt)?;
    words_and_stock(rt)?;
    one_rung(rt)?;
    no_rungs(rt)
}

fn main(rt: HostRuntime) -> Result<(), Trouble> {
    show_all(&rt)
}
