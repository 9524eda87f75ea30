// A walk that is neither a kind nor a layer: the rows 0, 1, 2 and so on, of one value each.
#![tactic(auto)]

mod climbing;

ghost use Rattle.std.specs.Prelude.{◌-◌, ◌≤◌};

#[derive(Drop)]
pub struct Ladder {
    rungs: u8,
    place: u8,
    ghost byte: { rungs ≤ 255 },
    ghost inside: { place ≤ rungs - 1 },
}
