// A walk of one of the kinds.
mod labels;
mod making;
mod walking;

ghost use Rattle.std.specs.Prelude.{◌≡◌, ◌-◌, ◌≤◌, true, length};
ghost use Rattle.kinds.specs.Shapes.{rows_of, width_of, shape_holds};

use super::shape::Shape;

#[derive(Drop)]
pub struct Kind {
    shape: Shape,
    size: u32,
    width: usize,
    place: u32,
    ghost holds: { shape_holds shape ≡ true },
    ghost counted: { size ≡ length (rows_of shape) },
    ghost wide: { width ≡ width_of shape },
    ghost few: { size ≤ 4294967295 },
    ghost inside: { place ≤ size - 1 },
}
