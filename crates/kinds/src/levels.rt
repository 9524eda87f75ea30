// Counts the rows under radices, and sets up the levels of their tree.
ghost use Rattle.std.specs.Prelude.{◌≡◌, ℕ, ◌≤◌, true, List, IfOk};
ghost use Rattle.std.specs.Iterator.{AlwaysYields, IsFinite};
ghost use Rattle.std.specs.List.{All};
ghost use Rattle.kinds.specs.Counts.{counted};
ghost use Rattle.kinds.specs.Lists.{product};
ghost use Rattle.kinds.specs.Ranges.{all_between};
ghost use Rattle.kinds.specs.Shapes.{levels_of};

use super::shape::Level;
use std::alloc::{AllocError, Global};

// The product of factors of 1 and more, or `None` where a walk may not have as many rows.
pub(crate) fn count_product<I: Iterator<Item = u32>>(mut factors: I) -> Option<u32>
    requires can { I.can_next factors }
    requires finite { IsFinite (I.remaining factors) }
    ensures { (list : List ℕ) → AlwaysYields I.next_gives (λ x. x) factors list → All (λ x. 1 ≤ x) list → result ≡ counted (product list) }
{
    factors.try_fold(1u32, |count, factor| count.checked_mul(factor))
}

// The number of rows under the radices, or `None` where a walk may not have as many.
pub(crate) fn count_rows(radices: &[u16]) -> Option<u32>
    requires { all_between 1 255 radices.now ≡ true }
    ensures { result ≡ counted (product radices.now) }
{
    count_product(radices.iter().map(|radix| u32::from(*radix)))
}

// Each radix with the number of rows under the later ones; all have `size`.
#[tactic(auto, using(crate::specs::Radices::between_at, crate::specs::Radices::rest_more, crate::specs::Radices::levels_more))]
pub(crate) fn levels_of(heap: Global, radices: &[u16], size: u32) -> Result<Vec<Level>, AllocError>
    requires fit { all_between 1 255 radices.now ≡ true }
    requires counted { size ≡ product radices.now }
    ensures { IfOk result (λ v. v.items ≡ levels_of radices.now) }
{
    // A `for`: as a chain, `scan` would hand `below` through a closure that changes it, and be no plainer.
    let mut levels = Vec::with_capacity(heap, radices.len())?;
    let mut below = size;
    for radix in radices {
        below /= u32::from(*radix);
        levels.push(Level {
            radix: *radix as u8,
            below,
        })?;
    }
    Ok(levels)
}
