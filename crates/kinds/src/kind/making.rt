// Makes the kinds from the numbers of a plan.
ghost use Rattle.std.specs.Prelude.{◌≡◌, true, length, IfOk};
ghost use Rattle.walk.specs.Making.{new_walk, Makes};
ghost use Rattle.kinds.specs.Kinds.{kind_meaning, making, radices_fit, choice_fits, digits_made, gray_made, stock_made, choose_made, door_made, words_made, changes_made};
ghost use Rattle.kinds.specs.Laws.{DigitsLaws, GrayLaws, StockLaws, ChooseLaws, DoorLaws, WordsLaws, ChangesLaws};
ghost use Rattle.kinds.specs.Shapes.{reflects, mixed, chosen, rows_of, width_of, steady_of, shape_holds};

use super::super::multiset::total;
use super::super::plain_changes::count_changes;
use super::super::shape::{Order, Shape};
use super::super::tables::{choice_table, radix_table, stock_table, words_table};
use super::Kind;
use std::alloc::Global;
use walk::making::MakingFault;

impl Kind {
    // The walk of a shape, at its first row.
    fn new(shape: Shape, size: u32, width: usize) -> Kind
        requires holds { shape_holds shape ≡ true }
        requires counted { size ≡ length (rows_of shape) }
        requires wide { width ≡ width_of shape }
        ensures { kind_meaning result ≡ new_walk (rows_of shape) (width_of shape) (steady_of shape) }
    {
        Kind {
            shape,
            size,
            width,
            place: 0,
        }
    }

    // The rows of n radices in an order.
    #[tactic(auto, using(crate::specs::MixedRadix::mixed_length, crate::proofs::MadeTables::radix_table, crate::specs::Radices::radices_of_levels, crate::specs::Radices::length_levels))]
    fn radices(heap: Global, n: u16, list: &[u16], order: Order) -> Result<Kind, MakingFault>
        ensures { Makes kind_meaning result (making (radices_fit n list.now) (mixed (reflects order) list.now) n (reflects order)) }
    {
        let (levels, size) = radix_table(heap, n, list)?;
        Ok(Kind::new(Shape::Radices(levels, order), size, list.len()))
    }

    // The rows of n values of which t are 1 and the others 0, in an order.
    fn choices(heap: Global, n: u16, t: u16, order: Order) -> Result<Kind, MakingFault>
        ensures { Makes kind_meaning result (making (choice_fits n t) (chosen (reflects order) n t) n (reflects order)) }
    {
        let (bins, size) = choice_table(heap, n, t)?;
        let shape = Shape::Sums(bins, t as u8, order);
        Ok(Kind::new(shape, size, usize::from(n)))
    }

    // `digits`: every row with each value below its radix, in rising order.
    #[tactic(auto, using(crate::proofs::MadeLaws::digits_hold))]
    pub fn digits(heap: Global, n: u16, list: &[u16]) -> Result<Kind, MakingFault>
        ensures made { Makes kind_meaning result (digits_made n list.now) }
        ensures laws { IfOk result (λ k. DigitsLaws list.now (kind_meaning k).rows) }
    {
        Kind::radices(heap, n, list, Order::Rising)
    }

    // `gray`: the same rows, in an order in which neighbours differ in one place.
    #[tactic(auto, using(crate::proofs::MadeLaws::gray_hold))]
    pub fn gray(heap: Global, n: u16, list: &[u16]) -> Result<Kind, MakingFault>
        ensures made { Makes kind_meaning result (gray_made n list.now) }
        ensures laws { IfOk result (λ k. GrayLaws list.now (kind_meaning k).rows) }
    {
        Kind::radices(heap, n, list, Order::Reflected)
    }

    // `stock`: every row with each value at most its stock and the sum t, in rising order.
    #[tactic(auto, using(crate::specs::Stock::stock_length, crate::proofs::MadeTables::stock_table, crate::specs::WayCounts::mosts_of_bins, crate::specs::WayCounts::length_bins))]
    pub fn stock(heap: Global, n: u16, t: u16, list: &[u16]) -> Result<Kind, MakingFault>
        ensures made { Makes kind_meaning result (stock_made n t list.now) }
        ensures laws { IfOk result (λ k. StockLaws list.now t (kind_meaning k).rows) }
    {
        let (bins, size) = stock_table(heap, n, t, list)?;
        let shape = Shape::Sums(bins, t as u8, Order::Rising);
        Ok(Kind::new(shape, size, list.len()))
    }

    // `choose`: every row of n values of which t are 1 and the others 0, in rising order.
    #[tactic(auto, using(crate::proofs::MadeLaws::choose_hold))]
    pub fn choose(heap: Global, n: u16, t: u16) -> Result<Kind, MakingFault>
        ensures made { Makes kind_meaning result (choose_made n t) }
        ensures laws { IfOk result (λ k. ChooseLaws n t (kind_meaning k).rows) }
    {
        Kind::choices(heap, n, t, Order::Rising)
    }

    // `door`: the same rows, in revolving-door order, in which neighbours differ in two places.
    #[tactic(auto, using(crate::proofs::MadeLaws::door_hold))]
    pub fn door(heap: Global, n: u16, t: u16) -> Result<Kind, MakingFault>
        ensures made { Makes kind_meaning result (door_made n t) }
        ensures laws { IfOk result (λ k. DoorLaws n t (kind_meaning k).rows) }
    {
        Kind::choices(heap, n, t, Order::Reflected)
    }

    // `words`: every row in which each value occurs as often as its count says, in rising order.
    pub fn words(heap: Global, n: u16, list: &[u16]) -> Result<Kind, MakingFault>
        ensures made { Makes kind_meaning result (words_made n list.now) }
        ensures laws { IfOk result (λ k. WordsLaws list.now (kind_meaning k).rows) }
    {
        let (counts, size) = words_table(heap, n, list)?;
        let width = usize::from(total(&counts));
        Ok(Kind::new(Shape::Words(counts), size, width))
    }

    // `changes`: every order of the values below n, in which neighbours differ by one exchange of values side by side.
    #[tactic(auto, using(crate::proofs::MadeTables::few_changes))]
    pub fn changes(n: u16) -> Result<Kind, MakingFault>
        ensures made { Makes kind_meaning result (changes_made n) }
        ensures laws { IfOk result (λ k. ChangesLaws n (kind_meaning k).rows) }
    {
        if n > 32 {
            return Err(MakingFault::OutOfRange);
        }
        let size = count_changes(n).ok_or(MakingFault::TooManyRows)?;
        Ok(Kind::new(Shape::Changes(n as u8), size, usize::from(n)))
    }
}
