// Joins the parts of a plan.
ghost use Rattle.std.specs.Prelude.{◌≡◌};
ghost use Rattle.std.specs.Result.{result_map_both};
ghost use Rattle.joins.specs.Join.{swings, join_made, join_meaning};
ghost use Rattle.faults.specs.declared.Cause.TheVariants.{Join as JoinCause};
ghost use Rattle.plan.specs.Format.{on_line, joined_parts};

use faults::{Cause, PlanFault};
use joins::join::{Join, Order};
use walk::Walk;

// The join, whose fault is told on that line.
fn join<L: Walk + Drop, R: Walk + Drop>(
    line: u8,
    order: Order,
    left: L,
    right: R,
) -> Result<Join<L, R>, PlanFault>
    ensures { result_map_both (join_meaning L.Walk.meaning R.Walk.meaning) (λ e. e) result ≡ on_line JoinCause line (join_made (swings order) (L.Walk.meaning left) (R.Walk.meaning right)) }
{
    Join::new(order, left, right).map_err(|refused| PlanFault {
        cause: Cause::from(refused.fault),
        line,
    })
}

// The second part with the third, then the first with these.
pub fn join_parts<K: Walk + Drop>(
    first: K,
    second: K,
    third: K,
) -> Result<Join<K, Join<K, K>>, PlanFault>
    ensures { result_map_both (join_meaning K.Walk.meaning (join_meaning K.Walk.meaning K.Walk.meaning)) (λ e. e) result ≡ joined_parts (K.Walk.meaning first) (K.Walk.meaning second) (K.Walk.meaning third) }
{
    let order = if first.steady() && second.steady() && third.steady() {
        Order::Swing
    } else {
        Order::Odometer
    };
    let below = join(3, order, second, third)?;
    join(2, order, first, below)
}
