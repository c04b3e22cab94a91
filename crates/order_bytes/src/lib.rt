#![tactic(auto)]
// Whether a table keeps request order, in bytes: the table as a file, transition numbers of two bytes, stamps of four.
ghost use Rattle.std.specs.Prelude.{◌≡◌, refl};
ghost use Rattle.table_order.specs.OnOrder.{order_fields, KeepsOrder, OrderShows};
ghost use Rattle.order_bytes.specs.Orders.{OrderBytesOutcome};

use places::shown::{Asked, Searched, show_file};
use table::{Refusal, Table};
use table_order::OnOrder;

// What request order asks of a table.
struct Order;

impl Asked<270> for Order {
    type Answer = OnOrder;

    ghost quiet = { KeepsOrder };

    ghost shows = { OrderShows };

    ghost said = { order_fields };

    ghost refused = { λ r. refl };

    fn at_sight(t: &Table) -> Option<OnOrder> {
        neighbours::calm(t.rows()).then_some(OnOrder::InOrder)
    }

    fn search(t: &Table, trace: &mut [u16], stamps: &mut [u32]) -> Searched<OnOrder> {
        let answer = table_order::order_rows(t.rows(), t.initial, trace, stamps);
        let n = used(answer);
        Searched {
            answer,
            steps: n,
            stamps: n,
        }
    }
}

// How many trace places, and as many stamp places, an answer uses.
fn used(v: Result<OnOrder, Refusal>) -> usize
    ensures { result ≡ (order_fields v).steps }
{
    match v {
        Ok(OnOrder::InOrder) | Err(_) => 0,
        Ok(OnOrder::Overtaken(_, m)) => m,
    }
}

// The answer on a table file.
pub fn order_table_bytes(
    file: &[u8],
    trace: &mut [u8],
    stamps: &mut [u8],
) -> Result<OnOrder, Refusal>
    ensures { OrderBytesOutcome file.now trace.old stamps.old
        (order_fields result) trace.new stamps.new }
{
    show_file::<270, Order>(file, trace, stamps)
}
