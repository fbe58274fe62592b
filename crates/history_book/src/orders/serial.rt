//! The least order of the commits, or a cycle of them.

ghost use Rattle.std.specs.Prelude.{◌≡◌, length, Some, IfOk, IfErr};
ghost use Rattle.serial_orders.specs.Orders.{least_order};
ghost use Rattle.serial_orders.specs.Placing.{IsOrderFault};
ghost use Rattle.serial_orders.specs.Traces.{SeesEarlier, trace_depends};

use serial_orders::{OrderFault, Trace, nearby_order, reduced_precedence};
use std::alloc::Global;

/// The least order of the commits: by tests of those that are near each other where these find it,
/// and by pairs elsewhere.
pub fn serial_order(alloc: Global, traces: &[Trace]) -> Result<Vec<usize>, OrderFault>
    requires { SeesEarlier traces.now }
    ensures order { IfOk result (λ order.
        least_order (trace_depends traces.now) (length traces.now) ≡ Some order.items) }
    ensures cycle { IfErr result (IsOrderFault (trace_depends traces.now)) }
{
    if let Some(order) = nearby_order(alloc, traces)? {
        return Ok(order);
    }
    let precedence = reduced_precedence(alloc, traces)?;
    precedence.order()
}
