//! Which pairs of programs a repair is to keep apart.

mod choosing;
mod closing;
mod nodes;
mod open;
pub mod planning;

use prog_tree::Sequence;
use repair_laws::Pair;

/// The pairs of programs whose vulnerable edges a repair takes away, in order.
#[derive(Debug, Drop)]
pub struct Plan {
    pub pairs: Sequence<Pair>,
}
