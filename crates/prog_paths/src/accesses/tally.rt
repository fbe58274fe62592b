//! How many questions the accesses of one table ask, counted one access after another.
ghost use Rattle.std.specs.Prelude.{◌≡◌, ◌++◌, ◌∷◌, [], ◌+◌, ℕ, List, min};
ghost use Rattle.prog_paths.specs.declared.accesses.places.Placed.{Placed};
ghost use Rattle.prog_paths.specs.Limits.{most_questions};
ghost use Rattle.prog_paths.specs.Tally.{IsTally, StandsBehind};

use crate::limits::MAX_QUESTIONS;
use prog_check::Kind;

/// How many accesses of a table there are of each sort, and how many questions these ask of each
/// other. Each number goes no further than one above the limit.
#[derive(Clone, Copy)]
pub struct AccessTally {
    pub reads: usize,
    /// Accesses that only rows that are added concern.
    pub looks: usize,
    pub writes: usize,
    pub adds: usize,
    pub questions: usize,
}

/// The sum, no further than one above the limit.
pub fn sum(one: usize, other: usize) -> usize
    ensures { result ≡ min (one + other) (most_questions + 1) }
{
    one.saturating_add(other).min(MAX_QUESTIONS + 1)
}

impl AccessTally {
    /// Of no accesses.
    pub fn new() -> Self
        ensures { (table : ℕ) → IsTally table [] result }
    {
        AccessTally {
            reads: 0,
            looks: 0,
            writes: 0,
            adds: 0,
            questions: 0,
        }
    }

    /// With an access of this kind behind the others.
    pub fn with(self, kind: Kind) -> Self
        ensures { (table : ℕ) (places : List Placed) (p : Placed) → p.access.table ≡ table
            → p.access.kind ≡ kind → StandsBehind p places
            → IsTally table places self → IsTally table (places ++ p ∷ []) result }
    {
        let AccessTally {
            reads,
            looks,
            writes,
            adds,
            questions,
        } = self;
        match kind {
            Kind::Reads => AccessTally {
                reads: sum(reads, 1),
                questions: sum(questions, sum(writes, adds)),
                ..self
            },
            Kind::Sees | Kind::Lacks => AccessTally {
                looks: sum(looks, 1),
                questions: sum(questions, adds),
                ..self
            },
            Kind::Writes => AccessTally {
                writes: sum(writes, 1),
                questions: sum(sum(questions, 1), sum(reads, writes)),
                ..self
            },
            Kind::Adds => AccessTally {
                adds: sum(adds, 1),
                questions: sum(questions, sum(reads, looks)),
                ..self
            },
            Kind::Keeps => self,
        }
    }
}
