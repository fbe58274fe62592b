//! Questions, samples and dangerous structures, told by numbers.

use crate::examples::SKEW;
use dep_graph::{Danger, Exposure};
use example_sets::{PAY, REPORT, SMALL_BANK};
use order_facts::{Node, Sample};
use prog_paths::Question;

/// A path's number, and an access's number in it.
pub type Place = (usize, usize);

/// The questions of the two edges of a dangerous structure, each by its paths and accesses, and the
/// way back. All parameters of their samples are 0.
pub struct Structure {
    pub first: (Place, Place),
    pub second: (Place, Place),
    pub back: &'static [usize],
}

/// Sets, and their least dangerous structures.
pub const DANGEROUS: [(&str, Structure); 4] = [
    (
        SKEW,
        Structure {
            first: ((0, 1), (1, 2)),
            second: ((1, 0), (0, 2)),
            back: &[0],
        },
    ),
    (
        SMALL_BANK,
        Structure {
            first: ((0, 1), (4, 2)),
            second: ((4, 0), (2, 1)),
            back: &[2, 0],
        },
    ),
    (
        REPORT,
        Structure {
            first: ((2, 1), (0, 1)),
            second: ((0, 0), (1, 0)),
            back: &[1, 2],
        },
    ),
    (
        PAY,
        Structure {
            first: ((0, 0), (0, 1)),
            second: ((0, 0), (0, 1)),
            back: &[0],
        },
    ),
];

/// The places of both accesses of a question.
pub fn places_of(question: &Question) -> (Place, Place) {
    ((question.x, question.a), (question.y, question.b))
}

/// Three parameters of each side, mine before theirs.
const PARAMETERS: [Node; 6] = [
    Node::Mine(0),
    Node::Theirs(0),
    Node::Mine(1),
    Node::Theirs(1),
    Node::Mine(2),
    Node::Theirs(2),
];

/// Whether a sample gives these numbers to three parameters of each side, mine before theirs.
pub fn is_sampled(sample: &Sample, numbers: &[i64; 6]) -> bool {
    for (node, number) in PARAMETERS.iter().zip(numbers) {
        if sample.get(*node) != *number {
            return false;
        }
    }
    true
}

fn is_exposure(exposure: &Exposure, places: (Place, Place)) -> bool {
    places_of(&exposure.question) == places && is_sampled(&exposure.sample, &[0; 6])
}

/// Whether a danger is this structure.
pub fn is_structure(danger: &Danger, wanted: &Structure) -> bool {
    is_exposure(&danger.first, wanted.first)
        && is_exposure(&danger.second, wanted.second)
        && danger.back.as_slice() == wanted.back
}
