//! The four numbers of a question, and their order.
ghost use Rattle.std.specs.Prelude.{◌≡◌, ◌↔◌, IsTrue};
ghost use Rattle.prog_paths.specs.StaticGraph.{Precedes};
ghost use Rattle.prog_paths.specs.Listing.{IsBefore};
ghost use Rattle.robust_cert.specs.Telling.{question_with, is_same};

use crate::certificate::EntryQuestion;
use prog_paths::Question;

/// Access `a` of node `x` against access `b` of node `y`.
#[derive(Clone, Copy)]
pub struct AskedNumbers {
    pub x: usize,
    pub a: usize,
    pub y: usize,
    pub b: usize,
}

fn is_place_before(x: usize, a: usize, y: usize, b: usize) -> bool
    ensures { IsTrue result ↔ Precedes x a y b }
{
    x < y || (x == y && a < b)
}

/// Those that a certificate tells of a question.
impl From<EntryQuestion> for AskedNumbers {
    ghost use Rattle.std.specs.Prelude.{◌≡◌};
    ghost use Rattle.robust_cert.specs.Accepted.{numbers_told};
    ghost use Rattle.robust_cert.specs.Telling.{question_with};

    ghost from_gives = { λ question numbers. question_with numbers ≡ numbers_told question };

    fn from(question: EntryQuestion) -> Self {
        AskedNumbers {
            x: question.x as usize,
            a: question.a as usize,
            y: question.y as usize,
            b: question.b as usize,
        }
    }
}

/// Those of a question of the paths.
impl From<Question> for AskedNumbers {
    ghost use Rattle.std.specs.Prelude.{◌≡◌};
    ghost use Rattle.prog_paths.specs.Questions.{numbers_of};
    ghost use Rattle.robust_cert.specs.Telling.{question_with};

    ghost from_gives = { λ question numbers. question_with numbers ≡ numbers_of question };

    fn from(question: Question) -> Self {
        AskedNumbers {
            x: question.x,
            a: question.a,
            y: question.y,
            b: question.b,
        }
    }
}

impl AskedNumbers {
    pub fn is_before(self, other: AskedNumbers) -> bool
        ensures { IsTrue result ↔ IsBefore (question_with self) (question_with other) }
    {
        is_place_before(self.x, self.a, other.x, other.a)
            || (self.x == other.x
                && self.a == other.a
                && is_place_before(self.y, self.b, other.y, other.b))
    }

    pub fn is_same(self, other: AskedNumbers) -> bool
        ensures { result ≡ is_same (question_with self) (question_with other) }
    {
        self.x == other.x && (self.a == other.a && (self.y == other.y && self.b == other.b))
    }
}
