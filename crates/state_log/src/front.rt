//! Beginnings of the list that were seen.
ghost use Rattle.std.specs.Prelude.{◌≡◌, ◌↔◌, ◌<◌, ◌^◌, ◌++◌, ◌∷◌, [], length, slice_get};
ghost use Rattle.std.specs.Prelude.{IfErr, IfOk, IsSome, IsTrue};
ghost use Rattle.state_log.specs.Rules.{IsLonger, head_of};

pub use crate::law::Tells;
use crate::law::{Add, Law, Nothing};
use logbook::{Offer, Seen, Start, Word};
use prog_tree::Rows;
use std::marker::{Brand, Model, PhantomData};

/// Which list it is. Each call of a program picks it.
pub trait Naming {
    ghost use Rattle.logbook.specs.Pages.{Book};

    ghost book: { Book };
}

impl Naming for Brand {
    ghost book = { record { number = 0; log_name = 0; cells_name = 0 } };
}

/// An empty list, which has no name yet.
pub struct Opened {
    head: Word<Rows, u64, Law>,
    seen: Seen<Rows, u64, Law>,
    pub ghost empty: { seen.log ≡ [] },
    pub ghost head_is: { head ≡ head_of seen.book },
}

/// The right to add to the list: the word that has its length.
#[derive(Drop)]
pub struct Head<J: Naming> {
    word: Word<Rows, u64, Law>,
    of: PhantomData<J>,
    ghost word_is: { word ≡ head_of J.book },
}

/// A beginning of the list that was seen. Contracts see it as its states.
#[derive(Drop)]
pub struct Front<J: Naming> {
    len: u64,
    seen: Seen<Rows, u64, Law>,
    of: PhantomData<J>,
}

impl<J: Naming> Model for Front<J> {
    ghost use Rattle.std.specs.Prelude.{◌≡◌, List, length};
    ghost use Rattle.prog_tree.specs.Table.{TableState};

    ghost Value = { List TableState };

    ghost view = { λ f. f.seen.log };

    ghost invariant = { λ f. (f.len ≡ length f.seen.log) × (f.seen.book ≡ J.book) };
}

impl Opened {
    pub fn new() -> Opened {
        let (seen, mut first, _second) = Seen::open(Start::alone(), 0, 0);
        Opened {
            head: Word::tracked(0, &mut first),
            seen,
        }
    }

    /// The list under a name, and the front that has seen nothing.
    pub fn named<J: Naming>(self) -> (Head<J>, Front<J>)
        requires { self.seen.book ≡ J.book }
        ensures { result.1 ≡ [] }
    {
        let Opened { head, seen } = self;
        (
            Head {
                word: head,
                of: PhantomData,
            },
            Front {
                len: 0,
                seen,
                of: PhantomData,
            },
        )
    }
}

impl<J: Naming> Front<J> {
    /// How many states it has.
    pub fn len(&self) -> u64
        ensures { result ≡ length self.now }
    {
        self.len
    }

    /// A copy.
    pub fn again(&self) -> Front<J>
        ensures { result ≡ self.now }
    {
        Front {
            len: self.len,
            seen: self.seen.again(),
            of: PhantomData,
        }
    }

    /// Whether both have the state of a number: then it is the same.
    pub fn agrees_at(&self, other: &Front<J>, number: u64) -> bool
        ensures both { IsTrue result
            ↔ ((number < length self.now) × (number < length other.now)) }
        ensures same { IsTrue result → slice_get self.now number ≡ slice_get other.now number }
        ensures some { IsTrue result → IsSome (slice_get self.now number) }
    {
        let mut both = self.seen.again();
        both.learn(&other.seen);
        number < self.len && number < other.len
    }

    /// All that was seen, with the state that a value tells behind it, which is added to the list.
    /// Where the list is longer than what was seen, nothing is added: the error is what it has now.
    pub fn with_state<X, M: Tells<X>>(
        &self,
        head: &Head<J>,
        about: &X,
    ) -> Result<Front<J>, Front<J>>
        requires room { length self.now < 2 ^ 62 }
        ensures ok { IfOk result (λ front. front ≡ self.now ++ M.state about.now ∷ []) }
        ensures err { IfErr result (IsLonger self.now) }
    {
        let len = self.len;
        let mut seen = self.seen.again();
        let mut offer: Offer<Rows, u64, Law, Nothing> = seen.plain::<Nothing, X, Add<M>>(about);
        let mut pen = seen.no_pen();
        let found = head
            .word
            .compare_exchange::<Add<M>, Nothing>(len, len + 1, &mut seen, &mut offer, &mut pen);
        if found != len {
            return Err(Front {
                len: found,
                seen,
                of: PhantomData,
            });
        }
        Ok(Front {
            len: len + 1,
            seen,
            of: PhantomData,
        })
    }
}
