//! Slips that newcomers make, known by the tokens around the first one that cannot stand where it
//! does.

use crate::expected::{NAME, NUMBER};
use crate::reserved::{in_lower_case, is_name};
use prog_text::is_reserved;
use std::alloc::{AllocError, Global};
use text_places::{as_text, before, behind, first_token, last_token, second_token};

/// What stands around a token that cannot stand where it does, and what could stand there.
#[derive(Clone, Copy)]
pub struct Around<'a> {
    /// The token before, or the last byte of a sign; empty at the front of a text.
    pub before: &'a str,
    pub token: &'a str,
    pub next: &'a str,
    /// The signs and words that could stand in its place.
    pub could: &'a [&'a str],
}

impl Around<'_> {
    // Whether this could stand there.
    fn admits(self, word: &str) -> bool {
        self.could.contains(&word)
    }
}

/// A slip, by what was written.
#[derive(Clone, Copy)]
pub enum Slip {
    /// `Put t[1] = 2;`
    OtherCase,
    /// `let x = Get t[1] else 0;`, where the word before is taken for a name
    OtherCaseBefore,
    /// `get t[1] else 0;`
    NoLet,
    /// `x = 5;`
    NoLetOfName,
    /// `t[1] = 5;`
    NoPut,
    /// `-x`
    MinusOfName,
    /// `let each = 1;`
    WordAsName,
    /// `if get t[1] else 0 < 5 {`
    LookInside,
    /// `let x = t[1];`
    NoLook,
    /// `program` within a program
    OpenBlock,
    /// One that is said alike whatever its tokens are
    Said(&'static str),
}

/// `return x;`
const RETURN: &str =
    "`return` is no word of the language; a number is given by `reply`, which ends nothing";

/// `-- set it`
const DASHES: &str = "a comment begins with `#`, and not with `--`";

/// `else if`
const ELSE_IF: &str = "behind `else` stands a block: write `else { if .. }`";

/// `if (x < 1) {`
const BRACKETED_TEST: &str =
    "no brackets stand around a test or a part of it; `and` binds tighter than `or`";

/// `let x == 5;`
const TWO_EQUALS: &str = "`==` compares; a value is given by a single `=`";

/// `if x = 5 {`
const ONE_EQUALS: &str = "`=` gives a value; two values are compared by `==`";

/// `each k in t[1..3] {`
const EACH_NAMES: &str =
    "an `each` binds two names, the key and the value of a row: write `each k, v in ..`";

/// `each (k, v) in t[1..3] {`
const EACH_BRACKETS: &str =
    "no brackets stand around the names of an `each`: write `each k, v in ..`";

/// `for k, v in t[1..3] {`
const OTHER_LOOP: &str =
    "rows are gone through by `each k, v in t[low..high] { .. }`; there is no other loop";

/// `each k, v in t {`, `delete t;`
const NO_KEY: &str = "behind a table stands a key in `[` and `]`, or for `count`, `sum` and `each` \
    a range; all rows are `[least..greatest]`";

/// `count t[1]`
const ONE_END: &str = "a range has two ends: write `[low..high]`; all rows are `[least..greatest]`";

/// `count t[*]`
const NO_ENDS: &str = "all keys are `least..greatest`";

/// `keep t[1..3];`
const RANGE_FOR_CELL: &str =
    "one cell stands here, and no range; over ranges go `count`, `sum` and `each`";

/// `sum t[1..3, x]`
const THIRD_COLUMN: &str = "a key has at most two columns, and a range is of the last one";

/// `let x = max t[1..3];`
const OTHER_TOTAL: &str = "over a range go `count` and `sum`, and for all else `each`";

/// `let x = need t[1] else 0;`
const ELSE_OF_NO_GET: &str = "only a `get` has an `else`; a `need` aborts where its row is absent";

/// `if x {`
const NO_COMPARISON: &str = "a test compares two values, as `x != 0` does";

/// `table` behind a program
const LATE_TABLE: &str = "tables stand before all programs";

/// What stands around a place of a text without comments, at whose end a token ends.
pub fn tokens_around<'a>(
    plain: &'a [u8],
    end: usize,
    place: usize,
    could: &'a [&'a str],
) -> Around<'a> {
    let rest = behind(plain, place);
    Around {
        before: as_text(last_token(before(plain, end))),
        token: as_text(first_token(rest)),
        next: as_text(second_token(rest)),
        could,
    }
}

const COMPARISONS: [&str; 9] = ["<", "<=", ">", ">=", "==", "!=", "=", "and", "or"];

const LOOKS: [&str; 4] = ["get", "need", "count", "sum"];

const OTHER_LOOPS: [&str; 4] = ["for", "foreach", "while", "loop"];

const OTHER_TOTALS: [&str; 3] = ["max", "min", "avg"];

// Whether something but a number begins that can be added to another.
fn begins_term(token: &str) -> bool {
    is_name(token) || ["(", "least", "greatest"].contains(&token)
}

fn case_slip(around: Around<'_>) -> Option<Slip> {
    match in_lower_case(around.token) {
        Some(word) if around.admits(word) => return Some(Slip::OtherCase),
        _ => {}
    }
    if around.admits("+") && in_lower_case(around.before).is_some() {
        return Some(Slip::OtherCaseBefore);
    }
    None
}

// The slip where a statement could begin with a name.
fn name_slip(name: &str, next: &str) -> Option<Slip> {
    match next {
        "=" => Some(Slip::NoLetOfName),
        "[" => Some(Slip::NoPut),
        _ if name == "return" => Some(Slip::Said(RETURN)),
        _ if OTHER_LOOPS.contains(&name) => Some(Slip::Said(OTHER_LOOP)),
        _ => None,
    }
}

// The slip where a statement could begin.
fn statement_slip(around: Around<'_>) -> Option<Slip> {
    if LOOKS.contains(&around.token) {
        return Some(Slip::NoLet);
    }
    if is_name(around.token) {
        return name_slip(around.token, around.next);
    }
    match around.token {
        "table" | "program" => Some(Slip::OpenBlock),
        _ => None,
    }
}

// The slip in the head of an `each`, behind the name of a table, or where a name alone could stand.
fn head_slip(around: Around<'_>) -> Option<Slip> {
    match around.could {
        [","] => return Some(Slip::Said(EACH_NAMES)),
        ["["] => return Some(Slip::Said(NO_KEY)),
        _ => {}
    }
    if !around.admits(NAME) || around.admits(NUMBER) {
        return None;
    }
    match around.token {
        "(" if around.before == "each" => Some(Slip::Said(EACH_BRACKETS)),
        token if is_reserved(token.as_bytes()) => Some(Slip::WordAsName),
        _ => None,
    }
}

// The slip where a value could begin, which a key or a range has too.
fn beginning_slip(around: Around<'_>) -> Option<Slip> {
    match around.token {
        "*" | ".." if around.before == "[" || around.before == "," => Some(Slip::Said(NO_ENDS)),
        token if LOOKS.contains(&token) => Some(Slip::LookInside),
        _ => None,
    }
}

// The slip behind a value of a key or a range.
fn key_slip(around: Around<'_>) -> Option<Slip> {
    match around.token {
        "]" if around.admits("..") => Some(Slip::Said(ONE_END)),
        ".." if around.admits("]") => Some(Slip::Said(RANGE_FOR_CELL)),
        "," if around.admits("]") => Some(Slip::Said(THIRD_COLUMN)),
        _ => None,
    }
}

// The slip behind a value, or behind a name that is taken for one.
fn behind_slip(around: Around<'_>) -> Option<Slip> {
    match around.token {
        "[" if is_name(around.before) => Some(Slip::NoLook),
        "{" if around.admits("<") => Some(Slip::Said(NO_COMPARISON)),
        token if is_name(token) && OTHER_TOTALS.contains(&around.before) => {
            Some(Slip::Said(OTHER_TOTAL))
        }
        _ => key_slip(around),
    }
}

// The slip of a look, a key or a range, or of a table.
fn look_slip(around: Around<'_>) -> Option<Slip> {
    match around.token {
        "table" if around.admits("program") => return Some(Slip::Said(LATE_TABLE)),
        "else" if around.admits(";") => return Some(Slip::Said(ELSE_OF_NO_GET)),
        _ => {}
    }
    if around.admits(NUMBER) {
        return beginning_slip(around);
    }
    if around.admits("+") {
        return behind_slip(around);
    }
    None
}

// Whether a test stands in brackets, as no test may.
fn is_bracketed(around: Around<'_>) -> bool {
    if around.before == "(" && around.token == "not" {
        return true;
    }
    let is_inside = around.admits(")") && around.admits("+");
    is_inside && COMPARISONS.contains(&around.token)
}

// The slip in an expression, a test or a value.
fn value_slip(around: Around<'_>) -> Option<Slip> {
    if is_bracketed(around) {
        return Some(Slip::Said(BRACKETED_TEST));
    }
    match around.token {
        "==" if around.admits("=") => Some(Slip::Said(TWO_EQUALS)),
        "=" if around.admits("==") => Some(Slip::Said(ONE_EQUALS)),
        term if around.before == "-" && begins_term(term) && !around.admits(NAME) => {
            Some(Slip::MinusOfName)
        }
        _ => None,
    }
}

/// The slip that is seen from the tokens around a place, and from what could stand there.
pub fn slip_of(around: Around<'_>) -> Option<Slip> {
    if let Some(slip) = case_slip(around) {
        return Some(slip);
    }
    if around.token == "-" && around.next == "-" {
        return Some(Slip::Said(DASHES));
    }
    if around.admits("let") {
        return statement_slip(around);
    }
    if around.admits("{") && around.before == "else" && around.token == "if" {
        return Some(Slip::Said(ELSE_IF));
    }
    value_slip(around)
        .or(head_slip(around))
        .or(look_slip(around))
}

/// That a name was meant as the word that it is but for its letters' case, and where it stands.
pub fn case_words(alloc: Global, name: &str, place: &str) -> Result<String, AllocError> {
    let word = in_lower_case(name).unwrap_or(name);
    format!(in alloc; "`{name}`{place} is a name; the word has small letters: write `{word}`")
}

fn minus_words(alloc: Global, token: &str) -> Result<String, AllocError> {
    let instead = match token {
        "least" => return format!(in alloc;
            "only a number has a minus before it; no number is `-least`"
        ),
        "greatest" => "(least + 1)",
        "(" => "(0 - (..))",
        term => return format!(in alloc;
            "only a number has a minus before it: write `(0 - {term})`"
        ),
    };
    format!(in alloc; "only a number has a minus before it: write `{instead}`")
}

/// What a slip is, and what to write instead.
pub fn slip_words(alloc: Global, slip: Slip, around: Around<'_>) -> Result<String, AllocError> {
    let Around { before, token, .. } = around;
    match slip {
        Slip::OtherCase => case_words(alloc, token, ""),
        Slip::OtherCaseBefore => case_words(alloc, before, " before it"),
        Slip::NoLet => format!(in alloc;
            "what `{token}` finds is given a name: write `let x = {token} ..;`"
        ),
        Slip::NoLetOfName => format!(in alloc;
            "a name is given its value by `let`, and only once: write `let {token} = ..;`"
        ),
        Slip::NoPut => format!(in alloc;
            "a row is given its value by `put`: write `put {token}[..] = ..;`"
        ),
        Slip::MinusOfName => minus_words(alloc, token),
        Slip::WordAsName => format!(in alloc; "`{token}` is a word of the language, and no name"),
        Slip::LookInside => format!(in alloc;
            "what `{token}` finds is given a name by a `let` of its own, before this statement"
        ),
        Slip::NoLook => format!(in alloc;
            "a row is looked up by `let x = get {before}[..] else ..;` or `let x = need {before}[..];`"
        ),
        Slip::OpenBlock => format!(in alloc; "a block before is still open: a `}}` is missing"),
        Slip::Said(words) => format!(in alloc; "{words}"),
    }
}
