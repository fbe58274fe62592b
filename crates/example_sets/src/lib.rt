//! Texts of sets that several crates of tests take, the sets that they are, and a certificate.
#![tactic(auto)]

ghost use Rattle.std.specs.Prelude.{IfOk};
ghost use Rattle.prog_text.specs.Answer.{Accepts};
ghost use Rattle.prog_tree.specs.Tree.{draft_tree};

mod asked_again;

pub use asked_again::{checked_when_asked_again, parsed_when_asked_again};
use prog_check::{ProgramSet, check};
use prog_text::parse;
use std::alloc::Global;
use std::test::Fail;

/// SmallBank: savings and checking accounts. The canonical text.
pub const SMALL_BANK: &str = "\
table savings 1;
table checking 1;
program Balance(n) {
  let a = get savings[n] else 0;
  let b = get checking[n] else 0;
  reply a + b;
}
program DepositChecking(n, v) {
  if v < 0 {
    abort;
  }
  let b = get checking[n] else 0;
  put checking[n] = b + v;
}
program TransactSaving(n, v) {
  let a = get savings[n] else 0;
  if a + v < 0 {
    abort;
  }
  put savings[n] = a + v;
}
program Amalgamate(n1, n2) {
  let a = get savings[n1] else 0;
  let b = get checking[n1] else 0;
  put savings[n1] = 0;
  put checking[n1] = 0;
  let c = get checking[n2] else 0;
  put checking[n2] = c + a + b;
}
program WriteCheck(n, v) {
  let a = get savings[n] else 0;
  let b = get checking[n] else 0;
  if a + b < v {
    put checking[n] = b - v - 1;
  } else {
    put checking[n] = b - v;
  }
}
";

/// The ledger set, with the report that needs a closed day in place of the total.
pub const REPORT: &str = "\
table closed 1 grow;
table entry 2 grow;
program Post(d, e, v) { lacks closed[d]; insert entry[d, e] = v; }
program Close(d) { insert closed[d] = 1; }
program Report(d) { let c = need closed[d]; let s = sum entry[d, least..greatest]; reply s; }
";

/// The ledger set.
pub const LEDGER: &str = "\
table closed 1 grow;
table entry 2 grow;
program Post(d, e, v) { lacks closed[d]; insert entry[d, e] = v; }
program Close(d) { insert closed[d] = 1; }
program Total(d) { let s = sum entry[d, least..greatest]; reply s; }
";

/// The transfer set.
pub const TRANSFER: &str = "\
table t 1;
program Transfer(a, b, v) {
  let x = get t[a] else 0;
  put t[a] = x - v;
  let y = get t[b] else 0;
  put t[b] = y + v;
}
";

/// The certificate of the transfer set: each read of a cell is covered by the change behind it.
pub const TRANSFER_CERTIFICATE: &str =
    "{\"entries\":[[\"cover\",0,0,0,1,1,1,[[[\"m\",0],[\"t\",0]],[[\"t\",0],[\"m\",0]]]],\
    [\"cover\",0,0,0,3,1,3,[[[\"m\",0],[\"t\",1]],[[\"t\",1],[\"m\",0]]]],\
    [\"cover\",0,2,0,1,3,1,[[[\"m\",1],[\"t\",0]],[[\"t\",0],[\"m\",1]]]],\
    [\"cover\",0,2,0,3,3,3,[[[\"m\",1],[\"t\",1]],[[\"t\",1],[\"m\",1]]]]],\
    \"levels\":[1],\"version\":1}";

/// The computed-key set.
pub const MOVE: &str = "\
table t 1;
program Move(a, b) { let x = get t[a + 0] else 0; put t[b] = x; }
";

/// A program that adds to each row of a range.
pub const PAY: &str = "\
table t 1;
program Pay(v) {
  each k, x in t[1..3] {
    put t[k] = x + v;
  }
}
";

/// The same with a cell that each run keeps. The canonical text.
pub const KEPT_PAY: &str = "\
table t 1;
table mat_0 1;
program Pay(v) {
  keep mat_0[0];
  each k, x in t[1..3] {
    put t[k] = x + v;
  }
}
";

/// The checked set of a text.
pub fn set_of(alloc: Global, text: &str) -> Result<ProgramSet, Fail>
    ensures { IfOk result (λ set. Accepts text.now (draft_tree set)) }
{
    let draft = parse(alloc, text.as_bytes())?;
    Ok(check(alloc, draft)?)
}
