//! Texts of sets that these tests alone take.

/// The report set, with a cell that a post and a report keep.
pub const KEPT_REPORT: &str = "\
table closed 1 grow;
table entry 2 grow;
table mat_0 1;
program Post(d, e, v) { keep mat_0[d]; lacks closed[d]; insert entry[d, e] = v; }
program Close(d) { insert closed[d] = 1; }
program Report(d) {
  keep mat_0[d];
  let c = need closed[d];
  let s = sum entry[d, least..greatest];
  reply s;
}
";

/// A read and a write that never meet.
pub const APART: &str = "table t 1; program P() { let x = get t[1] else 0; put t[2] = x; }";

/// The same in two tables, whose questions are not alike and have the same reasons.
pub const APART_TWICE: &str = "\
table t 1;
table u 1;
program P() {
  let x = get t[1] else 0;
  put t[2] = x;
  let y = get u[1] else 0;
  put u[2] = y;
}
";

/// A read that stands in a body, and a write that it is exposed to.
pub const MOVE_IN_A_BODY: &str = "\
table s 1;
table t 1;
program Move(a, b) { each k, x in s[1..3] { let y = get t[a] else 0; put t[b] = x + y; } }
";

/// A read and a write in two columns, one of them covered through a number.
pub const COLUMNS: &str = "\
table e 2;
table mat_0 1;
program P(a, b) {
  keep mat_0[a];
  keep mat_0[b];
  let x = get e[a, 5] else 0;
  put e[5, b] = x;
}
";
