//! Sets of the tests, and rows.

use example_sets::{TRANSFER, TRANSFER_CERTIFICATE, set_of};
use prog_tree::{Cell, Rows};
use robust_cert::{Certificate, RobustSet, from_json, verify};
use std::alloc::{AllocError, Global};
use std::test::Fail;

/// A set of programs, and a certificate that is accepted for it.
#[derive(Clone, Copy)]
pub struct Certified {
    pub text: &'static str,
    pub certificate: &'static str,
}

/// Registers that are looked at, set and cut.
pub const REGISTERS: Certified = Certified {
    text: "\
table t 1;
program Look(k) { let x = get t[k] else -1; reply x; }
program Set(k, v) { put t[k] = v; }
program Cut(k) { delete t[k]; }
",
    certificate: r#"{"entries":[],"levels":[3,3,3],"version":1}"#,
};

pub const LOOK: usize = 0;

pub const SET: usize = 1;

pub const CUT: usize = 2;

/// A sum that may overflow, and a program that may abort.
pub const OVERFLOW: Certified = Certified {
    text: "\
table t 1;
program Total() { let s = sum t[1..2]; reply s; }
program Maybe(v) { if v < 0 { abort; } else { put t[9] = v; } }
",
    certificate: r#"{"entries":[["apart",0,0,1,0,[["n",9],["n",2]]]],"levels":[1,1],"version":1}"#,
};

pub const TOTAL: usize = 0;

pub const MAYBE: usize = 1;

/// The transfer set.
pub const TRANSFERS: Certified = Certified {
    text: TRANSFER,
    certificate: TRANSFER_CERTIFICATE,
};

fn verified(alloc: Global, text: &str, certificate: &Certificate) -> Result<RobustSet, Fail> {
    let set = set_of(alloc, text)?;
    match verify(alloc, set, certificate).ok() {
        Some(robust) => Ok(robust),
        None => Err(Fail::new("the certificate is not accepted")),
    }
}

/// The set, for which its certificate is accepted.
pub fn robust(alloc: Global, given: &Certified) -> Result<RobustSet, Fail> {
    let certificate = from_json(alloc, given.certificate.as_bytes())?;
    let robust = verified(alloc, given.text, &certificate);
    drop(certificate);
    robust
}

/// A cell of the table `t`.
pub fn cell(first: i64) -> Cell {
    Cell {
        table: 0,
        first,
        second: 0,
    }
}

/// Rows of the table `t`: the key and the value of each.
pub fn rows_of(alloc: Global, given: &[(i64, i64)]) -> Result<Rows, AllocError> {
    let mut rows = Rows::new(alloc);
    for (first, value) in given {
        rows.insert(cell(*first), *value)?;
    }
    Ok(rows)
}
