//! Why a certificate isn't read, or isn't accepted.

ghost use Rattle.std.specs.Prelude.{◌≡◌};

use std::alloc::{AllocError, AllocFailed};
use std::error::Error;
use std::fmt;

/// Why bytes are no certificate.
#[derive(Clone, Copy, Debug, PartialEq, Eq)]
pub enum JsonFault {
    /// No JSON, or nested too deep, or no UTF-8.
    NotJson,
    /// No object with a whole number under `version`, or not of the form of that version.
    WrongShape,
    /// The number under `version` is neither 1 nor 2.
    WrongVersion,
    Memory,
}

impl fmt::Display for JsonFault {
    ghost use Rattle.std.specs.Prelude.{Some};
    ghost use Rattle.robust_cert.specs.Texts.{json_fault_text};

    ghost output = { λ fault. Some (json_fault_text fault) };

    fn fmt<W: fmt::Write>(&self, f: &mut fmt::Formatter<W>) -> fmt::Result {
        match self {
            JsonFault::NotJson => f.write_str("J1"),
            JsonFault::WrongShape => f.write_str("J2"),
            JsonFault::WrongVersion => f.write_str("J3"),
            JsonFault::Memory => f.write_str("memory"),
        }
    }
}

impl Error for JsonFault {}

/// Why a certificate isn't accepted for a set, in the order in which it is looked at.
#[derive(Clone, Copy, Debug, PartialEq, Eq)]
pub enum CertFault {
    /// The set asks more than 1,000,000 questions.
    TooLarge,
    /// Not one level for each path, or other numbers of accesses in bodies than the paths have.
    PathCount,
    /// The entry of this number is about no question of the set.
    NoSuchEntry(usize),
    /// The entry doesn't stand behind the one before it.
    EntryOrder(usize),
    /// The cover names no two accesses that may cover, or has a wrong number of chains.
    BadCover(usize),
    /// A chain of the entry is none, or runs elsewhere.
    BadChain(usize),
    /// The level falls along the edge between these nodes.
    LevelFalls(usize, usize),
    /// The level doesn't rise over the vulnerable edges between these nodes.
    Dangerous(usize, usize, usize),
    Memory,
}

impl fmt::Display for CertFault {
    ghost use Rattle.std.specs.Prelude.{Some};
    ghost use Rattle.robust_cert.specs.Texts.{cert_fault_text};

    ghost output = { λ fault. Some (cert_fault_text fault) };

    fn fmt<W: fmt::Write>(&self, f: &mut fmt::Formatter<W>) -> fmt::Result {
        match self {
            CertFault::PathCount => f.write_str("K1"),
            CertFault::NoSuchEntry(entry) => write!(f, "K2 {entry}"),
            CertFault::EntryOrder(entry) => write!(f, "K3 {entry}"),
            CertFault::BadChain(entry) => write!(f, "K4 {entry}"),
            CertFault::BadCover(entry) => write!(f, "K5 {entry}"),
            CertFault::LevelFalls(x, y) => write!(f, "K6 {x} {y}"),
            CertFault::Dangerous(x, y, z) => write!(f, "K7 {x} {y} {z}"),
            CertFault::TooLarge => f.write_str("K8"),
            CertFault::Memory => f.write_str("memory"),
        }
    }
}

impl Error for CertFault {}

impl From<AllocError> for CertFault {
    ghost use Rattle.robust_cert.specs.declared.fault.CertFault.TheVariants.{Memory};

    ghost from_gives = { λ _ e. e ≡ Memory };

    fn from(_error: AllocError) -> Self {
        CertFault::Memory
    }
}

/// Why a part of a JSON value isn't taken as a part of a certificate.
#[derive(Clone, Copy, Debug, PartialEq, Eq)]
pub enum Untaken {
    Misshapen,
    Memory,
}

impl From<AllocError> for Untaken {
    ghost use Rattle.robust_cert.specs.declared.fault.Untaken.TheVariants.{Memory};

    ghost from_gives = { λ _ e. e ≡ Memory };

    fn from(_error: AllocError) -> Self {
        Untaken::Memory
    }
}

impl<T: Drop> From<AllocFailed<T>> for Untaken {
    ghost use Rattle.robust_cert.specs.declared.fault.Untaken.TheVariants.{Memory};

    ghost from_gives = { λ _ e. e ≡ Memory };

    fn from(_error: AllocFailed<T>) -> Self {
        Untaken::Memory
    }
}

impl From<Untaken> for JsonFault {
    ghost use Rattle.robust_cert.specs.Reading.{fault_of};

    ghost from_gives = { λ untaken fault. fault ≡ fault_of untaken };

    fn from(untaken: Untaken) -> Self {
        match untaken {
            Untaken::Misshapen => JsonFault::WrongShape,
            Untaken::Memory => JsonFault::Memory,
        }
    }
}
