//! Where the input comes from, and how it is read whole.
ghost use Rattle.std.specs.Prelude.{◌≡◌, ◌<◌, ◌≤◌, ◌+◌, ◌↔◌, ℕ, Bool, List, Option, None, true};
ghost use Rattle.std.specs.Prelude.{length, vec_len, IsErr, IfOk, IfSome, OnOk, OnErr, IsErrOf};
ghost use Rattle.std.specs.Io.KnownBytes.{ReadConsumes, IsAtEnd};
ghost use Rattle.si_engine.specs.Sources.{CanGive};

use crate::limits::{MAX_INPUT_BYTES, MAX_READS};
use std::alloc::{AllocError, AllocFailed, Global};
use std::error::Error;
use std::fmt;

/// A source or a sink has failed.
#[derive(Clone, Copy, Debug, PartialEq, Eq)]
pub struct DeviceFault;

impl fmt::Display for DeviceFault {
    ghost use Rattle.std.specs.Prelude.{Some, codes};

    ghost output = { λ _. Some (codes "device failed") };

    fn fmt<W: fmt::Write>(&self, f: &mut fmt::Formatter<W>) -> fmt::Result {
        f.write_str("device failed")
    }
}

impl Error for DeviceFault {}

/// What bytes are read from.
pub trait Source {
    /// The bytes that pulls give from here on, where the source tells them.
    ghost left: { Self → Option (List ℕ) } = { λ _. None };

    ghost has_failed: { Self → Bool };

    /// How many pulls were answered.
    ghost pulls: { Self → ℕ };

    /// Some bytes, at the front of the buffer. None only at the end, or where the buffer is empty.
    /// A source that has failed keeps failing, and stays as it is.
    fn pull(&mut self, buffer: &mut [u8]) -> Result<usize, DeviceFault>
        ensures bound { IfOk result (λ n. n ≤ length buffer.new) }
        ensures bytes { ReadConsumes (left self.old) (left self.new) result buffer.new }
        ensures fault { IsErr result ↔ (has_failed self.new ≡ true) }
        ensures stays { has_failed self.old ≡ true → self.new ≡ self.old }
        ensures counted { OnOk result (pulls self.new ≡ pulls self.old + 1) }
        ensures uncounted { OnErr result (pulls self.new ≡ pulls self.old) };

    fn failed(&self) -> bool
        ensures { result ≡ has_failed self.now };
}

// How many bytes are asked of a source at a time.
const PIECE: usize = 65_536;

/// Why the bytes of a source can't be had.
#[derive(Clone, Copy, Debug, PartialEq, Eq)]
pub enum InputFault {
    /// There are more than 16,777,216 bytes.
    TooLong,
    /// The source failed.
    ReadFault,
    /// There was no memory for it.
    Memory,
}

impl fmt::Display for InputFault {
    ghost use Rattle.std.specs.Prelude.{Some};
    ghost use Rattle.si_engine.specs.Texts.{input_fault_text};

    ghost output = { λ fault. Some (input_fault_text fault) };

    fn fmt<W: fmt::Write>(&self, f: &mut fmt::Formatter<W>) -> fmt::Result {
        f.write_str(match self {
            InputFault::TooLong => "I3",
            InputFault::ReadFault => "I4",
            InputFault::Memory => "memory",
        })
    }
}

impl Error for InputFault {}

impl From<AllocError> for InputFault {
    ghost use Rattle.si_engine.specs.declared.input.source.InputFault.TheVariants.{Memory};

    ghost from_gives = { λ _ e. e ≡ Memory };

    fn from(_error: AllocError) -> InputFault {
        InputFault::Memory
    }
}

impl<T: Drop> From<AllocFailed<T>> for InputFault {
    ghost use Rattle.si_engine.specs.declared.input.source.InputFault.TheVariants.{Memory};

    ghost from_gives = { λ _ e. e ≡ Memory };

    fn from(_error: AllocFailed<T>) -> InputFault {
        InputFault::Memory
    }
}

// A buffer. Its length is an argument, so that no proof computes with so many zeros.
fn zeros(alloc: Global, count: usize) -> Result<Vec<u8>, AllocError>
    ensures { IfOk result (λ v. vec_len v ≡ count) }
{
    vec![in alloc; 0u8; count]
}

/// All bytes of a source. At `TooLong` and `Memory` some of them may have been read.
pub fn read_whole<S: Source>(alloc: Global, source: &mut S) -> Result<Vec<u8>, InputFault>
    ensures short { IfOk result (λ v. vec_len v ≤ MAX_INPUT_BYTES) }
    ensures whole { IfOk result (λ v. CanGive (S.left source.old) v.items) }
    ensures end { OnOk result (IsAtEnd (S.left source.new)) }
    ensures long { IsErrOf result InputFault.TooLong
        → IfSome (S.left source.old) (λ all. MAX_INPUT_BYTES < length all) }
    ensures fault { IsErrOf result InputFault.ReadFault ↔ (S.has_failed source.new ≡ true) }
    ensures reads { S.pulls source.new ≤ S.pulls source.old + MAX_READS }
{
    if source.failed() {
        return Err(InputFault::ReadFault);
    }
    let mut all = Vec::new(alloc);
    let mut piece = zeros(alloc, PIECE)?;
    for _turn in 0..MAX_READS {
        let Ok(count) = source.pull(&mut piece) else {
            return Err(InputFault::ReadFault);
        };
        if count == 0 {
            return Ok(all);
        }
        if count > MAX_INPUT_BYTES - all.len() {
            return Err(InputFault::TooLong);
        }
        all.extend_from_slice(&piece[..count])?;
    }
    Err(InputFault::TooLong)
}
