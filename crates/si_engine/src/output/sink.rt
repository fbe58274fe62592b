//! Where the output goes, and how it is written: whole, or as it comes.
ghost use Rattle.std.specs.Prelude.{◌≡◌, ◌<◌, ◌≤◌, ◌↔◌, ℕ, Bool, List, Option, None, false, true};
ghost use Rattle.std.specs.Prelude.{length, string_bytes, IsErr, IfOk, OnOk, OnErr};
ghost use Rattle.std.specs.Io.KnownBytes.{Appends, WriteAppends};
ghost use Rattle.si_engine.specs.Writing.{AppendsFront, IsJust, IsUnderWay, WritesOr};

use crate::input::part_fault::PartFault;
use crate::input::source::DeviceFault;

/// What bytes are written to.
pub trait Sink {
    /// The bytes that were taken, where the sink tells them.
    ghost taken: { Self → Option (List ℕ) } = { λ _. None };

    ghost has_failed: { Self → Bool };

    /// Takes some bytes from the front, at least one of them where there is one. A sink that has
    /// failed keeps failing, and stays as it is.
    fn push(&mut self, bytes: &[u8]) -> Result<usize, DeviceFault>
        ensures bound { IfOk result (λ n. n ≤ length bytes.now) }
        ensures some { IfOk result (λ n. 0 < length bytes.now → 0 < n) }
        ensures bytes { WriteAppends (taken self.old) (taken self.new) result bytes.now }
        ensures fault { IsErr result ↔ (has_failed self.new ≡ true) }
        ensures stays { has_failed self.old ≡ true → self.new ≡ self.old };

    fn failed(&self) -> bool
        ensures { result ≡ has_failed self.now };
}

/// Writes all the bytes, or some first ones where the sink fails.
pub fn write_whole<K: Sink>(sink: &mut K, bytes: &[u8]) -> Result<(), DeviceFault>
    ensures fault { IsErr result ↔ (K.has_failed sink.new ≡ true) }
    ensures whole { OnOk result (Appends (K.taken sink.old) (K.taken sink.new) bytes.now) }
    ensures first { OnErr result (AppendsFront (K.taken sink.old) (K.taken sink.new) bytes.now) }
{
    if sink.failed() {
        return Err(DeviceFault);
    }
    let mut written = 0;
    while written < bytes.len() {
        let rest = &bytes[written..];
        let count = sink.push(rest)?;
        written += count;
    }
    Ok(())
}

/// Writes bytes, and answers with the end that is given, or with the other where the sink failed.
pub fn write_or<K: Sink, E: Copy>(sink: &mut K, bytes: &[u8], ended: E, lost: E) -> E
    ensures { WritesOr lost (IsJust bytes.now ended)
        (K.has_failed sink.new) (K.taken sink.old) (K.taken sink.new) result }
{
    match write_whole(sink, bytes) {
        Ok(()) => ended,
        Err(_) => lost,
    }
}

// A text of so many bytes waits no longer.
const LONG_TEXT: usize = 65_536;

/// Writes a text that has grown long, and empties it; a short one waits.
pub fn write_when_long<K: Sink>(text: &mut String, sink: &mut K) -> Result<(), PartFault>
    requires { K.has_failed sink.old ≡ false }
    ensures fault { IsErr result ↔ (K.has_failed sink.new ≡ true) }
    ensures waits { OnOk result (IsUnderWay (string_bytes text.new)
        (K.taken sink.old) (K.taken sink.new) (string_bytes text.old)) }
    ensures first { OnErr result
        (AppendsFront (K.taken sink.old) (K.taken sink.new) (string_bytes text.old)) }
{
    if text.len() < LONG_TEXT {
        return Ok(());
    }
    write_or(sink, text.as_bytes(), Ok(()), Err(PartFault::WriteFault))?;
    text.clear();
    Ok(())
}
