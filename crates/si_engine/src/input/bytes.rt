//! Bytes at hand as a source.
ghost use Rattle.std.specs.Prelude.{◌≡◌, ◌-◌, ◌^◌, true, Some};

use crate::input::source::{DeviceFault, Source};

/// Gives bytes that are at hand. It fails only where its pulls can't be counted on.
#[derive(Drop)]
pub struct Bytes<'a> {
    left: &'a [u8],
    pulls: u64,
    broken: bool,

    ghost counted: { broken ≡ true → pulls ≡ 2 ^ 64 - 1 },
}

impl<'a> Bytes<'a> {
    ghost use Rattle.si_engine.specs.AtHand.{bytes_left, IsUnpulled};

    pub fn new(bytes: &'a [u8]) -> Self
        ensures left { bytes_left result ≡ bytes.now }
        ensures unpulled { IsUnpulled result }
    {
        Bytes {
            left: bytes,
            pulls: 0,
            broken: false,
        }
    }
}

impl Source for Bytes<'_> {
    ghost left = { λ s. Some s.left.now };

    ghost has_failed = { λ s. s.broken };

    ghost pulls = { λ s. s.pulls };

    fn pull(&mut self, buffer: &mut [u8]) -> Result<usize, DeviceFault> {
        if self.broken {
            return Err(DeviceFault);
        }
        if self.pulls == u64::MAX {
            self.broken = true;
            return Err(DeviceFault);
        }
        let count = self.left.len().min(buffer.len());
        let (given, left) = self.left.split_at(count);
        buffer[..count].copy_from_slice(given);
        self.left = left;
        self.pulls += 1;
        Ok(count)
    }

    fn failed(&self) -> bool {
        self.broken
    }
}
