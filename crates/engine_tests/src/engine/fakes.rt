//! Devices of the tests, over memory: slow ones, which may also fail.
ghost use Rattle.std.specs.Prelude.{◌-◌, ◌^◌, Some};

use si_engine::{DeviceFault, Sink, Source};
use std::alloc::Global;

/// Gives one byte at a time.
#[derive(Drop)]
pub struct SlowSource<'a> {
    bytes: &'a [u8],
    pulls_left: u64,
    broken: bool,
}

impl<'a> SlowSource<'a> {
    /// A source that fails once it has been pulled so often.
    pub fn new(bytes: &'a [u8], pulls: u64) -> SlowSource<'a> {
        SlowSource {
            bytes,
            pulls_left: pulls,
            broken: false,
        }
    }
}

impl Source for SlowSource<'_> {
    ghost left = { λ s. Some s.bytes.now };

    ghost has_failed = { λ s. s.broken };

    ghost pulls = { λ s. 2 ^ 64 - s.pulls_left };

    fn pull(&mut self, buffer: &mut [u8]) -> Result<usize, DeviceFault> {
        if self.broken {
            return Err(DeviceFault);
        }
        if self.pulls_left == 0 {
            self.broken = true;
            return Err(DeviceFault);
        }
        self.pulls_left -= 1;
        let [first, rest @ ..] = self.bytes else {
            return Ok(0);
        };
        if buffer.is_empty() {
            return Ok(0);
        }
        buffer[0] = *first;
        self.bytes = rest;
        Ok(1)
    }

    fn failed(&self) -> bool {
        self.broken
    }
}

/// Takes a few bytes at a time.
#[derive(Drop)]
pub struct SlowSink {
    pub bytes: Vec<u8>,
    pushes_left: u64,
    broken: bool,
}

// More than one, so that some writes are cut and some are not.
const MOST_TAKEN: usize = 3;

impl SlowSink {
    /// A sink that fails once it has been pushed so often.
    pub fn new(alloc: Global, pushes: u64) -> SlowSink {
        SlowSink {
            bytes: Vec::new(alloc),
            pushes_left: pushes,
            broken: false,
        }
    }
}

impl Sink for SlowSink {
    ghost taken = { λ s. Some s.bytes.items };

    ghost has_failed = { λ s. s.broken };

    fn push(&mut self, bytes: &[u8]) -> Result<usize, DeviceFault> {
        if self.broken {
            return Err(DeviceFault);
        }
        if self.pushes_left == 0 {
            self.broken = true;
            return Err(DeviceFault);
        }
        self.pushes_left -= 1;
        let count = bytes.len().min(MOST_TAKEN);
        let Ok(()) = self.bytes.extend_from_slice(&bytes[..count]) else {
            self.broken = true;
            return Err(DeviceFault);
        };
        Ok(count)
    }

    fn failed(&self) -> bool {
        self.broken
    }
}
