//! A reader as a source, and a writer as a sink.
ghost use Rattle.std.specs.Prelude.{◌≡◌};

use crate::input::source::{DeviceFault, Source};
use crate::output::sink::Sink;
use std::io::{Read, Write};

/// A reader or a writer. After a fault it keeps failing and lets the device alone, and so it does
/// where its answered pulls can't be counted on.
#[derive(Drop)]
pub struct Port<T> {
    inner: T,
    pulls: u64,
    broken: bool,
}

impl<T> Port<T> {
    ghost use Rattle.si_engine.specs.AtHand.{inner_of, IsUnused};

    pub fn new(inner: T) -> Port<T>
        ensures inner { inner_of result ≡ inner }
        ensures unused { IsUnused result }
    {
        Port {
            inner,
            pulls: 0,
            broken: false,
        }
    }

    pub fn into_inner(self) -> T
        ensures { result ≡ inner_of self }
    {
        let Port { inner, .. } = self;
        inner
    }
}

impl<T: Read> Source for Port<T> {
    ghost left = { λ p. T.remaining p.inner };

    ghost has_failed = { λ p. p.broken };

    ghost pulls = { λ p. p.pulls };

    fn pull(&mut self, buffer: &mut [u8]) -> Result<usize, DeviceFault> {
        if self.broken {
            return Err(DeviceFault);
        }
        if self.pulls == u64::MAX {
            self.broken = true;
            return Err(DeviceFault);
        }
        let Ok(count) = self.inner.read(buffer) else {
            self.broken = true;
            return Err(DeviceFault);
        };
        self.pulls += 1;
        Ok(count)
    }

    fn failed(&self) -> bool {
        self.broken
    }
}

impl<T: Write> Sink for Port<T> {
    ghost taken = { λ p. T.contents p.inner };

    ghost has_failed = { λ p. p.broken };

    fn push(&mut self, bytes: &[u8]) -> Result<usize, DeviceFault> {
        if self.broken {
            return Err(DeviceFault);
        }
        match self.inner.write(bytes) {
            Ok(count) if count > 0 || bytes.is_empty() => Ok(count),
            _ => {
                self.broken = true;
                Err(DeviceFault)
            }
        }
    }

    fn failed(&self) -> bool {
        self.broken
    }
}
