//! Devices that fail.
ghost use Rattle.std.specs.Prelude.{None};

use vtgate_serve::{DeviceFailed, Sink, Source};

/// A source that fails once its bytes are read.
#[derive(Drop)]
pub struct FailingSource<'a> {
    pub unread: &'a [u8],
    pub failures: u64,
}

impl Source for FailingSource<'_> {
    ghost unread = { λ _. None };

    ghost failures = { λ s. s.failures };

    fn read(&mut self, buffer: &mut [u8]) -> Result<usize, DeviceFailed> {
        match (self.unread, buffer) {
            ([first, rest @ ..], [place, ..]) => {
                *place = *first;
                self.unread = rest;
                Ok(1)
            }
            _ => {
                self.failures = self.failures.wrapping_add(1);
                Err(DeviceFailed)
            }
        }
    }
}

/// A sink that fails from some write on.
#[derive(Drop)]
pub struct FailingSink {
    pub writes_left: u32,
    pub failures: u64,
}

impl Sink for FailingSink {
    ghost taken = { λ _. None };

    ghost failures = { λ s. s.failures };

    fn write(&mut self, _bytes: &[u8]) -> Result<(), DeviceFailed> {
        if self.writes_left == 0 {
            self.failures = self.failures.wrapping_add(1);
            return Err(DeviceFailed);
        }
        self.writes_left -= 1;
        Ok(())
    }
}
