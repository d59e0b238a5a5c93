//! A device that makes its session wait at every byte.
ghost use Rattle.std.specs.Prelude.{None};

use vtgate_serve::{Device, DeviceFailed};

/// A device that gives its bytes one by one and takes bytes one by one, and has nothing to give or takes none at every other call.
#[derive(Drop)]
pub struct PausingDevice<'a> {
    pub unread: &'a [u8],
    pub taken: Vec<u8>,
    pub is_pausing: bool,
}

impl PausingDevice<'_> {
    fn pauses(&mut self) -> bool {
        self.is_pausing = !self.is_pausing;
        self.is_pausing
    }
}

impl Device for PausingDevice<'_> {
    ghost unread = { λ _. None };

    ghost taken = { λ _. None };

    fn read_now(&mut self, buffer: &mut [u8]) -> Result<Option<usize>, DeviceFailed> {
        if self.pauses() {
            return Ok(None);
        }
        match (self.unread, buffer) {
            ([first, rest @ ..], [place, ..]) => {
                *place = *first;
                self.unread = rest;
                Ok(Some(1))
            }
            _ => Ok(Some(0)),
        }
    }

    fn write_now(&mut self, bytes: &[u8]) -> Result<usize, DeviceFailed> {
        if self.pauses() {
            return Ok(0);
        }
        match bytes {
            [first, ..] => match self.taken.push(*first) {
                Ok(()) => Ok(1),
                Err(_) => Err(DeviceFailed),
            },
            [] => Ok(0),
        }
    }
}
