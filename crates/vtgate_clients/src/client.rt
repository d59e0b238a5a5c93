//! A client's device, with what is logged of its bytes.

use crate::socket::SocketDevice;
use log::Log;
use program_log::traffic::{Detail, Incoming, Outgoing};
use session::{Device, DeviceFailed};
use std::alloc::Global;
use std::cell::{Cell, RefCell};
use std::time::{Clock, Instant};

/// What a client's bytes show of the connection.
#[derive(Drop)]
pub struct Traffic {
    pub incoming: Incoming,
    pub outgoing: Outgoing,
    /// When the last bytes came, if statements are logged.
    pub start: Option<Instant>,
}

/// What was moved since this was last asked.
#[derive(Clone, Copy)]
pub struct Moves {
    /// Whether bytes came.
    pub has_read: bool,
    /// Whether the client took bytes.
    pub has_written: bool,
}

/// A client's device, with what is logged of it: it reads and writes what that does. The first OK lets the client in.
#[derive(Drop)]
pub struct ClientDevice<'s, R, D> {
    rt: &'s R,
    device: D,
    traffic: RefCell<Traffic>,
    is_login: Cell<bool>,
    has_read: Cell<bool>,
    has_written: Cell<bool>,
}

/// Whether the payload of a packet is an OK.
fn is_ok(packet: &[u8]) -> bool {
    packet.get(4) == Some(&0)
}

impl<'s, R: Clock + Log, D> ClientDevice<'s, R, D> {
    /// Over the device of a client that wasn't greeted.
    pub fn new(rt: &'s R, alloc: Global, device: D, detail: Detail) -> ClientDevice<'s, R, D> {
        let traffic = Traffic {
            incoming: Incoming::new(alloc, detail),
            outgoing: Outgoing::new(detail),
            start: None,
        };
        ClientDevice {
            rt,
            device,
            traffic: RefCell::new(traffic),
            is_login: Cell::new(true),
            has_read: Cell::new(false),
            has_written: Cell::new(false),
        }
    }

    /// What the bytes show. Nobody else has it.
    pub fn traffic(&self) -> &RefCell<Traffic> {
        &self.traffic
    }

    /// What was moved since this was last asked.
    pub fn take_moves(&self) -> Moves {
        Moves {
            has_read: self.has_read.replace(false),
            has_written: self.has_written.replace(false),
        }
    }

    // Notes what came.
    fn note_read(&self, bytes: &[u8]) {
        self.has_read.set(true);
        let Ok(mut traffic) = self.traffic.try_borrow_mut() else {
            return;
        };
        if traffic.incoming.detail().has_statements() {
            traffic.start = Instant::now(self.rt).ok();
        }
        traffic.incoming.take(self.is_login.get(), bytes);
    }

    // Notes what the client took.
    fn note_written(&self, bytes: &[u8]) {
        if bytes.is_empty() {
            return;
        }
        self.has_written.set(true);
        if self.is_login.get() && is_ok(bytes) {
            self.is_login.set(false);
        }
        if let Ok(mut traffic) = self.traffic.try_borrow_mut() {
            traffic.outgoing.take(self.is_login.get(), bytes);
        }
    }
}

impl<R> ClientDevice<'_, R, SocketDevice> {
    /// The socket's descriptor.
    pub fn socket(&self) -> u32 {
        self.device.descriptor()
    }

    /// Says that there are no more bytes for the client.
    pub fn shut(&self) {
        self.device.shut();
    }

    /// Reads what the client still sends. Returns whether there may be more.
    pub fn drain(&self, buffer: &mut [u8]) -> bool {
        self.device.drain(buffer)
    }
}

impl<R: Clock + Log, D: Device> Device for ClientDevice<'_, R, D> {
    ghost unread = { λ d. D.unread d.device };

    ghost taken = { λ d. D.taken d.device };

    // Promise: What is logged of a client's bytes changes none of them: each is read and written as its device does it
    fn read_now(&mut self, buffer: &mut [u8]) -> Result<Option<usize>, DeviceFailed> {
        let read = self.device.read_now(buffer)?;
        if let Some(n) = read {
            self.note_read(&buffer[..n]);
        }
        Ok(read)
    }

    fn write_now(&mut self, bytes: &[u8]) -> Result<usize, DeviceFailed> {
        let written = self.device.write_now(bytes)?;
        self.note_written(&bytes[..written]);
        Ok(written)
    }
}
