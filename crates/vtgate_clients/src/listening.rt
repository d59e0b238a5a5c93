//! The two ports, and what a server needs that serves on them.
ghost use Rattle.std.specs.Prelude.{◌≡◌, IfOk, IfErr};
ghost use Rattle.vtgate_clients.specs.setup.Statuses.{status_of};
ghost use Rattle.vtgate_clients.specs.inner.Accepted.{last_of};

use crate::admission::{Admission, admission_of};
use crate::events;
use crate::setup::{FAILURE, RunFault, ServeArgs};
use libc::net as c;
use log::Log;
use std::alloc::Global;
use std::io;
use std::net::{Net, TcpListener, TcpStream};
use std::os::fd::AsRawFd;

/// How many connections may wait until they are accepted. std asks for 128. Of a burst of more the system drops some, whose clients then wait for their
/// greeting for ever.
const BACKLOG: i32 = 4096;

/// A port that is bound, and the address to which it is.
#[derive(Drop)]
pub struct BoundPort<'s> {
    listener: TcpListener,
    address: &'s str,
}

impl<'s> BoundPort<'s> {
    /// Binds an address.
    pub fn bind<R: Net<Listener = TcpListener, Stream = TcpStream>>(
        rt: &R,
        address: &'s str,
    ) -> io::Result<BoundPort<'s>>
        ensures { IfOk result (λ port. port.address.now ≡ address.now) }
    {
        match TcpListener::bind(rt, address) {
            Ok(listener) => {
                lengthen_backlog(&listener);
                Ok(BoundPort { listener, address })
            }
            Err(reason) => Err(reason),
        }
    }

    /// Where its clients come in.
    pub fn listener(&self) -> &TcpListener {
        &self.listener
    }
}

/// The two ports, bound.
#[derive(Drop)]
pub struct Ports<'s> {
    pub clients: BoundPort<'s>,
    pub admin: BoundPort<'s>,
}

// Has the system keep more connections that wait until they are accepted, as many as it does for any socket (net.core.somaxconn). It doesn't matter
// whether it takes that.
fn lengthen_backlog(listener: &TcpListener) {
    let _ = c::listen(listener.as_raw_fd(), BACKLOG);
}

// Binds one port.
fn bind_port<'s, R: Log + Net<Listener = TcpListener, Stream = TcpStream>>(
    rt: &R,
    port: &'static str,
    address: &'s str,
) -> Result<BoundPort<'s>, RunFault>
    ensures address { IfOk result (λ port. port.address.now ≡ address.now) }
    ensures fault { IfErr result (λ f. status_of f ≡ FAILURE) }
{
    match BoundPort::bind(rt, address) {
        Ok(bound) => Ok(bound),
        Err(reason) => {
            events::unbound(rt, port, address, &reason);
            Err(RunFault::CannotBind)
        }
    }
}

// Promise: The clients' port is bound to the address that the words give for it, and the admin port to the other
/// Binds both ports, as the words ask.
pub fn bind<'s, R: Log + Net<Listener = TcpListener, Stream = TcpStream>>(
    rt: &R,
    asked: &ServeArgs<'s>,
) -> Result<Ports<'s>, RunFault>
    ensures clients { IfOk result (λ ports. ports.clients.address.now ≡ asked.now.address) }
    ensures admin { IfOk result (λ ports. ports.admin.address.now ≡ asked.now.admin) }
    ensures fault { IfErr result (λ f. status_of f ≡ FAILURE) }
{
    let clients = bind_port(rt, "clients", asked.address)?;
    let admin = bind_port(rt, "admin", asked.admin)?;
    Ok(Ports { clients, admin })
}

/// What a server needs: whom it lets in, as the words ask, and its ports.
#[derive(Drop)]
pub struct ServeConfig<'s> {
    pub admission: Admission<'s>,
    pub ports: Ports<'s>,
}

/// What a server needs that serves on the ports.
pub fn config_of<'s>(
    alloc: Global,
    asked: &'s ServeArgs<'s>,
    ports: Ports<'s>,
) -> Result<ServeConfig<'s>, RunFault>
    ensures asked { IfOk result (λ s. s.admission.asked.now ≡ asked.now) }
    ensures fault { IfErr result (λ f. status_of f ≡ FAILURE) }
{
    match admission_of(alloc, asked) {
        Ok(admission) => Ok(ServeConfig { admission, ports }),
        Err(fault) => Err(fault),
    }
}

/// After how many connections it ends.
pub fn last_connection(asked: &ServeArgs<'_>) -> u32
    ensures { result ≡ last_of asked.now.connections }
{
    if asked.connections == 0 {
        u32::MAX
    } else {
        asked.connections
    }
}
