//! How a worker begins the conversation of a connection.

use crate::client::ClientDevice;
use crate::connection::{Connection, begin_connection};
use crate::server::Server;
use crate::socket::SocketDevice;
use crate::turns::Talk;
use journal::Naming;
use log::{Level, Log, log_enabled};
use program_log::traffic::Detail;
use session::Gate;
use shard::World;
use std::time::Clock;

// How much is kept of a connection, by what is logged.
fn detail_of<R: Log>(rt: &R) -> Detail {
    if log_enabled!(rt; Level::Debug) {
        Detail::Statements
    } else if log_enabled!(rt; Level::Info) {
        Detail::Counts
    } else {
        Detail::Bytes
    }
}

/// Begins the conversation of a connection that waited for a worker. Its client isn't greeted yet. It is over if there is no memory for it.
pub fn welcome<'s, W: World + Send + Sync, J: Naming + Send + Sync, G: Gate, R: Clock + Log>(
    server: &'s Server<'s, W, J, G, R>,
    connection: Connection<W, J>,
) -> Talk<'s, W, J, R> {
    let rt = server.rt;
    let alloc = server.alloc;
    let admission = server.admission;
    let arrivals = &server.progress.arrivals;
    arrivals.begin();
    let (number, stream, peer, pass) = connection.into_parts();
    let device = ClientDevice::new(rt, alloc, SocketDevice::new(stream), detail_of(rt));
    match begin_connection(alloc, admission, pass, number, device) {
        Ok(conversation) => Talk::new(rt, alloc, admission, arrivals, number, peer, conversation),
        Err(_) => Talk::over(rt, alloc, arrivals),
    }
}
