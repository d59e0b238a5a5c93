//! Conversations of clients, sessions whose devices are interrupted or fail, runs of the program by their words, and two workers over sockets.
//!
//! | Area | Fields | Answer |
//! |---|---|---|
//! | `talk` | how a session begins, a text | how it ends if its client sends the text, and what is written |
//! | `served` | a device, a text | how a session ends that is served by the device if its client sends the text, what is written, how often its sink failed, and what is answered to another session that deletes the row of id 1 then |
//! | `run` | an input, the words of the command line | the status of the program's run, its output, and its standard error, in brackets |
//! | `failing_run` | a device, an input, the words | the status, standard error, and how many writes are left: the `source` fails after the input, or the `sink` after two writes |
//! | `loopback` | none, or `password` | `served`, if two workers serve two connections over sockets, of which the one's scatter is held, and the admin port; or three of which only the first logs in with the right password, each greeted by the salt of its number |
//!
//! In a text, an input or a word, each byte outside 20..7E and the backslash is `\x` and two digits.
//!
//! A session of `talk` begins with `commands`, or with the handshake: then the field is stage 2, or `-`, of the user `u`, a blank and a salt.
//! Each is held twice, the second time by pieces of one byte; another answer to these is printed after the first. One of `served` has the user
//! `u` without a password, and a salt of twenty A. Its device is a `source` that fails after the text, a sink that fails after so many writes
//! (`sink 0`, `sink 1` or `sink 2`), a source that is `interrupted` before each byte, or a `pausing` one, at which the session takes turns: it gives
//! and takes one byte at every other call, and none at the others. Each is a session of connection 1, over the unsharded keyspace `shop` with the
//! table `t (id, c)` of the rows (1, NULL), (2, NULL), (3, 7), (4, 7), (5, 9) and (6, 1).
#![tactic(auto)]

mod answers;
mod devices;
mod failing;
mod loopback;
mod passwords;
mod pausing;
mod runs;
mod sessions;
mod talks;

pub use answers::answer;
