//! The connection phase: what is written for a client's response, and for its answer to another salt.
ghost use Rattle.std.specs.Prelude.{◌≡◌, ◌+◌, ◌≤◌, List, [], length, bytes_eq, option_map};
ghost use Rattle.mysql_packet.specs.Frames.{frame};
ghost use Rattle.mysql_handshake.specs.Handshakes.{answered_of, auth_switch_payload};
ghost use Rattle.vschema.specs.declared.schema.Keyspace.{Keyspace};
ghost use Rattle.session.specs.conversation.Logins.{Admits, LogsIn, is_known, is_other_plugin, keyspace_asked, keyspace_named, login_of};

use crate::conversation::access::Handshake;
use crate::conversation::connection_state::{ConnectionState, PendingLogin, Phase, Settings};
use crate::conversation::end::End;
use crate::conversation::reply::{REPLY_ROOM, put_pong, put_refusal};
use bytes::BytesMut;
use mysql_handshake::{Response, put_auth_switch, read_response, verify_native};
use mysql_packet::Payload;
use prepared_statements::Held;
use std::alloc::Global;
use vschema::{Keyspace, VSchema};
use vt_value::Refusal;

/// The capabilities that the greeting announces.
const ANNOUNCED: u32 = 0x0108_A20D;

const NATIVE_PASSWORD: &[u8] = b"mysql_native_password";

fn is_named(keyspace: &Keyspace, name: &[u8]) -> bool
    ensures { result ≡ bytes_eq keyspace.now.name name.now }
{
    keyspace.name.as_slice() == name
}

/// The ordinal of the keyspace of this name.
pub fn keyspace_named(schema: &VSchema, name: &[u8]) -> Option<usize>
    ensures { result ≡ keyspace_named schema.now.keyspaces name.now }
{
    schema
        .keyspaces
        .as_slice()
        .iter()
        .position(|keyspace| is_named(keyspace, name))
}

#[tactic(auto, using(crate::proofs::conversation::LoginLemmas::asked_empty, crate::proofs::conversation::LoginLemmas::asked_named))]
fn keyspace_asked(schema: &VSchema, database: Option<&[u8]>) -> Option<usize>
    ensures { result ≡ keyspace_asked schema.now.keyspaces (option_map (λ t. t.now) database.entry) }
{
    let name = database?;
    if name.is_empty() {
        return None;
    }
    keyspace_named(schema, name)
}

#[tactic(auto, using(crate::proofs::conversation::LoginLemmas::known_empty, crate::proofs::conversation::LoginLemmas::known_named))]
fn is_known(schema: &VSchema, database: Option<&[u8]>) -> bool
    ensures { result ≡ is_known schema.now.keyspaces (option_map (λ t. t.now) database.entry) }
{
    let Some(name) = database else {
        return true;
    };
    if name.is_empty() {
        return true;
    }
    keyspace_named(schema, name).is_some()
}

fn is_other_plugin(plugin: Option<&[u8]>) -> bool
    ensures { result ≡ is_other_plugin (option_map (λ t. t.now) plugin.entry) }
{
    match plugin {
        None => false,
        Some(name) => name != NATIVE_PASSWORD,
    }
}

fn login_of(handshake: &Handshake, schema: &VSchema, response: &Response) -> PendingLogin
    ensures { result ≡ login_of handshake.now schema.now.keyspaces (answered_of response.now) }
{
    PendingLogin {
        capabilities: response.capabilities & ANNOUNCED,
        is_user: response.user == handshake.access.user.as_slice(),
        is_database: is_known(schema, response.database),
        keyspace: keyspace_asked(schema, response.database),
    }
}

#[tactic(auto, using(crate::proofs::conversation::LoginLemmas::is_denied, crate::proofs::conversation::LoginLemmas::is_unknown, crate::proofs::conversation::LoginLemmas::is_admitted))]
/// Lets the client in whose answer to the salt is right or not, or denies it.
fn admit(
    alloc: Global,
    login: PendingLogin,
    is_right: bool,
    number: u8,
    status: u16,
    reply: &mut BytesMut,
) -> ConnectionState
    requires empty { reply.old.items ≡ [] }
    requires room { REPLY_ROOM ≤ reply.old.spare }
    ensures admits { Admits status number login is_right reply.new.items result }
    ensures room { REPLY_ROOM ≤ length reply.new.items + reply.new.spare }
{
    let is_client = login.is_user && is_right;
    if !is_client {
        put_refusal(number, Refusal::AccessDenied, reply);
        return ConnectionState::Ended(End::Denied);
    }
    if !login.is_database {
        put_refusal(number, Refusal::UnknownKeyspace, reply);
        return ConnectionState::Ended(End::Denied);
    }
    put_pong(number, status, reply);
    let settings = Settings::at_first(login.capabilities, login.keyspace);
    ConnectionState::At(Phase::Commands(settings, Held::new(alloc)))
}

/// Asks the client to answer the salt by `mysql_native_password`.
fn ask_again(number: u8, handshake: &Handshake, reply: &mut BytesMut)
    requires empty { reply.old.items ≡ [] }
    requires room { REPLY_ROOM ≤ reply.old.spare }
    ensures bytes { reply.new.items ≡ frame number (auth_switch_payload handshake.now.salt) }
    ensures room { REPLY_ROOM ≤ length reply.new.items + reply.new.spare }
{
    let _ = put_auth_switch(number, &handshake.salt, reply).unwrap();
}

/// What is written for the client's response to the greeting, and the session's state after it.
pub fn put_response(
    alloc: Global,
    handshake: &Handshake,
    schema: &VSchema,
    payload: &Payload,
    status: u16,
    reply: &mut BytesMut,
) -> ConnectionState
    requires empty { reply.old.items ≡ [] }
    requires room { REPLY_ROOM ≤ reply.old.spare }
    requires number { payload.now.first ≡ 1 }
    ensures logs_in { LogsIn handshake.now schema.now.keyspaces status Phase.Response payload.now reply.new.items result }
    ensures room { REPLY_ROOM ≤ length reply.new.items + reply.new.spare }
{
    let number = payload.last.wrapping_add(1);
    match read_response(payload.bytes.as_slice()) {
        Err(_) => {
            put_refusal(number, Refusal::BadHandshake, reply);
            ConnectionState::Ended(End::Denied)
        }
        Ok(response) => {
            let login = login_of(handshake, schema, &response);
            if is_other_plugin(response.plugin) {
                ask_again(number, handshake, reply);
                return ConnectionState::At(Phase::Switch(login));
            }
            let is_right = verify_native(handshake.access.stage2, &handshake.salt, response.answer);
            admit(alloc, login, is_right, number, status, reply)
        }
    }
}

/// What is written for the client's answer to the request to switch, and the session's state after it.
pub fn put_answer(
    alloc: Global,
    handshake: &Handshake,
    login: PendingLogin,
    payload: &Payload,
    status: u16,
    reply: &mut BytesMut,
) -> ConnectionState
    requires empty { reply.old.items ≡ [] }
    requires room { REPLY_ROOM ≤ reply.old.spare }
    requires number { payload.now.first ≡ 3 }
    ensures logs_in { (keyspaces : List Keyspace) → LogsIn handshake.now keyspaces status (Phase.Switch login) payload.now reply.new.items result }
    ensures room { REPLY_ROOM ≤ length reply.new.items + reply.new.spare }
{
    let is_right = verify_native(
        handshake.access.stage2,
        &handshake.salt,
        payload.bytes.as_slice(),
    );
    let number = payload.last.wrapping_add(1);
    admit(alloc, login, is_right, number, status, reply)
}
