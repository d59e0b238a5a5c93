//! The messages of the connection phase.
use crate::cases::packets::put_packets;
use bytes::BytesMut;
use mysql_handshake::{Response, put_auth_switch, put_greeting, read_response, verify_native};
use std::alloc::Global;
use test_fields::{CaseAnswer, Unanswered, bytes_of, fields, salt_of, small_number, stage2_of};

/// Whether a response to the salt is right for the stage 2.
pub(crate) fn native(alloc: Global, case: &str, told: &mut CaseAnswer) -> Result<(), Unanswered> {
    let (digest, rest) = fields(case)?;
    let (salt, digits) = fields(rest)?;
    let stage2 = stage2_of(digest)?;
    let salt = salt_of(salt)?;
    let response = bytes_of(alloc, digits)?;
    told.put_truth(verify_native(stage2, &salt, &response));
    Ok(())
}

/// The greeting of a connection by a salt.
pub(crate) fn greeting(alloc: Global, case: &str, told: &mut CaseAnswer) -> Result<(), Unanswered> {
    let (id, salt) = fields(case)?;
    let (id, salt) = (small_number(id)?, salt_of(salt)?);
    let mut out = BytesMut::new(alloc);
    let next = put_greeting(u32::from(id), &salt, &mut out);
    put_packets(told, out.as_slice(), next)
}

/// The request to answer a salt by `mysql_native_password`.
pub(crate) fn switch(alloc: Global, case: &str, told: &mut CaseAnswer) -> Result<(), Unanswered> {
    let (first, salt) = fields(case)?;
    let (first, salt) = (small_number(first)?, salt_of(salt)?);
    let mut out = BytesMut::new(alloc);
    let next = put_auth_switch(first, &salt, &mut out);
    put_packets(told, out.as_slice(), next)
}

fn put_name(told: &mut CaseAnswer, name: Option<&[u8]>) {
    told.put(" ");
    match name {
        Some(name) => {
            told.put("[");
            told.put_text(name);
            told.put("]");
        }
        None => told.put("none"),
    }
}

fn put_response(told: &mut CaseAnswer, response: &Response<'_>) {
    told.show(&response.capabilities);
    put_name(told, Some(response.user));
    put_name(told, Some(response.answer));
    put_name(told, response.database);
    put_name(told, response.plugin);
}

/// What a client's response to a greeting says.
pub(crate) fn response(alloc: Global, case: &str, told: &mut CaseAnswer) -> Result<(), Unanswered> {
    let payload = bytes_of(alloc, case)?;
    match read_response(&payload) {
        Ok(response) => {
            put_response(told, &response);
            Ok(())
        }
        Err(refusal) => Err(Unanswered::Refused(refusal)),
    }
}
