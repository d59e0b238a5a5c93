//! What answers a request.
ghost use Rattle.std.specs.Prelude.{◌≡◌, ◌++◌, IfOk, OnOk};
ghost use Rattle.status_server.specs.Replies.{body_text, fault_fields, fault_text, ok_text, policy_text, reply_head, shown_text, status_text, type_text};

use crate::request::{Fault, Path};
use status_page::{SCRIPT_HASH, STYLE_HASH, put, put_number};
use std::alloc::{AllocError, Global};

// The status of a reply that has what was asked for.
#[tactic(auto, unfolding(crate::specs::Replies::ok_text))]
fn ok_status() -> &'static [u8]
    ensures { result.now ≡ ok_text }
{
    b"200 OK"
}

/// The status of a fault, with its reason.
#[tactic(auto, unfolding(crate::specs::Replies::status_text))]
fn status_of(fault: Fault) -> &'static [u8]
    ensures { result.now ≡ status_text fault }
{
    match fault {
        Fault::Malformed => b"400 Bad Request",
        Fault::UnknownPath => b"404 Not Found",
        Fault::WrongMethod => b"405 Method Not Allowed",
        Fault::Slow => b"408 Request Timeout",
        Fault::LongHead => b"431 Request Header Fields Too Large",
        Fault::Unavailable => b"503 Service Unavailable",
    }
}

/// The type of what there is at a path.
#[tactic(auto, unfolding(crate::specs::Replies::type_text))]
fn type_of(path: Path) -> &'static [u8]
    ensures { result.now ≡ type_text path }
{
    match path {
        Path::Page => b"text/html; charset=utf-8",
        Path::Metrics => b"text/plain; version=0.0.4; charset=utf-8",
        Path::Health => b"text/plain; charset=utf-8",
    }
}

// The fields that some faults have.
#[tactic(auto, unfolding(crate::specs::Replies::fault_fields))]
fn fields_of(fault: Fault) -> &'static [u8]
    ensures { result.now ≡ fault_fields fault }
{
    match fault {
        Fault::WrongMethod => b"\r\nAllow: GET, HEAD",
        Fault::Unavailable => b"\r\nRetry-After: 1",
        _ => b"",
    }
}

/// What stands between the parts of a head.
#[derive(Clone, Copy)]
enum Part {
    Version,
    ContentType,
    ContentLength,
    Storing,
    Style,
    Script,
    Base,
    Close,
}

impl Part {
    ghost use Rattle.std.specs.Prelude.{◌≡◌};
    ghost use Rattle.status_server.specs.Replies.{part_text};

    #[tactic(auto, unfolding(crate::specs::Replies::part_text))]
    fn text(self) -> &'static [u8]
        ensures { result.now ≡ part_text self }
    {
        match self {
            Part::Version => b"HTTP/1.1 ",
            Part::ContentType => b"\r\nContent-Type: ",
            Part::ContentLength => b"\r\nContent-Length: ",
            Part::Storing => b"\r\nCache-Control: no-store\r\nX-Content-Type-Options: nosniff",
            Part::Style => {
                b"\r\nContent-Security-Policy: default-src 'none'; connect-src 'self'; img-src data:; style-src 'sha256-"
            }
            Part::Script => b"'; script-src 'sha256-",
            Part::Base => b"'; base-uri 'none'; form-action 'none'; frame-ancestors 'none'",
            Part::Close => b"\r\nConnection: close\r\n\r\n",
        }
    }
}

// Puts the policy that lets the page run its own script and style alone, and fetch from here alone.
#[tactic(auto, unfolding(crate::specs::Replies::policy_text))]
fn put_policy(out: &mut Vec<u8>) -> Result<(), AllocError>
    ensures ok { OnOk result (out.new.items ≡ out.old.items ++ policy_text) }
{
    put(out, Part::Style.text())?;
    put(out, &STYLE_HASH)?;
    put(out, Part::Script.text())?;
    put(out, &SCRIPT_HASH)?;
    put(out, Part::Base.text())
}

// Puts the head of a reply.
#[tactic(auto, unfolding(crate::specs::Replies::reply_head))]
fn put_head(
    out: &mut Vec<u8>,
    status: &[u8],
    kind: &[u8],
    more: &[u8],
    len: usize,
) -> Result<(), AllocError>
    ensures ok { OnOk result (out.new.items ≡ out.old.items ++ reply_head status.now kind.now len more.now) }
{
    put(out, Part::Version.text())?;
    put(out, status)?;
    put(out, Part::ContentType.text())?;
    put(out, kind)?;
    put(out, Part::ContentLength.text())?;
    put_number(out, len as u64)?;
    put(out, Part::Storing.text())?;
    put_policy(out)?;
    put(out, more)?;
    put(out, Part::Close.text())
}

// Puts a body, if there is one.
fn put_body(out: &mut Vec<u8>, text: &[u8], has_body: bool) -> Result<(), AllocError>
    ensures ok { OnOk result (out.new.items ≡ out.old.items ++ body_text has_body text.now) }
{
    if has_body { put(out, text) } else { Ok(()) }
}

// Promise: A reply is not kept by anybody, is taken for nothing but its type, and lets the page load from where it comes from alone; its length is that of
// its body, which it has unless only the head was asked for
// With: refusal
/// The reply with what there is at a path, without its body if none is asked for. Refuses for want of memory.
#[tactic(auto, unfolding(crate::specs::Replies::shown_text))]
pub fn reply(alloc: Global, path: Path, text: &[u8], has_body: bool) -> Result<Vec<u8>, AllocError>
    ensures text { IfOk result (λ reply. reply.items ≡ shown_text path text.now has_body) }
{
    let mut out = Vec::new(alloc);
    put_head(&mut out, ok_status(), type_of(path), b"", text.len())?;
    put_body(&mut out, text, has_body)?;
    Ok(out)
}

/// The reply that says why there is nothing: its body is its status. Refuses for want of memory.
#[tactic(auto, unfolding(crate::specs::Replies::fault_text))]
pub fn refusal(alloc: Global, fault: Fault, has_body: bool) -> Result<Vec<u8>, AllocError>
    ensures text { IfOk result (λ reply. reply.items ≡ fault_text fault has_body) }
{
    let mut line = Vec::new(alloc);
    put(&mut line, status_of(fault))?;
    put(&mut line, b"\n")?;
    let mut out = Vec::new(alloc);
    put_head(
        &mut out,
        status_of(fault),
        type_of(Path::Health),
        fields_of(fault),
        line.len(),
    )?;
    put_body(&mut out, &line, has_body)?;
    Ok(out)
}
