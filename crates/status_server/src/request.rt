//! What a request asks for.
ghost use Rattle.std.specs.Prelude.{◌≡◌, ◌≤◌, ℕ, List, Some, length, bytes_eq};
ghost use Rattle.httparse.specs.Grammar.{ReadsRequest, RequestHead};
ghost use Rattle.status_server.specs.Requests.{asked_at, asked_of, before_query, path_named};

use httparse::spans::{EMPTY_HEADER_SPAN, parse_request};
use httparse::{Error, Status};

/// The most bytes of a request's head.
pub const MOST_HEAD: usize = 8192;

/// The most fields of a request's head.
const MOST_FIELDS: usize = 64;

/// What there is.
#[derive(Clone, Copy, PartialEq, Eq)]
pub enum Path {
    /// The page, at `/`.
    Page,
    /// The metrics, at `/metrics`.
    Metrics,
    /// Whether statements are served, at `/healthz`.
    Health,
}

/// Why a request isn't answered with what it asks for.
#[derive(Clone, Copy)]
pub enum Fault {
    /// It is no request.
    Malformed,
    /// There is no such path.
    UnknownPath,
    /// The path is only read.
    WrongMethod,
    /// Its head took too long.
    Slow,
    /// Its head is too long, or has too many fields.
    LongHead,
    /// There are too many clients, there is no memory, or no statements are served.
    Unavailable,
}

/// What a request asks for.
#[derive(Clone, Copy)]
pub enum Asked {
    /// What there is at a path.
    Shown(Path),
    /// The same without its body.
    Headed(Path),
    /// Nothing that there is.
    Refused(Fault),
}

// The target without what follows a question mark.
fn without_query(target: &[u8]) -> &[u8]
    ensures { result.now ≡ before_query target.now }
{
    for end in 0..target.len() {
        if target[end] == b'?' {
            return &target[..end];
        }
    }
    target
}

fn is_word(word: &[u8], bytes: &[u8]) -> bool
    ensures { result ≡ bytes_eq word.now bytes.now }
{
    word == bytes
}

// The path with this name, if there is one.
fn path_of(name: &[u8]) -> Option<Path>
    ensures { result ≡ path_named name.now }
{
    if is_word(name, b"/") {
        return Some(Path::Page);
    }
    if is_word(name, b"/metrics") {
        return Some(Path::Metrics);
    }
    if is_word(name, b"/healthz") {
        return Some(Path::Health);
    }
    None
}

// What a method asks for at a path that there is.
fn asked_there(method: &[u8], path: Path) -> Asked
    ensures { result ≡ asked_at method.now path }
{
    if is_word(method, b"GET") {
        return Asked::Shown(path);
    }
    if is_word(method, b"HEAD") {
        return Asked::Headed(path);
    }
    Asked::Refused(Fault::WrongMethod)
}

// Promise: Only GET and HEAD of the page, the metrics and the health are answered; another path is unknown, whatever the method, and another
// method of these is refused
/// What a method asks for at a path.
pub fn asked_by(method: &[u8], name: &[u8]) -> Asked
    ensures { result ≡ asked_of method.now name.now }
{
    match path_of(name) {
        Some(path) => asked_there(method, path),
        None => Asked::Refused(Fault::UnknownPath),
    }
}

// Promise: A request whose head has come whole, with at most 64 fields, asks for what its method and its path say, whatever its query, its fields and its
// version are, and whatever comes after them
/// What the request asks for that these bytes begin with; none if its head has not come whole, and more may come.
pub fn read_request(bytes: &[u8]) -> Option<Asked>
    ensures read { (head : RequestHead) (rest : List ℕ) → ReadsRequest bytes.now head rest → length head.fields ≤ 64
        → result ≡ Some (asked_of head.method (before_query head.target)) }
{
    let mut headers = [EMPTY_HEADER_SPAN; MOST_FIELDS];
    match parse_request(bytes, &mut headers) {
        Ok(Status::Complete(head)) => {
            let target = head.path.of(bytes);
            Some(asked_by(head.method.of(bytes), without_query(target)))
        }
        Ok(Status::Partial) => {
            if bytes.len() >= MOST_HEAD {
                Some(Asked::Refused(Fault::LongHead))
            } else {
                None
            }
        }
        Err(Error::TooManyHeaders) => Some(Asked::Refused(Fault::LongHead)),
        Err(_) => Some(Asked::Refused(Fault::Malformed)),
    }
}
