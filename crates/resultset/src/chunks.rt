//! Streams of bytes in chunks.
ghost use Rattle.std.specs.Prelude.{◌≡◌, ◌+◌, ◌<◌, ◌≤◌, ◌/◌, ◌%◌, [], ◌∷◌, ◌++◌, length, slice_set, if◌then◌else◌, IsTrue, IfOk, OnErr, OnOk};
ghost use Rattle.mysql_packet.specs.Frames.{packet};
ghost use Rattle.std.specs.List.{concat};
ghost use Rattle.resultset.specs.Chunks.{AreChunks};
ghost use Rattle.resultset.specs.Encoding.{definition_payload};
ghost use Rattle.resultset.specs.inner.Parts.{HasShortNames, part_payload, open_packet};

use crate::Column;
use crate::parts::Part;
use crate::straight::{put_short_definition, short_definition_len};
use bytes::BytesMut;
use mysql_message::numbers::{make_room, put_bytes};
use std::alloc::{AllocError, Global};
use std::marker::Model;
use vt_value::Items;

/// The most bytes of a chunk.
pub const CHUNK_LIMIT: usize = 1 << 14;

/// The length of a packet's header.
const HEADER_LEN: usize = 4;

/// The room that the first chunk has at first, in bytes: a short stream has less.
const FIRST_ROOM: usize = 512;

/// The room that the last chunk of a stream has at least, in bytes, so that a buffer that it is made in has it again.
pub const LAST_ROOM: usize = 84;

/// A stream of bytes in chunks, one after another. None is empty, and each has at most `CHUNK_LIMIT` bytes. Contracts see the chunks.
#[derive(Debug, Drop)]
pub struct Chunks {
    chunks: Vec<Items<u8>>,
}

impl Model for Chunks {
    ghost use Rattle.std.specs.Prelude.{ℕ, List};
    ghost use Rattle.resultset.specs.Chunks.{AreChunks};

    ghost Value = { List (List ℕ) };

    ghost view = { λ c. c.chunks.items };

    ghost invariant = { λ c. AreChunks c.chunks.items };
}

impl Chunks {
    /// The stream without bytes.
    pub fn new(alloc: Global) -> Chunks
        ensures { result ≡ [] }
    {
        Chunks {
            chunks: Vec::new(alloc),
        }
    }

    /// The chunks, in order: none is empty, and each has at most `CHUNK_LIMIT` bytes.
    pub fn as_slice(&self) -> &[Items<u8>]
        ensures chunks { result.now ≡ self.now }
        ensures each { AreChunks self.now }
    {
        self.chunks.as_slice()
    }

    /// Appends a stream. Refuses only for want of memory, and then leaves this one as it was.
    pub(crate) fn append(&mut self, filling: Filling) -> Result<(), AllocError>
        ensures ok { OnOk result (concat self.new ≡ concat self.old ++ filling) }
        ensures each { OnOk result (AreChunks self.new) }
        ensures err { OnErr result (self.new ≡ self.old) }
    {
        let Chunks { chunks: mut more } = filling.into_chunks()?;
        if self.chunks.is_empty() {
            self.chunks = more;
            return Ok(());
        }
        self.chunks.append(&mut more)?;
        Ok(())
    }
}

/// A stream that is cut into chunks as it comes. Contracts see its bytes.
#[derive(Drop)]
pub(crate) struct Filling {
    full: Vec<Items<u8>>,
    /// The bytes after those.
    last: BytesMut,
}

impl Model for Filling {
    ghost use Rattle.std.specs.Prelude.{ℕ, List, ◌+◌, ◌++◌, ◌≤◌, length};
    ghost use Rattle.std.specs.List.{concat};
    ghost use Rattle.resultset.specs.Chunks.{AreChunks};
    ghost use Rattle.resultset.specs.declared.chunks.TheConstants.{LAST_ROOM};

    ghost Value = { List ℕ };

    ghost view = { λ f. concat f.full.items ++ f.last.items };

    ghost invariant = { λ f. AreChunks f.full.items × (length f.last.items ≤ 16384) × (LAST_ROOM ≤ length f.last.items + f.last.spare) };
}

impl Filling {
    /// A stream that begins.
    pub(crate) fn new(alloc: Global) -> Result<Filling, AllocError>
        ensures none { IfOk result (λ filling. filling ≡ []) }
    {
        Ok(Filling {
            full: Vec::new(alloc),
            last: BytesMut::with_capacity(alloc, FIRST_ROOM)?,
        })
    }

    /// The stream of the bytes in a buffer, which goes on in it. Takes no memory.
    pub(crate) fn over(alloc: Global, last: BytesMut) -> Filling
        requires within { length last.items ≤ 16384 }
        requires room { LAST_ROOM ≤ length last.items + last.spare }
        ensures { result ≡ last.items }
    {
        Filling {
            full: Vec::new(alloc),
            last,
        }
    }

    /// Its full chunks, and the buffer that has the bytes after them.
    pub(crate) fn split(self) -> (Chunks, BytesMut)
        ensures whole { concat result.0 ++ result.1.items ≡ self }
        ensures each { AreChunks result.0 }
        ensures within { length result.1.items ≤ 16384 }
        ensures room { LAST_ROOM ≤ length result.1.items + result.1.spare }
    {
        let Filling { full, last } = self;
        (Chunks { chunks: full }, last)
    }

    /// Appends bytes. A full chunk is copied, and the buffer that it was made in is used again: the next one is then made where the processor's
    /// caches are. Refuses only for want of memory.
    pub(crate) fn append(&mut self, alloc: Global, bytes: &[u8]) -> Result<(), AllocError>
        ensures ok { OnOk result (self.new ≡ self.old ++ bytes.now) }
    {
        let mut rest = bytes;
        while rest.len() > CHUNK_LIMIT - self.last.len() {
            let (front, more) = rest.split_at(CHUNK_LIMIT - self.last.len());
            self.last.extend_from_slice(front)?;
            let full = Items::from_slice(alloc, self.last.as_slice())?;
            self.full.push(full)?;
            self.last.clear();
            rest = more;
        }
        self.last.extend_from_slice(rest)?;
        Ok(())
    }

    /// Appends the one packet of a short payload. Refuses only for want of memory.
    #[inline(always)]
    pub(crate) fn put_short(
        &mut self,
        alloc: Global,
        number: u8,
        payload: &[u8],
    ) -> Result<(), AllocError>
        requires { length payload.now < 256 }
        ensures ok { OnOk result (self.new ≡ self.old ++ packet number payload.now) }
    {
        let header = [payload.len() as u8, 0, 0, number];
        if payload.len() + HEADER_LEN > CHUNK_LIMIT - self.last.len() {
            return self.append_both(alloc, &header, payload);
        }
        make_room(payload.len() + HEADER_LEN, &mut self.last)?;
        self.last.extend_reserved(&header);
        self.last.extend_reserved(payload);
        Ok(())
    }

    /// Appends bytes, and others after them.
    #[inline(never)]
    fn append_both(&mut self, alloc: Global, front: &[u8], more: &[u8]) -> Result<(), AllocError>
        ensures ok { OnOk result (self.new ≡ self.old ++ (front.now ++ more.now)) }
    {
        self.append(alloc, front)?;
        self.append(alloc, more)
    }

    /// Appends the packet of a definition with short names straight into the present chunk, if this has room for it. Tells whether it has.
    /// Refuses only for want of memory.
    pub(crate) fn put_definition(&mut self, number: u8, column: &Column) -> Result<bool, AllocError>
        requires { HasShortNames column.now }
        ensures put { IfOk result (λ put. self.new ≡ (if put then self.old ++ packet number (definition_payload column.now) else self.old)) }
        ensures short { length (definition_payload column.now) < 2048 }
    {
        let len = short_definition_len(column);
        if len + HEADER_LEN > CHUNK_LIMIT - self.last.len() {
            return Ok(false);
        }
        make_room(len + HEADER_LEN, &mut self.last)?;
        put_short_definition(number, len, column, &mut self.last);
        Ok(true)
    }

    /// Appends the packet of a part, encoded straight into the present chunk, if this has room for all of it. Tells whether it has. Refuses
    /// only for want of memory.
    pub(crate) fn put_part(&mut self, number: u8, part: &Part) -> Result<bool, AllocError>
        ensures put { IfOk result (λ put. self.new ≡ (if put then self.old ++ packet number (part_payload part.now) else self.old)) }
        ensures short { IfOk result (λ put. IsTrue put → length (part_payload part.now) < 16384) }
    {
        // what is longer than this tells is taken back, but the chunk has then grown past its limit
        if part.room() > CHUNK_LIMIT - self.last.len() {
            return Ok(false);
        }
        put_within(number, part, &mut self.last)
    }

    /// Its chunks. Refuses only for want of memory.
    fn into_chunks(self) -> Result<Chunks, AllocError>
        ensures ok { IfOk result (λ chunks. concat chunks ≡ self) }
    {
        let Filling { full, last } = self;
        if last.is_empty() {
            return Ok(Chunks { chunks: full });
        }
        let mut chunks = full;
        chunks.push(Items::from_vec(last.into_vec()?))?;
        Ok(Chunks { chunks })
    }
}

/// Appends a part's packet with 0 as its length.
fn put_open(number: u8, part: &Part, out: &mut BytesMut) -> Result<(), AllocError>
    ensures ok { OnOk result (out.new.items ≡ out.old.items ++ open_packet number (part_payload part.now)) }
    ensures capacity { length out.old.items + out.old.spare ≤ length out.new.items + out.new.spare }
{
    put_bytes(&[0, 0, 0, number], out)?;
    part.put(out)
}

/// Writes the length of a payload into the header that begins at this place.
fn set_length(at: usize, size: usize, bytes: &mut [u8])
    requires room { at + 4 ≤ length bytes.old }
    requires short { size < 16384 }
    ensures { bytes.new ≡ slice_set (slice_set bytes.old at (size % 256)) (at + 1) (size / 256) }
{
    bytes[at] = (size % 256) as u8;
    bytes[at + 1] = (size / 256) as u8;
}

/// Appends a part's packet, if the bytes are then no more than a chunk may have; else they stay as they were. Tells whether it did.
fn put_within(number: u8, part: &Part, out: &mut BytesMut) -> Result<bool, AllocError>
    requires { length out.old.items ≤ 16384 }
    ensures put { IfOk result (λ put. out.new.items ≡ (if put then out.old.items ++ packet number (part_payload part.now) else out.old.items)) }
    ensures short { IfOk result (λ put. IsTrue put → length (part_payload part.now) < 16384) }
    ensures within { length out.new.items ≤ 16384 }
    ensures capacity { length out.old.items + out.old.spare ≤ length out.new.items + out.new.spare }
{
    let start = out.len();
    let opened = put_open(number, part, out);
    let end = out.len();
    match opened {
        Ok(()) => {
            if end > CHUNK_LIMIT {
                out.truncate(start);
                return Ok(false);
            }
            set_length(start, end - start - 4, out.as_mut_slice());
            Ok(true)
        }
        Err(refusal) => {
            out.truncate(start);
            Err(refusal)
        }
    }
}
