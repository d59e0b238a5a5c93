//! Laws of streams of packets, proved of all of them: no code calls these functions.
ghost use Rattle.std.specs.List.{AllByRecursion};
ghost use Rattle.std.specs.Prelude.{◌≡◌, ◌+◌, ◌*◌, ◌/◌, ◌<◌, ℕ, List, [], length};
ghost use Rattle.mysql_packet.specs.Frames.{full, stream_of, IsRefusedAfter, IsTaken, Splits};
ghost use Rattle.mysql_packet.specs.declared.framer.HeaderFault.{HeaderFault};
ghost use Rattle.mysql_packet.specs.declared.framer.Payload.{Payload};

// Promise: A stream has these payloads and no others, and less than a payload is bounded by the limit
// With: bounded_rest
/// A stream is these payloads and no others, and ends in this way alone, so it doesn't matter how it was cut.
pub fn one_framing()
    ensures split { (limit : ℕ) (bytes : List ℕ) (ps qs : List Payload) (r s : List ℕ) →
        Splits limit bytes ps r → Splits limit bytes qs s → (ps ≡ qs) × (r ≡ s) }
    ensures refused { (limit : ℕ) (bytes : List ℕ) (ps qs : List Payload) (f g : HeaderFault) →
        IsRefusedAfter limit bytes ps f → IsRefusedAfter limit bytes qs g → (ps ≡ qs) × (f ≡ g) }
    ensures apart { (limit : ℕ) (bytes : List ℕ) (ps qs : List Payload) (r : List ℕ) (f : HeaderFault) →
        Splits limit bytes ps r → IsRefusedAfter limit bytes qs f → ⊥ }
{}

/// What a framer holds back between two pieces is bounded by its limit: less than a payload and its headers.
pub fn bounded_rest()
    ensures { (limit : ℕ) (bytes : List ℕ) (ps : List Payload) (rest : List ℕ) →
        Splits limit bytes ps rest → length rest < limit + 4 * (limit / full + 1) }
{}

// Promise: The packets of payloads are read back as these payloads
/// The frames of payloads are a stream that is these payloads: what is written is read back.
pub fn read_back()
    ensures { (limit : ℕ) (ps : List Payload) → AllByRecursion (IsTaken limit) ps → Splits limit (stream_of ps) ps [] }
{}
