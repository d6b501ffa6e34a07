ghost use Rattle.std.specs.Prelude.{◌≡◌, ◌⊎◌, ◌∷◌, ◌++◌, List, ℕ, [], take, Some, None, Result, OnOk};
ghost use Rattle.cos_base.specs.Octets.{Held};
ghost use Rattle.cosim_model.specs.Packets.{Packet as PacketValue, IsCodec};
ghost use Rattle.cosim_model.specs.Packets.Decoded.{Valid, Malformed};
ghost use Rattle.cosim_model.specs.Streams.{IsMalformedAt};
ghost use Rattle.rp_header.specs.Numbers.{AreBytes};
ghost use Rattle.rp_busaccess.specs.declared.fault.WriteFault.{WriteFault};
ghost use Rattle.rp_packet.specs.declared.fault.Cause.{Cause};
ghost use Rattle.rp_packet.specs.Spelling.{Spells, Canonical, Fits, Writable, packet_bytes, packet_fault};
ghost use Rattle.rp_packet.specs.Refusals.{first, place_of};
ghost use Rattle.rp_packet.specs.Streams.{packet_codec, Unfinished, Bad, Spelled, Stream, Faulty, IsStream, IsFaulty};
ghost use Rattle.rp_packet.specs.Writing.{Writes};

/// A list of bytes spells one packet at most, and no spelling is a proper prefix of another.
pub fn one_reading()
    ensures one_value { (v w : PacketValue) (b : List ℕ) → Spells v b → Spells w b → v ≡ w }
    ensures no_prefix { (v w : PacketValue) (b more : List ℕ) → Spells v b → Spells w (b ++ more) → more ≡ [] }
{}

/// Every list of bytes is a stream of packets or a faulty one, never both, and in one way alone: with one list of values, and
/// one rest or one fault behind it.
pub fn every_stream()
    ensures either { (b : List ℕ) → AreBytes b → IsStream b ⊎ IsFaulty b }
    ensures never_both { (b : List ℕ) (vs ws : List PacketValue) (rest : List ℕ) (start place : ℕ) (cause : Cause) → Stream vs b rest → Faulty ws b start place cause → ⊥ }
    ensures one_stream { (b : List ℕ) (vs ws : List PacketValue) (rest other : List ℕ) → Stream vs b rest → Stream ws b other → (vs ≡ ws) × (rest ≡ other) }
    ensures one_fault { (b : List ℕ) (vs ws : List PacketValue) (start other place elsewhere : ℕ) (cause another : Cause) → Faulty vs b start place cause → Faulty ws b other elsewhere another →
        (vs ≡ ws) × (start ≡ other) × (place ≡ elsewhere) × (cause ≡ another) }
{}

/// Packets taken from the front of a list, one after the other, are those of the stream that it is: what is taken is spelled
/// behind what was, and where no more is taken, the bytes left are unfinished or refused.
pub fn taken_from_the_front()
    ensures taken { (b : List ℕ) (v : PacketValue) (n : ℕ) → AreBytes b → first b ≡ Some (Valid v, n) → Spells v (take n b) }
    ensures more { (vs : List PacketValue) (b : List ℕ) (v : PacketValue) (more : List ℕ) → Spelled vs b → Spells v more → Spelled (vs ++ (v ∷ [])) (b ++ more) }
    ensures unfinished { (b : List ℕ) → first b ≡ None → Unfinished b }
    ensures refused { (b : List ℕ) (cause : Cause) (n : ℕ) → first b ≡ Some (Malformed cause, n) → Bad b (place_of cause) cause }
{}

/// A faulty list of bytes and a stream that is malformed, as the theorems on whole runs say it, are one fact: of the same packets,
/// with the same start and cause.
pub fn malformed_is_faulty()
    ensures faulty { (b : List ℕ) (start : ℕ) (cause : Cause) → AreBytes b → (is : IsMalformedAt packet_codec b start cause) → Faulty is.packets b start (place_of cause) cause }
    ensures malformed { (vs : List PacketValue) (b : List ℕ) (start place : ℕ) (cause : Cause) → Faulty vs b start place cause →
        (place ≡ place_of cause) × (is : IsMalformedAt packet_codec b start cause) × (is.packets ≡ vs) }
{}

/// What is written for a value whose numbers fit their fields, as those of each packet in memory do (`numbers_fit`), is a
/// spelling of it. So it is read as that value again.
pub fn one_writing()
    ensures { (v : PacketValue) → Fits v → Writable v → Spells v (packet_bytes v) }
{}

/// A value has one canonical spelling at most: what is written for it, which is one wherever it can be written. So writing
/// what was read from a canonical spelling appends these bytes again, and each value that was read can be written.
pub fn one_canonical_spelling()
    ensures written { (v : PacketValue) → Fits v → Writable v → Canonical v (packet_bytes v) }
    ensures one { (v : PacketValue) (b : List ℕ) → AreBytes b → Canonical v b → b ≡ packet_bytes v }
    ensures back { (v : PacketValue) (b : List ℕ) (old new : Held) (result : Result Unit WriteFault) → AreBytes b → Canonical v b →
        Writes (packet_bytes v) (packet_fault v) old new result → OnOk result (new.bytes ≡ old.bytes ++ b) }
    ensures fits { (v : PacketValue) (b : List ℕ) → Spells v b → Fits v }
    ensures writable { (v : PacketValue) (b : List ℕ) → Spells v b → Writable v }
{}

/// The laws of a codec that the theorems on whole runs ask for: what is written is read back whatever follows it, it has the
/// bytes of its fields, and a whole packet is decided by its own bytes.
pub fn codec_laws()
    ensures { IsCodec packet_codec }
{}
