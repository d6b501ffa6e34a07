// The reads and writes that an end sends.
ghost use Rattle.std.specs.Prelude.{◌≡◌, ◌+◌, ◌<◌, ◌≤◌, ◌++◌, [], length, IfOk, OnErr, IsTrue, false};
ghost use Rattle.cosim_model.specs.Values.{bit, bits_of};
ghost use Rattle.cosim_model.specs.Packets.{is_extended};
ghost use Rattle.cosim_model.specs.Packets.Body.{Read, Write};
ghost use Rattle.ends_model.specs.DeviceTurn.{request_fields, answer_fields};
ghost use Rattle.rp_busaccess.specs.Bits.{fields_of};
ghost use Rattle.rp_packet.specs.Values.{tagged};
ghost use Rattle.rp_packet.specs.Spelling.{packet_bytes};
ghost use Rattle.end_packets.specs.Places.{Rooms, IsNarrow};

use crate::lanes::{are_all_on, put_enables};
use crate::put::{put_read, put_write};
use cos_base::{NoMemory, Octets};
use cosim_model::Caps;
use rp_packet::{BusAccess, Tag};
use std::alloc::Global;
use std::marker::Model;

/// The most lanes of a request of an end.
const LANES: usize = 64;

/// What an end asks for by a read or a write.
#[derive(Clone, Copy)]
pub struct Request {
    /// In ticks.
    pub time: u64,
    pub addr: u64,
    /// In bytes.
    pub len: u32,
    /// Lane i is enabled where bit i is set.
    pub mask: u64,
    /// How many lanes the mask speaks of, at most 64; all are enabled where there are none.
    pub lanes: u8,
}

/// The place of the bus packet that an end sends. Its lists keep their room from one packet to the next.
#[derive(Drop)]
pub struct BusPlace {
    bus: BusAccess,
}

impl Model for BusPlace {
    ghost use Rattle.std.specs.Prelude.{◌≡◌, ◌≤◌, []};
    ghost use Rattle.end_packets.specs.Places.{Rooms};

    ghost Value = { Rooms };

    ghost view = { λ p. record { room = p.bus.payload.spare } };

    ghost invariant = { λ p. (p.bus.payload.bytes ≡ []) × (p.bus.enables.bytes ≡ []) × (64 ≤ p.bus.enables.spare) };
}

impl BusPlace {
    /// A place with room for this many data bytes, and for the lanes of a request.
    pub fn make(alloc: Global, size: usize) -> Result<BusPlace, NoMemory>
        ensures { IfOk result (λ p. size ≤ p.room) }
    {
        let mut payload = Octets::make(alloc);
        let mut enables = Octets::make(alloc);
        payload.reserve(size)?;
        enables.reserve(LANES)?;
        Ok(BusPlace {
            bus: BusAccess {
                time: 0,
                attributes: 0,
                addr: 0,
                len: 0,
                width: 0,
                stream_width: 0,
                master: 0,
                payload,
                enables,
            },
        })
    }

    /// Makes room for at least so many data bytes.
    pub fn reserve(&mut self, size: usize) -> Result<(), NoMemory>
        ensures grows { self.old.room ≤ self.new.room }
        ensures ok { IfOk result (λ _. size ≤ self.new.room) }
        ensures err { OnErr result (self.new ≡ self.old) }
    {
        self.bus.payload.reserve(size)
    }

    /// Puts the request of a read.
    pub fn put_read_request(&mut self, tag: Tag, common: Caps, request: Request, out: &mut Octets)
        requires asks { bit tag.flags 1 ≡ false }
        requires lanes { request.lanes ≤ 64 }
        requires room { 208 ≤ out.old.spare }
        ensures grows { self.old.room ≤ self.new.room }
        ensures bytes { out.new.bytes ≡ out.old.bytes ++ packet_bytes (tagged tag (Read (request_fields common request.time request.addr request.len [] (bits_of request.mask request.lanes)))) }
        ensures spare { out.old.spare ≤ out.new.spare + 208 }
    {
        fill_request(&mut self.bus, common, request);
        put_read(tag, &self.bus, out);
        self.bus.enables.clear();
    }

    /// Puts the request of a write of these bytes.
    pub fn put_write_request(
        &mut self,
        tag: Tag,
        common: Caps,
        request: Request,
        bytes: &[u8],
        out: &mut Octets,
    )
        requires asks { bit tag.flags 1 ≡ false }
        requires lanes { request.lanes ≤ 64 }
        requires size { length bytes.now ≡ request.len }
        requires few { length bytes.now ≤ 64 }
        requires fits { length bytes.now ≤ self.old.room }
        requires room { 208 ≤ out.old.spare }
        ensures grows { self.old.room ≤ self.new.room }
        ensures bytes { out.new.bytes ≡ out.old.bytes ++ packet_bytes (tagged tag (Write (request_fields common request.time request.addr request.len bytes.now (bits_of request.mask request.lanes)))) }
        ensures spare { out.old.spare ≤ out.new.spare + 208 }
    {
        fill_request(&mut self.bus, common, request);
        self.bus.payload.push_spare(bytes);
        put_write(tag, &self.bus, out);
        self.bus.payload.clear();
        self.bus.enables.clear();
    }

    /// Puts the answer to a read: its code and these bytes.
    pub fn put_read_answer(
        &mut self,
        tag: Tag,
        asked: &BusAccess,
        code: u8,
        bytes: &[u8],
        out: &mut Octets,
    )
        requires answers { IsTrue (bit tag.flags 1) }
        requires narrow { IsNarrow (fields_of asked.now) }
        requires code { code < 16 }
        requires few { length bytes.now ≤ 4096 }
        requires fits { length bytes.now ≤ self.old.room }
        requires room { 80 + length bytes.now ≤ out.old.spare }
        ensures grows { self.old.room ≤ self.new.room }
        ensures bytes { out.new.bytes ≡ out.old.bytes ++ packet_bytes (tagged tag (Read (answer_fields (fields_of asked.now) code (length bytes.now) bytes.now))) }
        ensures spare { out.old.spare ≤ out.new.spare + (80 + length bytes.now) }
    {
        fill_answer(&mut self.bus, asked, code, bytes.len() as u32);
        self.bus.payload.push_spare(bytes);
        put_read(tag, &self.bus, out);
        self.bus.payload.clear();
    }

    /// Puts the answer to a write: its code.
    pub fn put_write_answer(&mut self, tag: Tag, asked: &BusAccess, code: u8, out: &mut Octets)
        requires answers { IsTrue (bit tag.flags 1) }
        requires narrow { IsNarrow (fields_of asked.now) }
        requires code { code < 16 }
        requires room { 80 ≤ out.old.spare }
        ensures same { self.new ≡ self.old }
        ensures bytes { out.new.bytes ≡ out.old.bytes ++ packet_bytes (tagged tag (Write (answer_fields (fields_of asked.now) code asked.now.len []))) }
        ensures spare { out.old.spare ≤ out.new.spare + 80 }
    {
        fill_answer(&mut self.bus, asked, code, asked.len);
        put_write(tag, &self.bus, out);
    }
}

/// The fields of a request, but its data.
fn fill_request(bus: &mut BusAccess, common: Caps, request: Request)
    requires lanes { request.lanes ≤ 64 }
    requires empty { bus.old.enables.bytes ≡ [] }
    requires clear { bus.old.payload.bytes ≡ [] }
    requires room { 64 ≤ bus.old.enables.spare }
    ensures fields { fields_of bus.new ≡ request_fields common request.time request.addr request.len [] (bits_of request.mask request.lanes) }
    ensures payload { bus.new.payload ≡ bus.old.payload }
    ensures room { 64 ≤ bus.new.enables.spare + length bus.new.enables.bytes }
{
    bus.time = request.time;
    bus.attributes = if common.base { 4 } else { 0 };
    bus.addr = request.addr;
    bus.len = request.len;
    bus.width = 0;
    bus.stream_width = request.len;
    bus.master = 0;
    if common.base && common.enables && !are_all_on(request.mask, request.lanes) {
        let mut enables = [0; LANES];
        let enables = &mut enables[..usize::from(request.lanes)];
        put_enables(request.mask, enables);
        bus.enables.push_spare(enables);
    }
}

/// The fields of an answer, but its data.
fn fill_answer(bus: &mut BusAccess, asked: &BusAccess, code: u8, len: u32)
    requires code { code < 16 }
    requires empty { bus.old.enables.bytes ≡ [] }
    requires clear { bus.old.payload.bytes ≡ [] }
    ensures fields { fields_of bus.new ≡ answer_fields (fields_of asked.now) code len [] }
    ensures payload { bus.new.payload ≡ bus.old.payload }
    ensures enables { bus.new.enables ≡ bus.old.enables }
{
    bus.time = asked.time;
    bus.attributes = asked.attributes - 256 * (asked.attributes / 256 % 16) + 256 * u64::from(code);
    bus.addr = asked.addr;
    bus.len = len;
    bus.width = asked.width;
    bus.stream_width = asked.stream_width;
    bus.master = asked.master;
}
