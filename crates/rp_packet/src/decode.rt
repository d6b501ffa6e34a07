ghost use Rattle.std.specs.Prelude.{◌≡◌, ◌≢◌, ◌⊎◌, ◌+◌, ◌≤◌, ℕ, OnOk, length, Some, None, IfOk, IfErr, MatchResult, Option};
ghost use Rattle.cosim_model.specs.Values.{bit};
ghost use Rattle.cosim_model.specs.Packets.{Packet as PacketValue, cmd_of, carries};
ghost use Rattle.rp_header.specs.Headers.{command_number};
ghost use Rattle.rp_control.specs.Refusals.{IsRefusal as IsControlRefusal};
ghost use Rattle.rp_busaccess.specs.Refusals.{IsRefusal as IsBusRefusal};
ghost use Rattle.rp_control.specs.declared.fault.BodyFault.{BodyFault as ControlFault};
ghost use Rattle.rp_control.specs.declared.fault.BodyFault.TheVariants.{NoMemory as ControlMemory};
ghost use Rattle.rp_busaccess.specs.declared.fault.BusFault.TheVariants.{NoMemory as BusMemory};
ghost use Rattle.rp_busaccess.specs.declared.fault.BusFault.{BusFault as AnyBusFault};
ghost use Rattle.rp_packet.specs.declared.fault.Cause.{Cause as AnyCause};
ghost use Rattle.rp_packet.specs.declared.fault.ReadFault.TheVariants.{Malformed, NoMemory as WantOfMemory};
ghost use Rattle.rp_packet.specs.Values.{value_of};
ghost use Rattle.rp_packet.specs.Spelling.{IsBodyOf, Spells};
ghost use Rattle.rp_packet.specs.Refusals.{body_cause, control_cause, bus_cause, header_cause, early_refusal, len_at};
ghost use Rattle.rp_packet.specs.PacketLaws.{IsHeaderAt};
ghost use Rattle.rp_packet.specs.Reading.{IsOnePacket, IsReadFault, IsBodyFault, IsEarlyFault, fault_at};
ghost use Rattle.rp_packet.specs.Streams.{Bad};

use crate::fault::{Cause, PacketFault, ReadFault};
use crate::packet::{Packet, Tag};
use crate::rows::FAULTS;
use cosim_model::Command;
use rp_busaccess::{BusAccess, BusFault};
use rp_control::{BodyFault, Cfg, Hello, Interrupt, Sync};
use rp_header::{Header, HeaderFault};
use std::alloc::Global;

impl Packet {
    /// Reads bytes that are one whole packet by their header. The data are copied once.
    pub fn read(alloc: Global, bytes: &[u8]) -> Result<Packet, ReadFault>
        requires { IsOnePacket bytes.now }
        ensures ok { IfOk result (λ p. Spells (value_of p) bytes.now) }
        ensures malformed { IfErr result (λ e. IsReadFault bytes.now e) }
        ensures exact { (v : PacketValue) → Spells v bytes.now → MatchResult result (λ p. value_of p ≡ v) (λ e. e ≡ WantOfMemory) }
        ensures refused { (place : ℕ) (cause : AnyCause) → Bad bytes.now place cause → IfErr result (λ e. (e ≡ Malformed (fault_at 0 cause)) ⊎ (e ≡ WantOfMemory)) }
    {
        match header_of(bytes) {
            Ok(header) => read_body(alloc, header, bytes.split_at(20).1),
            Err(fault) => Err(fault),
        }
    }
}

/// The number of bytes of the packet that these begin with, by its header alone, or why the header is refused. It takes no
/// memory.
pub fn packet_len(bytes: &[u8]) -> Result<usize, ReadFault>
    requires { 20 ≤ length bytes.now }
    ensures len { IfOk result (λ n. n ≡ 20 + len_at bytes.now) }
    ensures lawful { OnOk result (early_refusal bytes.now ≡ None) }
    ensures refused { IfErr result (λ e. IsEarlyFault (early_refusal bytes.now) e) }
{
    match header_of(bytes) {
        Ok(header) => Ok(20 + header.len as usize),
        Err(fault) => Err(fault),
    }
}

/// The header that stands at the front.
pub fn header_of(bytes: &[u8]) -> Result<Header, ReadFault>
    requires { 20 ≤ length bytes.now }
    ensures at { IfOk result (λ h. IsHeaderAt h bytes.now) }
    ensures lawful { IfOk result (λ h. early_refusal bytes.now ≡ None) }
    ensures refused { IfErr result (λ e. IsEarlyFault (early_refusal bytes.now) e) }
{
    match bytes.first_chunk::<20>() {
        Some(front) => match Header::read(front) {
            Ok(header) => Ok(header),
            Err(fault) => Err(header_fault(fault)),
        },
        None => unreachable!(),
    }
}

fn header_fault(fault: HeaderFault) -> ReadFault
    ensures { IsEarlyFault (header_cause (Some fault)) result }
{
    malformed(match fault {
        HeaderFault::Command { number } => Cause::Command { number },
        HeaderFault::Translation { number } => Cause::Translation { number },
        HeaderFault::TooLong { len } => Cause::TooLong { len },
    })
}

/// The fault of a packet that begins at byte 0.
fn malformed(cause: Cause) -> ReadFault
    ensures { result ≡ Malformed (fault_at 0 cause) }
{
    let row = match cause {
        Cause::Command { .. } | Cause::Translation { .. } => 0,
        Cause::TooLong { .. } => 1,
        Cause::Length { .. } => 2,
        Cause::CapsRange { .. } => 3,
        Cause::DataRange { .. } => 4,
        Cause::EnableRange { .. } => 5,
    };
    ReadFault::Malformed(PacketFault {
        start: 0,
        place: FAULTS.places[row],
        cause,
    })
}

pub fn control_fault(fault: BodyFault) -> ReadFault
    ensures first { (r : Option ControlFault) → IsControlRefusal fault r → IsBodyFault (control_cause r) result }
    ensures named { fault ≢ ControlMemory → IsEarlyFault (control_cause (Some fault)) result }
{
    match fault {
        BodyFault::Length { wanted, got } => malformed(Cause::Length { wanted, got }),
        BodyFault::CapsRange { offset, count } => malformed(Cause::CapsRange { offset, count }),
        BodyFault::NoMemory => ReadFault::NoMemory,
    }
}

pub fn bus_fault(fault: BusFault) -> ReadFault
    ensures first { (r : Option AnyBusFault) → IsBusRefusal fault r → IsBodyFault (bus_cause r) result }
    ensures named { fault ≢ BusMemory → IsEarlyFault (bus_cause (Some fault)) result }
{
    match fault {
        BusFault::Length { wanted, got } => malformed(Cause::Length { wanted, got }),
        BusFault::DataRange { offset, len } => malformed(Cause::DataRange { offset, len }),
        BusFault::EnableRange { offset, len } => malformed(Cause::EnableRange { offset, len }),
        BusFault::NoMemory => ReadFault::NoMemory,
    }
}

/// Reads the body of a packet with this header.
fn read_body(alloc: Global, header: Header, body: &[u8]) -> Result<Packet, ReadFault>
    ensures id { IfOk result (λ p. (value_of p).id ≡ header.id) }
    ensures flags { IfOk result (λ p. (value_of p).flags ≡ header.flags) }
    ensures dev { IfOk result (λ p. (value_of p).dev ≡ header.dev) }
    ensures command { IfOk result (λ p. cmd_of (value_of p).body ≡ command_number header.cmd) }
    ensures means { IfOk result (λ p. IsBodyOf (carries (value_of p)) (value_of p).body body.now) }
    ensures refused { IfErr result (λ e. IsBodyFault (body_cause header.cmd (bit header.flags 1) body.now) e) }
{
    let tag = Tag {
        id: header.id,
        flags: header.flags,
        dev: header.dev,
    };
    let response = header.flags / 2 % 2 == 1;
    match header.cmd {
        Command::Nop => Ok(Packet::Nop(tag)),
        Command::Hello => match Hello::read(alloc, body) {
            Ok(hello) => Ok(Packet::Hello(tag, hello)),
            Err(fault) => Err(control_fault(fault)),
        },
        Command::Cfg => match Cfg::read(body) {
            Ok(cfg) => Ok(Packet::Cfg(tag, cfg)),
            Err(fault) => Err(control_fault(fault)),
        },
        Command::Read => match BusAccess::read(alloc, body, response) {
            Ok(access) => Ok(Packet::Read(tag, access)),
            Err(fault) => Err(bus_fault(fault)),
        },
        Command::Write => match BusAccess::read(alloc, body, !response) {
            Ok(access) => Ok(Packet::Write(tag, access)),
            Err(fault) => Err(bus_fault(fault)),
        },
        Command::Interrupt => match Interrupt::read(body) {
            Ok(interrupt) => Ok(Packet::Interrupt(tag, interrupt)),
            Err(fault) => Err(control_fault(fault)),
        },
        Command::Sync => match Sync::read(body) {
            Ok(sync) => Ok(Packet::Sync(tag, sync)),
            Err(fault) => Err(control_fault(fault)),
        },
    }
}
