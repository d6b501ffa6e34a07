ghost use Rattle.std.specs.Prelude.{◌≡◌, ◌↔◌, ℕ, IsTrue, None, IfOk, IfErr, OnOk, Err};
ghost use Rattle.cosim_model.specs.Values.{bit};
ghost use Rattle.cosim_model.specs.Packets.{Packet as PacketValue};
ghost use Rattle.rp_packet.specs.declared.fault.Cause.{Cause as AnyCause};
ghost use Rattle.rp_packet.specs.declared.fault.ReadFault.TheVariants.{Malformed};
ghost use Rattle.rp_packet.specs.Spelling.{Spells, IsTight, Canonical};
ghost use Rattle.rp_packet.specs.Refusals.{body_cause, body_in};
ghost use Rattle.rp_packet.specs.Reading.{IsOnePacket, IsEarlyFault, Judges, fault_at};
ghost use Rattle.rp_packet.specs.Streams.{Bad};

use crate::decode::{bus_fault, control_fault, header_of};
use crate::fault::ReadFault;
use cosim_model::Command;
use rp_busaccess::BusAccess;
use rp_control::{Cfg, Hello, Interrupt, Sync};
use rp_header::Header;

/// Whether bytes that are one whole packet by their header spell its value canonically, or why they are refused. They are judged
/// where they stand: this takes no memory.
pub fn is_canonical(bytes: &[u8]) -> Result<bool, ReadFault>
    requires { IsOnePacket bytes.now }
    ensures judged { Judges bytes.now result }
    ensures exact { (v : PacketValue) → Spells v bytes.now → IfOk result (λ canonical. IsTrue canonical ↔ Canonical v bytes.now) }
    ensures refused { (place : ℕ) (cause : AnyCause) → Bad bytes.now place cause → result ≡ Err (Malformed (fault_at 0 cause)) }
{
    match header_of(bytes) {
        Ok(header) => judge_body(header, bytes.split_at(20).1),
        Err(fault) => Err(fault),
    }
}

/// Whether the body of a packet with this header is tight, or why it is refused.
fn judge_body(header: Header, body: &[u8]) -> Result<bool, ReadFault>
    ensures lawful { IfOk result (λ canonical. body_cause header.cmd (bit header.flags 1) body.now ≡ None) }
    ensures tight { IfOk result (λ canonical. IsTrue canonical ↔ IsTight (body_in header.cmd (bit header.flags 1) body.now) body.now) }
    ensures refused { IfErr result (λ e. IsEarlyFault (body_cause header.cmd (bit header.flags 1) body.now) e) }
{
    let response = header.flags / 2 % 2 == 1;
    match header.cmd {
        Command::Nop => Ok(body.is_empty()),
        Command::Hello => match Hello::is_canonical(body) {
            Ok(canonical) => Ok(canonical),
            Err(fault) => Err(control_fault(fault)),
        },
        Command::Cfg => match Cfg::read(body) {
            Ok(_) => Ok(body.len() == 5),
            Err(fault) => Err(control_fault(fault)),
        },
        Command::Read => match BusAccess::is_canonical(body, response) {
            Ok(canonical) => Ok(canonical),
            Err(fault) => Err(bus_fault(fault)),
        },
        Command::Write => match BusAccess::is_canonical(body, !response) {
            Ok(canonical) => Ok(canonical),
            Err(fault) => Err(bus_fault(fault)),
        },
        Command::Interrupt => match Interrupt::read(body) {
            Ok(_) => Ok(body.len() == 21),
            Err(fault) => Err(control_fault(fault)),
        },
        Command::Sync => match Sync::read(body) {
            Ok(_) => Ok(body.len() == 8),
            Err(fault) => Err(control_fault(fault)),
        },
    }
}
