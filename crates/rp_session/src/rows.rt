// The rows of session faults that look at a packet and little of a session.
ghost use Rattle.std.specs.Prelude.{◌≡◌, length};
ghost use Rattle.cosim_model.specs.Packets.{BusFields, is_response as is_answer};
ghost use Rattle.cosim_model.specs.Sessions.{fault_if, or_else, is_posted, hello_missing, hello_again, wrong_version, lacking, hello_lacks, unsupported, is_none_byte, bus_beyond, not_in_common, time_backwards, early_posted, is_taken, is_answer_of, wrong_len};
ghost use Rattle.rp_session.specs.Rows.{stray_row, wrong_row, second_row};
ghost use Rattle.rp_session.specs.Tags.{is_posted_kind};
ghost use Rattle.rp_busaccess.specs.Bits.{fields_of};
ghost use Rattle.rp_packet.specs.Values.{value_of};

use crate::looks::{command_number, command_of, is_flagged_posted, is_response, tag_of};
use cosim_model::{OwnRequest, Role, SessionFault, Ticket};
use rp_control::{Caps, caps_of};
use rp_header::Command;
use rp_packet::{BusAccess, Packet};

/// The fault, where it is one.
pub(crate) fn fault_if(is: bool, fault: SessionFault) -> Option<SessionFault>
    ensures { result ≡ fault_if is fault }
{
    if is { Some(fault) } else { None }
}

/// The earlier fault, or else the later one.
pub(crate) fn or_else(
    one: Option<SessionFault>,
    other: Option<SessionFault>,
) -> Option<SessionFault>
    ensures { result ≡ or_else one other }
{
    match one {
        Some(fault) => Some(fault),
        None => other,
    }
}

/// Whether a request has no answer.
pub(crate) fn is_posted(common: Caps, packet: &Packet) -> bool
    ensures { result ≡ is_posted common (value_of packet.now) }
{
    match packet {
        Packet::Write(tag, _) => is_flagged_posted(tag.flags),
        Packet::Interrupt(tag, _) => is_flagged_posted(tag.flags) || !common.posted,
        Packet::Nop(_) => false,
        Packet::Hello(..) => false,
        Packet::Cfg(..) => false,
        Packet::Read(..) => false,
        Packet::Sync(..) => false,
    }
}

/// Whether a request of this kind, sent as posted or not, has no answer.
pub(crate) fn is_posted_kind(common: Caps, posted: bool, kind: Command) -> bool
    ensures { result ≡ is_posted_kind common posted kind }
{
    match kind {
        Command::Write => posted,
        Command::Interrupt => posted || !common.posted,
        Command::Nop => false,
        Command::Hello => false,
        Command::Cfg => false,
        Command::Read => false,
        Command::Sync => false,
    }
}

/// Before the hello, a packet that is neither hello nor nop.
pub(crate) fn hello_missing(came: bool, packet: &Packet) -> Option<SessionFault>
    ensures { result ≡ hello_missing came (value_of packet.now).body }
{
    if came {
        return None;
    }
    let cmd = command_number(command_of(packet));
    match packet {
        Packet::Nop(_) => None,
        Packet::Hello(..) => None,
        Packet::Cfg(..) => Some(SessionFault::HelloMissing { cmd }),
        Packet::Read(..) => Some(SessionFault::HelloMissing { cmd }),
        Packet::Write(..) => Some(SessionFault::HelloMissing { cmd }),
        Packet::Interrupt(..) => Some(SessionFault::HelloMissing { cmd }),
        Packet::Sync(..) => Some(SessionFault::HelloMissing { cmd }),
    }
}

/// A second hello.
pub(crate) fn hello_again(came: bool, packet: &Packet) -> Option<SessionFault>
    ensures { result ≡ hello_again came (value_of packet.now).body }
{
    match packet {
        Packet::Hello(..) => fault_if(came, SessionFault::HelloAgain),
        Packet::Nop(_) => None,
        Packet::Cfg(..) => None,
        Packet::Read(..) => None,
        Packet::Write(..) => None,
        Packet::Interrupt(..) => None,
        Packet::Sync(..) => None,
    }
}

/// A hello of another major version than 4.
pub(crate) fn wrong_version(packet: &Packet) -> Option<SessionFault>
    ensures { result ≡ wrong_version (value_of packet.now).body }
{
    match packet {
        Packet::Hello(_, hello) => fault_if(
            hello.major != 4,
            SessionFault::Version {
                major: u64::from(hello.major),
            },
        ),
        Packet::Nop(_) => None,
        Packet::Cfg(..) => None,
        Packet::Read(..) => None,
        Packet::Write(..) => None,
        Packet::Interrupt(..) => None,
        Packet::Sync(..) => None,
    }
}

/// The least capability that is needed and that isn't there.
fn lacking(needs: Caps, has: Caps) -> Option<SessionFault>
    ensures { result ≡ lacking needs has }
{
    let base = fault_if(needs.base && !has.base, SessionFault::CapMissing { cap: 1 });
    let enables = fault_if(
        needs.enables && !has.enables,
        SessionFault::CapMissing { cap: 2 },
    );
    let posted = fault_if(
        needs.posted && !has.posted,
        SessionFault::CapMissing { cap: 3 },
    );
    or_else(base, or_else(enables, posted))
}

/// A hello that lacks a needed capability.
pub(crate) fn hello_lacks(needs: Caps, packet: &Packet) -> Option<SessionFault>
    ensures { result ≡ hello_lacks needs (value_of packet.now).body }
{
    match packet {
        Packet::Hello(_, hello) => lacking(needs, caps_of(hello)),
        Packet::Nop(_) => None,
        Packet::Cfg(..) => None,
        Packet::Read(..) => None,
        Packet::Write(..) => None,
        Packet::Interrupt(..) => None,
        Packet::Sync(..) => None,
    }
}

/// A cfg; a sync request at a machine; an interrupt request at a device.
pub(crate) fn unsupported(role: Role, packet: &Packet) -> Option<SessionFault>
    ensures { result ≡ unsupported role (is_answer (value_of packet.now)) (value_of packet.now).body }
{
    match packet {
        Packet::Cfg(..) => Some(SessionFault::Unsupported { cmd: 2 }),
        Packet::Sync(tag, _) => match role {
            Role::Machine => fault_if(
                !is_response(tag.flags),
                SessionFault::Unsupported { cmd: 6 },
            ),
            Role::Device => None,
        },
        Packet::Interrupt(tag, _) => match role {
            Role::Device => fault_if(
                !is_response(tag.flags),
                SessionFault::Unsupported { cmd: 5 },
            ),
            Role::Machine => None,
        },
        Packet::Nop(_) => None,
        Packet::Hello(..) => None,
        Packet::Read(..) => None,
        Packet::Write(..) => None,
    }
}

/// Whether a bus packet has enables.
fn has_none(bus: &BusAccess) -> bool
    ensures { result ≡ is_none_byte bus.now.enables.bytes }
{
    bus.enables.len() == 0
}

/// What a bus request uses without having it in common.
fn bus_beyond(common: Caps, bus: &BusAccess) -> Option<SessionFault>
    ensures { result ≡ bus_beyond common (fields_of bus.now) }
{
    let base = fault_if(
        bus.extended() && !common.base,
        SessionFault::CapMissing { cap: 1 },
    );
    let enables = fault_if(
        !has_none(bus) && !common.enables,
        SessionFault::CapMissing { cap: 2 },
    );
    or_else(base, enables)
}

/// A bus request in the extended layout without capability 1 in common, or with enables without capability 2.
pub(crate) fn not_in_common(common: Caps, packet: &Packet) -> Option<SessionFault>
    ensures { result ≡ not_in_common (is_answer (value_of packet.now)) common (value_of packet.now).body }
{
    if is_response(tag_of(packet).flags) {
        return None;
    }
    match packet {
        Packet::Read(_, bus) => bus_beyond(common, bus),
        Packet::Write(_, bus) => bus_beyond(common, bus),
        Packet::Nop(_) => None,
        Packet::Hello(..) => None,
        Packet::Cfg(..) => None,
        Packet::Interrupt(..) => None,
        Packet::Sync(..) => None,
    }
}

/// A request with a time below `had`.
pub(crate) fn time_backwards(had: u64, packet: &Packet) -> Option<SessionFault>
    ensures { result ≡ time_backwards (is_answer (value_of packet.now)) had (value_of packet.now).body }
{
    if is_response(tag_of(packet).flags) {
        return None;
    }
    let got = match packet {
        Packet::Read(_, bus) => bus.time,
        Packet::Write(_, bus) => bus.time,
        Packet::Interrupt(_, interrupt) => interrupt.time,
        Packet::Sync(_, sync) => sync.time,
        Packet::Nop(_) => return None,
        Packet::Hello(..) => return None,
        Packet::Cfg(..) => return None,
    };
    fault_if(got < had, SessionFault::TimeBackwards { had, got })
}

/// At a machine: a posted request while no own sync is out.
pub(crate) fn early_posted(
    role: Role,
    common: Caps,
    own_sync: Option<OwnRequest>,
    packet: &Packet,
) -> Option<SessionFault>
    ensures { result ≡ early_posted role (is_answer (value_of packet.now)) (is_posted common (value_of packet.now)) own_sync (value_of packet.now).id }
{
    let tag = tag_of(packet);
    if is_response(tag.flags) || !is_posted(common, packet) {
        return None;
    }
    match role {
        Role::Machine => match own_sync {
            None => Some(SessionFault::EarlyPosted {
                id: u64::from(tag.id),
            }),
            Some(_) => None,
        },
        Role::Device => None,
    }
}

/// A request while this one of its class is unanswered.
fn is_taken(unanswered: Option<Ticket>, id: u32) -> Option<SessionFault>
    ensures { result ≡ is_taken unanswered id }
{
    match unanswered {
        None => None,
        Some(_) => Some(SessionFault::SecondRequest { id: u64::from(id) }),
    }
}

/// An answered request while one of its class is unanswered.
pub(crate) fn second_request(
    common: Caps,
    sync: Option<Ticket>,
    other: Option<Ticket>,
    packet: &Packet,
) -> Option<SessionFault>
    ensures { result ≡ second_row (is_answer (value_of packet.now)) (is_posted common (value_of packet.now)) sync other (value_of packet.now).id (value_of packet.now).body }
{
    let tag = tag_of(packet);
    if is_response(tag.flags) || is_posted(common, packet) {
        return None;
    }
    match packet {
        Packet::Read(..) => is_taken(other, tag.id),
        Packet::Write(..) => is_taken(other, tag.id),
        Packet::Interrupt(..) => is_taken(other, tag.id),
        Packet::Sync(..) => is_taken(sync, tag.id),
        Packet::Nop(_) => None,
        Packet::Hello(..) => None,
        Packet::Cfg(..) => None,
    }
}

/// Whether the packet has the number and the command of that request.
fn is_answer_of(own: Option<OwnRequest>, packet: &Packet) -> bool
    ensures { result ≡ is_answer_of own (value_of packet.now).id (value_of packet.now).body }
{
    match own {
        None => false,
        Some(request) => {
            tag_of(packet).id == request.id
                && command_number(command_of(packet)) == command_number(request.cmd)
        }
    }
}

/// An answer, where `own`, the own request of its class, doesn't have its number and command. A nop is none.
pub(crate) fn stray_answer(own: Option<OwnRequest>, packet: &Packet) -> Option<SessionFault>
    ensures { result ≡ stray_row (is_answer (value_of packet.now)) own (value_of packet.now).id (value_of packet.now).body }
{
    let tag = tag_of(packet);
    if !is_response(tag.flags) {
        return None;
    }
    let stray = fault_if(
        !is_answer_of(own, packet),
        SessionFault::StrayAnswer {
            id: u64::from(tag.id),
            cmd: command_number(command_of(packet)),
        },
    );
    match packet {
        Packet::Nop(_) => None,
        Packet::Hello(..) => stray,
        Packet::Cfg(..) => stray,
        Packet::Read(..) => stray,
        Packet::Write(..) => stray,
        Packet::Interrupt(..) => stray,
        Packet::Sync(..) => stray,
    }
}

/// The answer of a read with code 0 and another length than that request asks for.
fn wrong_len(own: Option<OwnRequest>, id: u32, bus: &BusAccess) -> Option<SessionFault>
    ensures { result ≡ wrong_len own id (fields_of bus.now) }
{
    match own {
        None => None,
        Some(request) => fault_if(
            bus.code() == 0 && bus.len != request.len,
            SessionFault::WrongAnswer {
                id: u64::from(id),
                wanted: u64::from(request.len),
                got: u64::from(bus.len),
            },
        ),
    }
}

/// A read's answer with code 0 and another length than its request, which is this one.
pub(crate) fn wrong_answer(own: Option<OwnRequest>, packet: &Packet) -> Option<SessionFault>
    ensures { result ≡ wrong_row (is_answer (value_of packet.now)) own (value_of packet.now).id (value_of packet.now).body }
{
    match packet {
        Packet::Read(tag, bus) => {
            if is_response(tag.flags) {
                wrong_len(own, tag.id, bus)
            } else {
                None
            }
        }
        Packet::Nop(_) => None,
        Packet::Hello(..) => None,
        Packet::Cfg(..) => None,
        Packet::Write(..) => None,
        Packet::Interrupt(..) => None,
        Packet::Sync(..) => None,
    }
}
