// The lines of calls.
ghost use Rattle.std.specs.Prelude.{◌≡◌, ◌+◌, ◌≤◌, ◌++◌, length, OnOk, OnErr};
ghost use Rattle.transcript.specs.CallLines.{place_text, value_text, code_text, mask_text, access_line, shown_bytes, call_text, HasLine, call_room};

use crate::pieces::Piece;
use cos_base::{NoMemory, Octets};
use cos_text::push_bytes;
use cosim_model::{Access, Answer, Call, Reply, Want};

/// What an access's line has at most, in bytes.
pub const ACCESS_ROOM: usize = 137;

/// What the line of a served want has at most, in bytes.
pub const SERVED_ROOM: usize = 296;

/// What a fetch shows that wasn't served.
const ZEROS: [u8; 64] = [0; 64];

/// Appends when a call was made, at which port, what it did, and the bytes that it is about.
fn push_place(out: &mut Octets, tick: u64, port: u32, name: &str, addr: u64, size: u8)
    requires name { length name.now ≤ 5 }
    requires room { 89 ≤ out.old.spare }
    ensures bytes { out.new.bytes ≡ out.old.bytes ++ place_text tick port name.now addr size }
    ensures spare { out.old.spare ≤ out.new.spare + 89 }
    ensures room { length out.new.bytes + out.new.spare ≡ length out.old.bytes + out.old.spare }
{
    Piece::push_all(
        out,
        &[
            Piece::Text("@"),
            Piece::Decimal(tick),
            Piece::Text(" p"),
            Piece::Decimal(u64::from(port)),
            Piece::Text(" "),
            Piece::Text(name),
            Piece::Text(" 0x"),
            Piece::Hexadecimal(addr),
            Piece::Text("+"),
            Piece::Decimal(u64::from(size)),
        ],
    );
}

/// Appends the code that was answered, and ends the line.
fn push_code(out: &mut Octets, code: u8)
    requires { 27 ≤ out.old.spare }
    ensures bytes { out.new.bytes ≡ out.old.bytes ++ code_text code }
    ensures spare { out.old.spare ≤ out.new.spare + 27 }
    ensures room { length out.new.bytes + out.new.spare ≡ length out.old.bytes + out.old.spare }
{
    Piece::push_all(
        out,
        &[
            Piece::Text(" code "),
            Piece::Decimal(u64::from(code)),
            Piece::Text("\n"),
        ],
    );
}

/// Appends the value of an access.
fn push_value(out: &mut Octets, value: u64)
    requires { 21 ≤ out.old.spare }
    ensures bytes { out.new.bytes ≡ out.old.bytes ++ value_text value }
    ensures spare { out.old.spare ≤ out.new.spare + 21 }
    ensures room { length out.new.bytes + out.new.spare ≡ length out.old.bytes + out.old.spare }
{
    Piece::push_all(out, &[Piece::Text(" = 0x"), Piece::Hexadecimal(value)]);
}

/// Appends the line of an access.
fn push_access(out: &mut Octets, tick: u64, port: u32, access: &Access, answer: &Answer)
    requires { ACCESS_ROOM ≤ out.old.spare }
    ensures bytes { out.new.bytes ≡ out.old.bytes ++ access_line access.now.write access.now.posted tick port access.now answer.now }
    ensures spare { out.old.spare ≤ out.new.spare + ACCESS_ROOM }
    ensures room { length out.new.bytes + out.new.spare ≡ length out.old.bytes + out.old.spare }
{
    match (access.write, access.posted) {
        (false, _) => {
            push_place(out, tick, port, "read", access.addr, access.size);
            push_value(out, answer.value);
            push_code(out, answer.code);
        }
        (true, false) => {
            push_place(out, tick, port, "write", access.addr, access.size);
            push_value(out, access.value);
            push_code(out, answer.code);
        }
        (true, true) => {
            push_place(out, tick, port, "post", access.addr, access.size);
            push_value(out, access.value);
            out.push_spare(b"\n");
        }
    }
}

/// Appends which bytes are enabled.
fn push_mask(out: &mut Octets, mask: u64)
    requires { 24 ≤ out.old.spare }
    ensures bytes { out.new.bytes ≡ out.old.bytes ++ mask_text mask }
    ensures spare { out.old.spare ≤ out.new.spare + 24 }
    ensures room { length out.new.bytes + out.new.spare ≡ length out.old.bytes + out.old.spare }
{
    Piece::push_all(out, &[Piece::Text(" mask 0x"), Piece::Hexadecimal(mask)]);
}

/// The bytes that a reply shows: zeros where its code isn't 0.
fn shown(reply: &Reply) -> &[u8]
    requires { reply.now.size ≤ 64 }
    ensures { result.now ≡ shown_bytes reply.now }
{
    let bytes = if reply.code == 0 {
        &reply.bytes
    } else {
        &ZEROS
    };
    let (shown, _) = bytes.split_at(usize::from(reply.size));
    shown
}

/// A want that was served: when, for which port, and when it arose.
#[derive(Clone, Copy)]
struct Served {
    tick: u64,
    port: u32,
    due: u64,
}

impl Served {
    ghost use Rattle.std.specs.Prelude.{◌≡◌, ◌+◌, ◌≤◌, ◌++◌, length};
    ghost use Rattle.cosim_model.specs.declared.values.Want.TheVariants.{Fetch, Store, Line};
    ghost use Rattle.transcript.specs.CallLines.{due_text, want_line, IsShort};

    /// Appends when the want arose, and what stands before its bytes.
    fn push_due(self, out: &mut Octets)
        requires { 28 ≤ out.old.spare }
        ensures bytes { out.new.bytes ≡ out.old.bytes ++ due_text self.due }
        ensures spare { out.old.spare ≤ out.new.spare + 28 }
        ensures room { length out.new.bytes + out.new.spare ≡ length out.old.bytes + out.old.spare }
    {
        Piece::push_all(
            out,
            &[
                Piece::Text(" due "),
                Piece::Decimal(self.due),
                Piece::Text(" = "),
            ],
        );
    }

    /// Appends the line of a fetch.
    fn push_fetch(self, out: &mut Octets, addr: u64, size: u8, reply: &Reply)
        requires few { reply.now.size ≤ 64 }
        requires room { SERVED_ROOM ≤ out.old.spare }
        ensures bytes { out.new.bytes ≡ out.old.bytes ++ want_line self.tick self.port self.due (Fetch addr size) reply.now }
        ensures spare { out.old.spare ≤ out.new.spare + SERVED_ROOM }
        ensures room { length out.new.bytes + out.new.spare ≡ length out.old.bytes + out.old.spare }
    {
        push_place(out, self.tick, self.port, "fetch", addr, size);
        self.push_due(out);
        push_bytes(out, shown(reply));
        push_code(out, reply.code);
    }

    /// Appends the line of a store.
    fn push_store(
        self,
        out: &mut Octets,
        addr: u64,
        size: u8,
        bytes: &[u8; 64],
        mask: u64,
        reply: &Reply,
    )
        requires few { size ≤ 64 }
        requires room { SERVED_ROOM ≤ out.old.spare }
        ensures bytes { out.new.bytes ≡ out.old.bytes ++ want_line self.tick self.port self.due (Store addr size bytes.now mask) reply.now }
        ensures spare { out.old.spare ≤ out.new.spare + SERVED_ROOM }
        ensures room { length out.new.bytes + out.new.spare ≡ length out.old.bytes + out.old.spare }
    {
        let (stored, _) = bytes.split_at(usize::from(size));
        push_place(out, self.tick, self.port, "store", addr, size);
        self.push_due(out);
        push_bytes(out, stored);
        push_mask(out, mask);
        push_code(out, reply.code);
    }

    /// Appends the line of a level.
    fn push_line(self, out: &mut Octets, line: u32, level: bool, reply: &Reply)
        requires { SERVED_ROOM ≤ out.old.spare }
        ensures bytes { out.new.bytes ≡ out.old.bytes ++ want_line self.tick self.port self.due (Line line level) reply.now }
        ensures spare { out.old.spare ≤ out.new.spare + SERVED_ROOM }
        ensures room { length out.new.bytes + out.new.spare ≡ length out.old.bytes + out.old.spare }
    {
        Piece::push_all(
            out,
            &[
                Piece::Text("@"),
                Piece::Decimal(self.tick),
                Piece::Text(" p"),
                Piece::Decimal(u64::from(self.port)),
                Piece::Text(" line "),
                Piece::Decimal(u64::from(line)),
                Piece::Text(" = "),
                Piece::Decimal(u64::from(level)),
                Piece::Text(" due "),
                Piece::Decimal(self.due),
                Piece::Text("\n"),
            ],
        );
    }

    /// Appends the line of the want and its reply.
    fn push(self, out: &mut Octets, want: &Want, reply: &Reply)
        requires few { IsShort want.now × (reply.now.size ≤ 64) }
        requires room { SERVED_ROOM ≤ out.old.spare }
        ensures bytes { out.new.bytes ≡ out.old.bytes ++ want_line self.tick self.port self.due want.now reply.now }
        ensures spare { out.old.spare ≤ out.new.spare + SERVED_ROOM }
        ensures room { length out.new.bytes + out.new.spare ≡ length out.old.bytes + out.old.spare }
    {
        match want {
            Want::Fetch { addr, size } => self.push_fetch(out, *addr, *size, reply),
            Want::Store {
                addr,
                size,
                bytes,
                mask,
            } => self.push_store(out, *addr, *size, bytes, *mask, reply),
            Want::Line { line, level } => self.push_line(out, *line, *level, reply),
        }
    }
}

/// What a call's line has at most, in bytes.
pub fn room_of(call: &Call) -> usize
    ensures { result ≡ call_room call.now }
{
    match call {
        Call::Access { .. } => ACCESS_ROOM,
        Call::Served { .. } => SERVED_ROOM,
    }
}

/// Appends the line of a call, in the room that there is.
pub fn push_call(out: &mut Octets, call: &Call)
    requires line { HasLine call.now }
    requires room { call_room call.now ≤ out.old.spare }
    ensures bytes { out.new.bytes ≡ out.old.bytes ++ call_text call.now }
    ensures spare { out.old.spare ≤ out.new.spare + call_room call.now }
    ensures room { length out.new.bytes + out.new.spare ≡ length out.old.bytes + out.old.spare }
{
    match call {
        Call::Access {
            tick,
            port,
            access,
            answer,
        } => push_access(out, *tick, *port, access, answer),
        Call::Served {
            tick,
            port,
            due,
            want,
            reply,
        } => {
            let served = Served {
                tick: *tick,
                port: *port,
                due: *due,
            };
            served.push(out, want, reply);
        }
    }
}

/// Appends the line of a call. `NoMemory` leaves `out` as it was.
pub fn call_line(call: &Call, out: &mut Octets) -> Result<(), NoMemory>
    requires { HasLine call.now }
    ensures ok { OnOk result (out.new.bytes ≡ out.old.bytes ++ call_text call.now) }
    ensures err { OnErr result (out.new ≡ out.old) }
{
    out.reserve(room_of(call))?;
    push_call(out, call);
    Ok(())
}
