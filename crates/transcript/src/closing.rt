// The closing lines.
ghost use Rattle.std.specs.Prelude.{◌≡◌, ◌+◌, ◌*◌, ◌≤◌, ◌++◌, length, sum_by, Some, Option, IfSome, OnOk, OnErr};
ghost use Rattle.std.specs.List.{flat_map};
ghost use Rattle.transcript.specs.ClosingLines.{stop_line, register_text, hart_lines, state_lines, head_text, uart_head, out_line, out_room, closing_text};

use crate::ending::{Ending, Out};
use crate::pieces::Piece;
use cos_base::{NoMemory, Octets};
use cos_text::push_bytes;
use cosim_model::HartView;

/// What the closing lines have at most before those of UARTs, in bytes.
pub const HEAD_ROOM: usize = 500;

/// What the line of a UART has at most beside its bytes.
pub const LINE_ROOM: usize = 30;

/// Appends how the machine stopped.
fn push_stop(out: &mut Octets, stop: Option<u32>, ticks: u64)
    requires { 80 ≤ out.old.spare }
    ensures bytes { out.new.bytes ≡ out.old.bytes ++ stop_line stop ticks }
    ensures spare { out.old.spare ≤ out.new.spare + 80 }
    ensures room { length out.new.bytes + out.new.spare ≡ length out.old.bytes + out.old.spare }
{
    match stop {
        Some(code) => Piece::push_all(
            out,
            &[
                Piece::Text("stop halted "),
                Piece::Decimal(u64::from(code)),
                Piece::Text(" at "),
                Piece::Decimal(ticks),
                Piece::Text("\n"),
            ],
        ),
        None => Piece::push_all(
            out,
            &[
                Piece::Text("stop budget at "),
                Piece::Decimal(ticks),
                Piece::Text("\n"),
            ],
        ),
    }
}

/// Appends registers, each behind a blank.
fn push_registers(out: &mut Octets, registers: &[u32])
    requires { 9 * length registers.now ≤ out.old.spare }
    ensures bytes { out.new.bytes ≡ out.old.bytes ++ flat_map register_text registers.now }
    ensures spare { out.old.spare ≤ out.new.spare + 9 * length registers.now }
    ensures room { length out.new.bytes + out.new.spare ≡ length out.old.bytes + out.old.spare }
{
    for register in registers {
        Piece::push_all(out, &[Piece::Text(" "), Piece::Word(*register)]);
    }
}

/// Appends a hart's pc and registers.
fn push_hart(out: &mut Octets, hart: &HartView)
    requires { 310 ≤ out.old.spare }
    ensures bytes { out.new.bytes ≡ out.old.bytes ++ hart_lines (Some hart.now) }
    ensures spare { out.old.spare ≤ out.new.spare + 310 }
    ensures room { length out.new.bytes + out.new.spare ≡ length out.old.bytes + out.old.spare }
{
    let (_, registers) = hart.regs.split_at(1);
    Piece::push_all(
        out,
        &[
            Piece::Text("pc "),
            Piece::Word(hart.pc),
            Piece::Text("\nregs"),
        ],
    );
    push_registers(out, registers);
    out.push_spare(b"\n");
}

/// Appends the levels of the interrupt lines and the hash of RAM.
fn push_state(out: &mut Octets, lines: u32, ram: &[u8; 32])
    requires { 90 ≤ out.old.spare }
    ensures bytes { out.new.bytes ≡ out.old.bytes ++ state_lines lines ram.now }
    ensures spare { out.old.spare ≤ out.new.spare + 90 }
    ensures room { length out.new.bytes + out.new.spare ≡ length out.old.bytes + out.old.spare }
{
    Piece::push_all(
        out,
        &[
            Piece::Text("lines "),
            Piece::Word(lines),
            Piece::Text("\nram "),
            Piece::Bytes(ram),
            Piece::Text("\n"),
        ],
    );
}

/// Appends the closing lines before those of UARTs.
pub fn push_head(out: &mut Octets, end: &Ending)
    requires { HEAD_ROOM ≤ out.old.spare }
    ensures bytes { out.new.bytes ≡ out.old.bytes ++ head_text end.now }
    ensures spare { out.old.spare ≤ out.new.spare + HEAD_ROOM }
    ensures room { length out.new.bytes + out.new.spare ≡ length out.old.bytes + out.old.spare }
{
    push_stop(out, end.stop, end.ticks);
    if let Some(hart) = &end.closing.hart {
        push_hart(out, hart);
    }
    push_state(out, end.closing.lines, &end.ram);
}

/// Appends what stands before what a UART sent.
pub fn push_out_head(out: &mut Octets, uart: &Out)
    requires { 28 ≤ out.old.spare }
    ensures bytes { out.new.bytes ≡ out.old.bytes ++ uart_head uart.now.port uart.now.bytes.bytes }
    ensures spare { out.old.spare ≤ out.new.spare + 28 }
    ensures room { length out.new.bytes + out.new.spare ≡ length out.old.bytes + out.old.spare }
{
    Piece::push_all(
        out,
        &[Piece::Text("out p"), Piece::Decimal(u64::from(uart.port))],
    );
    match uart.bytes.as_slice() {
        [] => {}
        _ => out.push_spare(b" "),
    }
}

/// Appends what a UART sent.
fn push_out(out: &mut Octets, uart: &Out)
    requires { out_room uart.now ≤ out.old.spare }
    ensures bytes { out.new.bytes ≡ out.old.bytes ++ out_line uart.now }
    ensures spare { out.old.spare ≤ out.new.spare + out_room uart.now }
{
    push_out_head(out, uart);
    push_bytes(out, uart.bytes.as_slice());
    out.push_spare(b"\n");
}

/// Appends what the UARTs sent.
fn push_outs(out: &mut Octets, uarts: &[Out])
    requires { sum_by out_room uarts.now ≤ out.old.spare }
    ensures bytes { out.new.bytes ≡ out.old.bytes ++ flat_map out_line uarts.now }
{
    for uart in uarts {
        push_out(out, uart);
    }
}

/// What the closing lines have at most, in bytes, where a `usize` can tell.
fn room_of(uarts: &[Out]) -> Option<usize>
    ensures { IfSome result (λ n. n ≡ HEAD_ROOM + sum_by out_room uarts.now) }
{
    let mut room = HEAD_ROOM;
    for uart in uarts {
        let digits = uart.bytes.len().checked_mul(2)?;
        room = room.checked_add(digits)?.checked_add(LINE_ROOM)?;
    }
    Some(room)
}

/// Appends the closing lines. `NoMemory` leaves `out` as it was.
pub fn closing_lines(end: &Ending, out: &mut Octets) -> Result<(), NoMemory>
    ensures ok { OnOk result (out.new.bytes ≡ out.old.bytes ++ closing_text end.now) }
    ensures err { OnErr result (out.new ≡ out.old) }
{
    let uarts = end.outs.as_slice();
    match room_of(uarts) {
        Some(room) => out.reserve(room)?,
        None => return Err(NoMemory),
    }
    push_head(out, end);
    push_outs(out, uarts);
    Ok(())
}
