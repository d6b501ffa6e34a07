// The text of a run, put to a sink in pieces. It takes no memory.
ghost use Rattle.std.specs.Prelude.{◌≡◌, ◌+◌, ◌≤◌, ◌++◌, [], length, All, OnOk, OnErr};
ghost use Rattle.std.specs.List.{flat_map};
ghost use Rattle.hex.specs.Hex.{encode_lower};
ghost use Rattle.cos_base.specs.Counts.{Counts};
ghost use Rattle.cos_base.specs.Sinks.{Puts, PutsSoundly};
ghost use Rattle.transcript.specs.Moves.{IsPiece, Moved};
ghost use Rattle.transcript.specs.CallLines.{call_text, HasLine};
ghost use Rattle.transcript.specs.ClosingLines.{out_line, closing_text, run_text};

use crate::call_lines::{push_call, room_of};
use crate::closing::{HEAD_ROOM, push_head, push_out_head};
use crate::ending::{Ending, Out};
use cos_api::{Call, Calls};
use cos_base::{Failed, Octets, Sink};
use cos_text::push_bytes;

/// What a piece has at most, in bytes. A put may be a call of the system, so pieces are filled up.
const PIECE: usize = 512;

/// Puts the piece, and empties it.
fn put_piece<K: Sink>(piece: &mut Octets, out: &mut K) -> Result<(), Failed>
    requires { IsPiece piece.old }
    ensures counts { Counts (K.count out.old) (K.count out.new) result }
    ensures tells { Puts (K.told out.old) (K.told out.new) piece.old.bytes result }
    ensures is_sound { K.sound out.old → K.sound out.new
        × PutsSoundly (K.told out.old) (K.told out.new) (K.room out.old) (K.room out.new) piece.old.bytes result }
    ensures piece { IsPiece piece.new }
    ensures empty { piece.new.bytes ≡ [] }
{
    let put = out.put(piece.as_slice());
    piece.clear();
    put
}

/// Sees to it that so many bytes more fit into the piece.
fn make_room<K: Sink>(need: usize, piece: &mut Octets, out: &mut K) -> Result<(), Failed>
    requires need { need ≤ PIECE }
    requires piece { IsPiece piece.old }
    ensures moved { Moved K.told K.count K.room K.sound out.old out.new piece.old.bytes piece.new.bytes [] result }
    ensures piece { IsPiece piece.new }
    ensures room { OnOk result (length piece.new.bytes + need ≤ PIECE) }
    ensures empty { OnErr result (piece.new.bytes ≡ []) }
{
    if piece.len() + need <= PIECE {
        return Ok(());
    }
    put_piece(piece, out)
}

/// Writes the lines of calls.
fn write_calls<K: Sink>(calls: &[Call], piece: &mut Octets, out: &mut K) -> Result<(), Failed>
    requires lines { All HasLine calls.now }
    requires piece { IsPiece piece.old }
    ensures moved { Moved K.told K.count K.room K.sound out.old out.new piece.old.bytes piece.new.bytes (flat_map call_text calls.now) result }
    ensures piece { IsPiece piece.new }
    ensures empty { OnErr result (piece.new.bytes ≡ []) }
{
    for call in calls {
        make_room(room_of(call), piece, out)?;
        push_call(piece, call);
    }
    Ok(())
}

/// Writes bytes, in two hexadecimal digits each.
fn write_bytes<K: Sink>(bytes: &[u8], piece: &mut Octets, out: &mut K) -> Result<(), Failed>
    requires { IsPiece piece.old }
    ensures moved { Moved K.told K.count K.room K.sound out.old out.new piece.old.bytes piece.new.bytes (encode_lower bytes.now) result }
    ensures piece { IsPiece piece.new }
    ensures empty { OnErr result (piece.new.bytes ≡ []) }
{
    let mut rest = bytes;
    'chunks: while rest.len() > 0 {
        let (front, back) = rest.split_at(rest.len().min(64));
        make_room(128, piece, out)?;
        push_bytes(piece, front);
        rest = back;
    }
    Ok(())
}

/// Writes what a UART sent.
fn write_out<K: Sink>(uart: &Out, piece: &mut Octets, out: &mut K) -> Result<(), Failed>
    requires { IsPiece piece.old }
    ensures moved { Moved K.told K.count K.room K.sound out.old out.new piece.old.bytes piece.new.bytes (out_line uart.now) result }
    ensures piece { IsPiece piece.new }
    ensures empty { OnErr result (piece.new.bytes ≡ []) }
{
    make_room(28, piece, out)?;
    push_out_head(piece, uart);
    write_bytes(uart.bytes.as_slice(), piece, out)?;
    make_room(1, piece, out)?;
    piece.push_spare(b"\n");
    Ok(())
}

/// Writes what the UARTs sent.
fn write_outs<K: Sink>(uarts: &[Out], piece: &mut Octets, out: &mut K) -> Result<(), Failed>
    requires { IsPiece piece.old }
    ensures moved { Moved K.told K.count K.room K.sound out.old out.new piece.old.bytes piece.new.bytes (flat_map out_line uarts.now) result }
    ensures piece { IsPiece piece.new }
    ensures empty { OnErr result (piece.new.bytes ≡ []) }
{
    for uart in uarts {
        write_out(uart, piece, out)?;
    }
    Ok(())
}

/// Writes the closing lines.
fn write_closing<K: Sink>(end: &Ending, piece: &mut Octets, out: &mut K) -> Result<(), Failed>
    requires { IsPiece piece.old }
    ensures moved { Moved K.told K.count K.room K.sound out.old out.new piece.old.bytes piece.new.bytes (closing_text end.now) result }
    ensures piece { IsPiece piece.new }
    ensures empty { OnErr result (piece.new.bytes ≡ []) }
{
    make_room(HEAD_ROOM, piece, out)?;
    push_head(piece, end);
    write_outs(end.outs.as_slice(), piece, out)
}

/// Puts the lines of calls, and then the closing lines, in pieces of at most 512 bytes. It takes no memory.
///
/// `piece` is what they are made in: it is empty, before and after. After `Failed` a beginning of the text was put.
pub fn put_lines<K: Sink>(
    calls: &Calls,
    end: &Ending,
    piece: &mut Octets,
    out: &mut K,
) -> Result<(), Failed>
    requires lines { All HasLine calls.now.calls }
    requires empty { piece.old.bytes ≡ [] }
    requires room { 512 ≤ piece.old.spare }
    // Failed only where the sink's count rose.
    ensures counts { Counts (K.count out.old) (K.count out.new) result }
    // All of the text was put, or after a failure a beginning of it.
    ensures tells { Puts (K.told out.old) (K.told out.new) (run_text calls.now.calls end.now) result }
    // Over a sound sink it fails exactly where the text is longer than the sink's room.
    ensures is_sound { K.sound out.old → K.sound out.new
        × PutsSoundly (K.told out.old) (K.told out.new) (K.room out.old) (K.room out.new) (run_text calls.now.calls end.now) result }
    ensures piece { piece.new.bytes ≡ [] }
    ensures still { 512 ≤ piece.new.spare }
{
    write_calls(calls.as_slice(), piece, out)?;
    write_closing(end, piece, out)?;
    put_piece(piece, out)
}
