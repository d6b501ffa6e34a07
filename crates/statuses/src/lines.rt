// The line that tells a status, put from fixed pieces. It takes no memory.
ghost use Rattle.std.specs.Prelude.{◌≡◌, ◌∷◌, [], codes};
ghost use Rattle.std.specs.Fmt.{signed_decimal};
ghost use Rattle.std.specs.List.{concat};
ghost use Rattle.outcomes.specs.Seen.{seen};
ghost use Rattle.statuses.specs.Lines.{TellsStatus, texts, line_one, line_two, line_three, table_name as name_of_table, assembly_cause as name_of_cause, key_line, config_line, cause_text, malformed_text, input_line, session_text, end_text, peer_line, outside_line, child_line, line_of};
ghost use Rattle.statuses.specs.Takes.{PutsPieces, Takes, TakesAll};

use crate::status::{InputFault, Status};
use cos_base::{Failed, Sink};
use cos_config::{ConfigFault, TableName};
use cosim_model::{EndFault, SessionFault};
use itoa::Buffer;
use outcomes::Object;
use rp_packet::{Cause, PacketFault};
use rv_asm::Cause as AsmCause;

/// Puts pieces of text, one after another, as far as none fails.
fn put_pieces<E: Sink>(err: &mut E, pieces: &[&str]) -> Result<(), Failed>
    ensures { PutsPieces E.told E.count E.room E.sound err.old err.new (texts pieces.now) result }
{
    'pieces: for piece in pieces {
        match err.put(piece.as_bytes()) {
            Ok(()) => {}
            Err(Failed) => return Err(Failed),
        }
    }
    Ok(())
}

/// Puts the pieces of a line; whether they were put shows in the sink's count.
fn put_all<E: Sink>(err: &mut E, pieces: &[&str])
    ensures { Takes E.told E.count E.room E.sound err.old err.new (texts pieces.now) }
{
    let _put = put_pieces(err, pieces);
}

/// Puts a line that ends in a number.
fn put_one<E: Sink>(err: &mut E, front: &str, number: u64)
    ensures { Takes E.told E.count E.room E.sound err.old err.new (line_one front.now number) }
{
    let mut first = Buffer::new();
    put_all(err, &[front, first.format(number), "\n"]);
}

/// Puts a line that ends in two numbers.
fn put_two<E: Sink>(err: &mut E, front: &str, number: u64, other: u64)
    ensures { Takes E.told E.count E.room E.sound err.old err.new (line_two front.now number other) }
{
    let mut first = Buffer::new();
    let mut second = Buffer::new();
    put_all(
        err,
        &[front, first.format(number), " ", second.format(other), "\n"],
    );
}

/// Puts a line that ends in three numbers.
fn put_three<E: Sink>(err: &mut E, front: &str, number: u64, other: u64, last: u64)
    ensures { Takes E.told E.count E.room E.sound err.old err.new (line_three front.now number other last) }
{
    let mut first = Buffer::new();
    let mut second = Buffer::new();
    let mut third = Buffer::new();
    put_all(
        err,
        &[
            front,
            first.format(number),
            " ",
            second.format(other),
            " ",
            third.format(last),
            "\n",
        ],
    );
}

/// How a table of the configuration is called.
fn table_name(table: TableName, buffer: &mut Buffer) -> &str
    ensures { result.now ≡ name_of_table table }
{
    match table {
        TableName::Top => "top",
        TableName::Machine => "machine",
        TableName::Port(port) => buffer.format(port),
    }
}

/// Puts the line of a fault at a key of a table.
fn put_key<E: Sink>(err: &mut E, front: &str, table: TableName, key: &str)
    ensures { Takes E.told E.count E.room E.sound err.old err.new (key_line front.now table key.now) }
{
    let mut buffer = Buffer::new();
    let table = table_name(table, &mut buffer);
    put_all(err, &[front, table, " ", key, "\n"]);
}

/// Puts the line of a number that is out of range.
fn put_range<E: Sink>(err: &mut E, table: TableName, key: &str, value: &i64)
    ensures { Takes E.told E.count E.room E.sound err.old err.new (concat (codes "cosim: config: Range " ∷ name_of_table table ∷ codes " " ∷ key.now ∷ codes " " ∷ signed_decimal value.now ∷ codes "\n" ∷ [])) }
{
    let mut buffer = Buffer::new();
    let mut number = Buffer::new();
    let table = table_name(table, &mut buffer);
    let value = number.format(*value);
    put_all(
        err,
        &["cosim: config: Range ", table, " ", key, " ", value, "\n"],
    );
}

/// Puts the line of a configuration's fault.
fn put_config<E: Sink>(err: &mut E, fault: &ConfigFault)
    ensures { Takes E.told E.count E.room E.sound err.old err.new (config_line fault.now) }
{
    match fault {
        ConfigFault::Text => put_all(err, &["cosim: config: Text\n"]),
        ConfigFault::Unknown { table, key } => {
            put_key(err, "cosim: config: Unknown ", *table, key.as_str())
        }
        ConfigFault::Missing { table, key } => {
            put_key(err, "cosim: config: Missing ", *table, key.as_str())
        }
        ConfigFault::Kind { table, key } => {
            put_key(err, "cosim: config: Kind ", *table, key.as_str())
        }
        ConfigFault::TooMany { count } => put_one(err, "cosim: config: TooMany ", *count),
        ConfigFault::Word { table, key } => {
            put_key(err, "cosim: config: Word ", *table, key.as_str())
        }
        ConfigFault::Range { table, key, value } => put_range(err, *table, key.as_str(), value),
        ConfigFault::Overlap { a, b } => put_two(err, "cosim: config: Overlap ", *a, *b),
        ConfigFault::LineTwice { a, b } => put_two(err, "cosim: config: LineTwice ", *a, *b),
        ConfigFault::Needs { port, cap } => put_two(err, "cosim: config: Needs ", *port, *cap),
        ConfigFault::NoMemory => put_all(err, &["cosim: config: NoMemory\n"]),
    }
}

/// Puts the cause of a malformed packet, up to the end of its line.
fn put_cause<E: Sink>(err: &mut E, cause: Cause)
    ensures { Takes E.told E.count E.room E.sound err.old err.new (cause_text cause) }
{
    match cause {
        Cause::Command { number } => put_one(err, "Command ", number),
        Cause::Translation { number } => put_one(err, "Translation ", number),
        Cause::TooLong { len } => put_one(err, "TooLong ", len),
        Cause::Length { wanted, got } => put_two(err, "Length ", wanted, got),
        Cause::CapsRange { offset, count } => put_two(err, "CapsRange ", offset, count),
        Cause::DataRange { offset, len } => put_two(err, "DataRange ", offset, len),
        Cause::EnableRange { offset, len } => put_two(err, "EnableRange ", offset, len),
    }
}

/// Puts a malformed packet, up to the end of its line.
fn put_malformed<E: Sink>(err: &mut E, fault: PacketFault)
    ensures { Takes E.told E.count E.room E.sound err.old err.new (malformed_text fault) }
{
    let mut first = Buffer::new();
    let mut second = Buffer::new();
    let start = first.format(fault.start);
    let place = second.format(fault.place);
    match put_pieces(err, &["Malformed ", start, " ", place, " "]) {
        Ok(()) => put_cause(err, fault.cause),
        Err(Failed) => {}
    }
}

/// Puts the line of a file's malformed packet.
fn put_packet<E: Sink>(err: &mut E, fault: PacketFault)
    ensures { Takes E.told E.count E.room E.sound err.old err.new (input_line (InputFault.Malformed fault)) }
{
    match put_pieces(err, &["cosim: input: "]) {
        Ok(()) => put_malformed(err, fault),
        Err(Failed) => {}
    }
}

/// How a cause of the assembler is called.
fn assembly_cause(cause: AsmCause) -> &'static str
    ensures { result.now ≡ name_of_cause cause }
{
    match cause {
        AsmCause::Syntax => "Syntax",
        AsmCause::Name => "Name",
        AsmCause::Range => "Range",
        AsmCause::Twice => "Twice",
    }
}

/// Puts the line of a refused assembly.
fn put_assembly<E: Sink>(err: &mut E, line: u64, cause: AsmCause)
    ensures { Takes E.told E.count E.room E.sound err.old err.new (input_line (InputFault.Assembly line cause)) }
{
    let mut first = Buffer::new();
    let cause = assembly_cause(cause);
    put_all(
        err,
        &[
            "cosim: input: Assembly ",
            first.format(line),
            " ",
            cause,
            "\n",
        ],
    );
}

/// Puts the line of a refused file.
fn put_input<E: Sink>(err: &mut E, fault: InputFault)
    ensures { Takes E.told E.count E.room E.sound err.old err.new (input_line fault) }
{
    match fault {
        InputFault::ImageEmpty => put_all(err, &["cosim: input: ImageEmpty\n"]),
        InputFault::ImageTooLarge { size, got } => {
            put_two(err, "cosim: input: ImageTooLarge ", size, got)
        }
        InputFault::Line { line } => put_one(err, "cosim: input: Line ", line),
        InputFault::Assembly { line, cause } => put_assembly(err, line, cause),
        InputFault::UartInput { port, len } => {
            put_two(err, "cosim: input: UartInput ", port as u64, len)
        }
        InputFault::DiskImage { port, len } => {
            put_two(err, "cosim: input: DiskImage ", port as u64, len)
        }
        InputFault::Malformed(fault) => put_packet(err, fault),
        InputFault::Truncated { start, held } => {
            put_two(err, "cosim: input: Truncated ", start, held)
        }
        InputFault::Words { len } => put_one(err, "cosim: input: Words ", len),
    }
}

/// Puts a session's fault, up to the end of its line.
fn put_session<E: Sink>(err: &mut E, fault: SessionFault)
    ensures { Takes E.told E.count E.room E.sound err.old err.new (session_text fault) }
{
    match fault {
        SessionFault::Flood { count } => put_one(err, "Flood ", count),
        SessionFault::HelloMissing { cmd } => put_one(err, "HelloMissing ", cmd),
        SessionFault::HelloAgain => put_all(err, &["HelloAgain\n"]),
        SessionFault::Version { major } => put_one(err, "Version ", major),
        SessionFault::CapMissing { cap } => put_one(err, "CapMissing ", cap),
        SessionFault::Unsupported { cmd } => put_one(err, "Unsupported ", cmd),
        SessionFault::StrayAnswer { id, cmd } => put_two(err, "StrayAnswer ", id, cmd),
        SessionFault::WrongAnswer { id, wanted, got } => {
            put_three(err, "WrongAnswer ", id, wanted, got)
        }
        SessionFault::TimeBackwards { had, got } => put_two(err, "TimeBackwards ", had, got),
        SessionFault::EarlyPosted { id } => put_one(err, "EarlyPosted ", id),
        SessionFault::SecondRequest { id } => put_one(err, "SecondRequest ", id),
    }
}

/// Puts why an end stopped, up to the end of its line.
fn put_end<E: Sink>(err: &mut E, fault: EndFault<PacketFault>)
    ensures { Takes E.told E.count E.room E.sound err.old err.new (end_text fault) }
{
    match fault {
        EndFault::Malformed(fault) => put_malformed(err, fault),
        EndFault::Truncated { start, held } => put_two(err, "Truncated ", start, held),
        EndFault::Session(fault) => put_session(err, fault),
        EndFault::Ended { taken } => put_one(err, "Ended ", taken),
        EndFault::TooMuch { taken } => put_one(err, "TooMuch ", taken),
        EndFault::Link { count } => put_one(err, "Link ", count),
        EndFault::LateWant { at, got } => put_two(err, "LateWant ", at, got),
        EndFault::Astray { cmd } => put_one(err, "Astray ", cmd),
        EndFault::NoMemory => put_all(err, &["NoMemory\n"]),
    }
}

/// Puts the line of a peer's fault.
fn put_peer<E: Sink>(err: &mut E, port: u32, fault: EndFault<PacketFault>)
    ensures { Takes E.told E.count E.room E.sound err.old err.new (peer_line port fault) }
{
    let mut number = Buffer::new();
    match put_pieces(err, &["cosim: peer p", number.format(port), ": "]) {
        Ok(()) => put_end(err, fault),
        Err(Failed) => {}
    }
}

/// Puts the line of an object of the outside.
fn put_outside<E: Sink>(err: &mut E, object: Object, count: u64)
    ensures { Takes E.told E.count E.room E.sound err.old err.new (outside_line object count) }
{
    match object {
        Object::Files => put_one(err, "cosim: outside: files ", count),
        Object::Out => put_one(err, "cosim: outside: out ", count),
        Object::Net => put_one(err, "cosim: outside: net ", count),
        Object::Link { port } => put_two(err, "cosim: outside: link p", port as u64, count),
        Object::Spawner => put_one(err, "cosim: outside: spawner ", count),
    }
}

/// Puts the line of a child that ended with another status than 0.
fn put_child<E: Sink>(err: &mut E, port: u32, status: u8)
    ensures { Takes E.told E.count E.room E.sound err.old err.new (child_line port status) }
{
    let mut first = Buffer::new();
    let mut second = Buffer::new();
    put_all(
        err,
        &[
            "cosim: child p",
            first.format(port),
            " status ",
            second.format(status),
            "\n",
        ],
    );
}

/// Puts the line of a status, as far as the sink takes it; where all was done there is none.
pub fn tell_status<E: Sink>(err: &mut E, status: &Status)
    ensures line { TellsStatus (seen E.count E.told err.old err.new) status.now }
    ensures takes { TakesAll (E.sound err.old) (E.room err.old) (seen E.count E.told err.old err.new) (line_of status.now) }
{
    match status {
        Status::Done => {}
        Status::Usage { index } => put_one(err, "cosim: usage at word ", *index),
        Status::Config(fault) => put_config(err, fault),
        Status::Input(fault) => put_input(err, *fault),
        Status::Peer { port, fault } => put_peer(err, *port, *fault),
        Status::Outside { object, count } => put_outside(err, *object, *count),
        Status::NoMemory => put_all(err, &["cosim: no memory\n"]),
        Status::Child { port, status } => put_child(err, *port, *status),
    }
}
