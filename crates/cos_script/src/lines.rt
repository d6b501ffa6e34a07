// The lines of a script.
ghost use Rattle.std.specs.Prelude.{◌≡◌, ◌^◌, true, nat_lt, option_map, option_to_list};
ghost use Rattle.cos_script.specs.Steps.{is_size};
ghost use Rattle.cos_script.specs.Scripts as scripts;

use crate::ScriptFault;
use crate::step::ScriptStep;
use crate::words::{cut, four, one, three};
use cos_text::first_line;
use std::alloc::Global;

/// The most units that one line waits.
const MOST_UNITS: u64 = 1_000_000;

/// An access has 1, 2, 4 or 8 bytes.
fn has_size(size: u64) -> bool
    ensures { result ≡ is_size size }
{
    size == 1 || size == 2 || size == 4 || size == 8
}

/// A value has no bit past the size.
fn fits_size(value: u64, size: u64) -> bool
    requires { is_size size ≡ true }
    ensures { result ≡ nat_lt value (256 ^ size) }
{
    match size {
        1 => value < 0x100,
        2 => value < 0x1_0000,
        4 => value < 0x1_0000_0000,
        _ => true,
    }
}

fn read(text: &[u8], ports: u32) -> Option<ScriptStep>
    ensures { result ≡ scripts.read_step ports (scripts.numbers 3 (scripts.words text.now)) }
{
    let (port, addr, size) = three(text)?;
    if port < u64::from(ports) && has_size(size) {
        Some(ScriptStep::Read {
            port: port as u32,
            addr,
            size: size as u8,
        })
    } else {
        None
    }
}

fn write(text: &[u8], ports: u32, posted: bool) -> Option<ScriptStep>
    ensures { result ≡ scripts.write_step ports posted (scripts.numbers 4 (scripts.words text.now)) }
{
    let (port, addr, size, value) = four(text)?;
    if port < u64::from(ports) && has_size(size) && fits_size(value, size) {
        Some(ScriptStep::Write {
            port: port as u32,
            addr,
            size: size as u8,
            value,
            posted,
        })
    } else {
        None
    }
}

fn wait(text: &[u8]) -> Option<ScriptStep>
    ensures { result ≡ scripts.wait_step (scripts.numbers 1 (scripts.words text.now)) }
{
    let units = one(text)?;
    if 1 <= units && units <= MOST_UNITS {
        Some(ScriptStep::Wait {
            units: units as u32,
        })
    } else {
        None
    }
}

/// The step of a name with the words behind it.
fn named(name: &[u8], text: &[u8], ports: u32) -> Option<ScriptStep>
    ensures { result ≡ scripts.named_step ports name.now (scripts.words text.now) }
{
    if name == "read".as_bytes() {
        return read(text, ports);
    }
    if name == "write".as_bytes() {
        return write(text, ports, false);
    }
    if name == "post".as_bytes() {
        return write(text, ports, true);
    }
    if name == "wait".as_bytes() {
        return wait(text);
    }
    None
}

fn step(line: &[u8], ports: u32) -> Option<ScriptStep>
    ensures { result ≡ scripts.step_of ports (scripts.words line.now) }
{
    let (name, text) = cut(line, b' ');
    match text {
        Some(text) => named(name, text, ports),
        None => None,
    }
}

/// The step of a line, or nothing where the line is skipped.
fn line_step(line: &[u8], ports: u32) -> Option<Option<ScriptStep>>
    ensures { option_map option_to_list result ≡ scripts.line_steps ports line.now }
{
    match line {
        [] => Some(None),
        [b'#', ..] => Some(None),
        _ => match step(line, ports) {
            Some(step) => Some(Some(step)),
            None => None,
        },
    }
}

/// Adds the step of a line of that number.
fn add(steps: &mut Vec<ScriptStep>, line: &[u8], number: u64, ports: u32) -> Result<(), ScriptFault>
    ensures { scripts.Adds ports line.now number steps.old.items steps.new.items result }
{
    match line_step(line, ports) {
        None => Err(ScriptFault::Line { line: number }),
        Some(None) => Ok(()),
        Some(Some(step)) => match steps.push(step) {
            Ok(()) => Ok(()),
            Err(_) => Err(ScriptFault::NoMemory),
        },
    }
}

/// The steps of a text.
pub fn steps_of(alloc: Global, text: &[u8], ports: u32) -> Result<Vec<ScriptStep>, ScriptFault>
    ensures { scripts.ReadsInto ports text.now result }
{
    let mut steps = Vec::new(alloc);
    let mut rest = text;
    let mut passed = 0;
    'lines: while !rest.is_empty() {
        let (line, after) = first_line(rest);
        add(&mut steps, line, passed + 1, ports)?;
        rest = after;
        passed += 1;
    }
    Ok(steps)
}
