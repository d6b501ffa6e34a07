// The words that start the child of a port.
ghost use Rattle.std.specs.Prelude.{◌≡◌, IfOk, map, string_bytes};
ghost use Rattle.port_children.specs.Peers.{child_words, name_of};

use cos_base::NoMemory;
use cos_config::Name;
use itoa::Buffer;
use std::alloc::Global;

/// The text of a name that may be there; none's is empty.
pub fn text_of(name: &Option<Name>) -> &str
    ensures { result.now ≡ name_of name.now }
{
    match name {
        Some(name) => name.as_str(),
        None => "",
    }
}

/// The words that start the child of a port.
pub fn words_of(
    alloc: Global,
    program: &str,
    config: &str,
    socket: &str,
    port: u32,
) -> Result<Vec<String>, NoMemory>
    ensures { IfOk result (λ words. map string_bytes words.items
        ≡ child_words program.now config.now socket.now port) }
{
    let mut number = Buffer::new();
    let mut words = Vec::new(alloc);
    words.push(String::from_str(alloc, program)?)?;
    words.push(String::from_str(alloc, "device")?)?;
    words.push(String::from_str(alloc, socket)?)?;
    words.push(String::from_str(alloc, config)?)?;
    words.push(String::from_str(alloc, number.format(port))?)?;
    Ok(words)
}
