// Listening, starting and accepting.
ghost use Rattle.std.specs.Prelude.{◌≡◌, ◌+◌, ◌≤◌, [], ◌∷◌, ◌++◌, All, IfOk, IfSome, length, map, string_bytes};
ghost use Rattle.std.specs.Prelude.{vec_len, vec_capacity};
ghost use Rattle.cos_base.specs.Links.{IsFresh};
ghost use Rattle.outcomes.specs.Seen.{seen};
ghost use Rattle.port_children.specs.Peers.{sockets_of};
ghost use Rattle.port_children.specs.Opened.{Opens, OpensSoundly};
ghost use Rattle.port_children.specs.Steps.{Accepts, AcceptsSoundly, Listens, NotNet, NotSpawner, StartsOne};

use crate::fault::OpenFault;
use crate::words::{text_of, words_of};
use cos_base::{NetFault, Network, Numbers};
use cos_children::{SpawnFault, Spawner};
use cos_config::PortConfig;
use std::alloc::Global;

/// Appends one item, in the room that there is. It takes no memory.
fn push_spare<T: Drop>(list: &mut Vec<T>, item: T)
    requires { vec_len list.old + 1 ≤ vec_capacity list.old }
    ensures { list.new.items ≡ list.old.items ++ item ∷ [] }
{
    match list.push(item) {
        Ok(()) => {}
        Err(_) => unreachable!(),
    }
}

/// Listens under a name, and gives the listener's number.
fn listen<N: Network>(name: &str, net: &mut N) -> Result<u32, OpenFault>
    ensures listens { Listens (name.now ∷ []) (seen N.count N.told net.old net.new) result }
    ensures is_sound { N.sound net.old → N.sound net.new × NotNet result }
{
    match net.listen(name) {
        Ok(listener) => Ok(listener),
        Err(NetFault::Failed) => Err(OpenFault::Net {
            count: net.faults(),
        }),
        Err(NetFault::NoMemory) => Err(OpenFault::NoMemory),
    }
}

/// Listens under the socket of each port, and gives the listeners' numbers, by port.
fn listen_all<N: Network>(
    alloc: Global,
    ports: &[PortConfig],
    net: &mut N,
) -> Result<Numbers, OpenFault>
    ensures listens { Listens (sockets_of ports.now) (seen N.count N.told net.old net.new) result }
    ensures each { IfOk result (λ listeners. length listeners ≡ length ports.now) }
    ensures is_sound { N.sound net.old → N.sound net.new × NotNet result }
{
    let mut listeners = Numbers::make(alloc);
    'ports: for port in ports {
        let listener = listen(text_of(&port.socket), net)?;
        listeners.push(listener)?;
    }
    Ok(listeners)
}

/// Starts a child, once there is room for its number.
fn start<S: Spawner>(
    words: &[String],
    numbers: &mut Vec<u32>,
    children: &mut S,
) -> Result<(), OpenFault>
    ensures starts { StartsOne (map string_bytes words.now) (seen S.count S.told children.old children.new)
        numbers.old.items numbers.new.items result }
    ensures is_sound { S.sound children.old → S.sound children.new × NotSpawner result }
{
    numbers.reserve(1)?;
    match children.start(words) {
        Ok(number) => push_spare(numbers, number),
        Err(SpawnFault::Failed) => {
            return Err(OpenFault::Spawner {
                count: children.faults(),
            });
        }
        Err(SpawnFault::NoMemory) => return Err(OpenFault::NoMemory),
    }
    Ok(())
}

/// Takes the link of a listener, in the room that there is.
fn accept<N: Network>(listener: u32, links: &mut Vec<N::Link>, net: &mut N) -> Result<(), OpenFault>
    requires { vec_len links.old + 1 ≤ vec_capacity links.old }
    ensures accepts { Accepts (seen N.count N.told net.old net.new) links.old.items links.new.items result }
    ensures fresh { All (λ l. IfSome (N.Link.told l) IsFresh) links.old.items
        → All (λ l. IfSome (N.Link.told l) IsFresh) links.new.items }
    ensures is_sound { N.sound net.old → N.sound net.new
        × (All N.Link.sound links.old.items → All N.Link.sound links.new.items) × AcceptsSoundly (N.told net.old) result }
{
    match net.accept(listener) {
        Ok(link) => push_spare(links, link),
        Err(NetFault::Failed) => {
            return Err(OpenFault::Net {
                count: net.faults(),
            });
        }
        Err(NetFault::NoMemory) => return Err(OpenFault::NoMemory),
    }
    Ok(())
}

/// Listens under the socket of each port, and then, port by port, starts the port's child and takes its connection. It
/// may wait for a child to connect. The links and the children's numbers are put behind those that are there, which are
/// none, by port; after a fault they are those that were had until then, and the children run.
///
/// A child is started as `PROGRAM device SOCKET CONFIG PORT`. Room for its number and its link is made before.
pub fn open_links<N: Network, S: Spawner>(
    alloc: Global,
    ports: &[PortConfig],
    program: &str,
    config: &str,
    links: &mut Vec<N::Link>,
    numbers: &mut Vec<u32>,
    net: &mut N,
    children: &mut S,
) -> Result<(), OpenFault>
    requires few { length ports.now ≤ 16 }
    requires no_links { links.old.items ≡ [] }
    requires no_numbers { numbers.old.items ≡ [] }
    ensures opens { Opens program.now config.now (sockets_of ports.now) (seen N.count N.told net.old net.new)
        (seen S.count S.told children.old children.new) links.new.items numbers.new.items result }
    ensures fresh { All (λ l. IfSome (N.Link.told l) IsFresh) links.new.items }
    ensures sound_net { N.sound net.old → N.sound net.new × All N.Link.sound links.new.items }
    ensures sound_children { S.sound children.old → S.sound children.new }
    ensures soundly { N.sound net.old → S.sound children.old → OpensSoundly (sockets_of ports.now) (N.told net.old) result }
{
    let listeners = listen_all(alloc, ports, net)?;
    let listeners = listeners.as_slice();
    'ports: for (index, port) in ports.iter().enumerate() {
        let socket = text_of(&port.socket);
        let words = words_of(alloc, program, config, socket, index as u32)?;
        links.reserve(1)?;
        start(words.as_slice(), numbers, children)?;
        accept(listeners[index], links, net)?;
    }
    Ok(())
}
