ghost use Rattle.std.specs.Prelude.{◌^◌, ◌<◌};
ghost use Rattle.rp_control.specs.Controls.{AreWords};
ghost use Rattle.rp_busaccess.specs.Bits.{fields_of};
ghost use Rattle.rp_packet.specs.Values.{value_of};
ghost use Rattle.rp_packet.specs.Spelling.{BusFits, Fits};

use crate::packet::{Packet, Tag};
use rp_busaccess::BusAccess;
use rp_control::{Cfg, Hello, Interrupt, Sync};

/// The numbers of each packet in memory fit their fields: they are Rust's integers of these sizes. So what is written for a
/// packet is canonical.
pub fn numbers_fit(packet: &Packet)
    ensures { Fits (value_of packet.now) }
{
    match packet {
        Packet::Nop(tag) => tag_fits(*tag),
        Packet::Hello(tag, hello) => {
            tag_fits(*tag);
            hello_fits(hello);
        }
        Packet::Cfg(tag, cfg) => {
            tag_fits(*tag);
            cfg_fits(*cfg);
        }
        Packet::Read(tag, access) | Packet::Write(tag, access) => {
            tag_fits(*tag);
            access_fits(access);
        }
        Packet::Interrupt(tag, interrupt) => {
            tag_fits(*tag);
            interrupt_fits(*interrupt);
        }
        Packet::Sync(tag, sync) => {
            tag_fits(*tag);
            sync_fits(*sync);
        }
    }
}

fn tag_fits(tag: Tag)
    ensures { (tag.id < 2 ^ 32) × (tag.flags < 2 ^ 32) × (tag.dev < 2 ^ 32) }
{}

fn cfg_fits(cfg: Cfg)
    ensures { (cfg.opt < 2 ^ 32) × (cfg.set < 2 ^ 8) }
{}

fn interrupt_fits(interrupt: Interrupt)
    ensures { (interrupt.time < 2 ^ 64) × (interrupt.vector < 2 ^ 64) × (interrupt.line < 2 ^ 32) × (interrupt.val < 2 ^ 8) }
{}

fn sync_fits(sync: Sync)
    ensures { sync.time < 2 ^ 64 }
{}

fn hello_fits(hello: &Hello)
    ensures { (hello.now.major < 2 ^ 16) × (hello.now.minor < 2 ^ 16) × AreWords hello.now.caps }
{
    version_fits(hello.major, hello.minor);
    words_fit(hello.caps.as_slice());
}

fn version_fits(major: u16, minor: u16)
    ensures { (major < 2 ^ 16) × (minor < 2 ^ 16) }
{}

fn words_fit(numbers: &[u32])
    ensures { AreWords numbers.now }
{}

fn access_fits(access: &BusAccess)
    ensures { BusFits (fields_of access.now) }
{
    longs_fit(access.time, access.attributes, access.addr, access.master);
    sizes_fit(access.len, access.width, access.stream_width);
}

fn longs_fit(time: u64, attributes: u64, addr: u64, master: u64)
    ensures { (time < 2 ^ 64) × (attributes < 2 ^ 64) × (addr < 2 ^ 64) × (master < 2 ^ 64) }
{}

fn sizes_fit(len: u32, width: u32, stream_width: u32)
    ensures { (len < 2 ^ 32) × (width < 2 ^ 32) × (stream_width < 2 ^ 32) }
{}
