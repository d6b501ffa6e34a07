ghost use Rattle.std.specs.Prelude.{◌≡◌, ◌↔◌, ℕ, ◌<◌, ◌≤◌, None, Some, IsTrue, IfOk, IfErr, OnOk, MatchResult};
ghost use Rattle.rp_busaccess.specs.Refusals.{bus_refusal, IsRefusal};
ghost use Rattle.rp_busaccess.specs.Buses.{IsBus};
ghost use Rattle.rp_busaccess.specs.Writing.{IsTightBus};

use crate::fault::BusFault;
use crate::layout::{is_extended, is_tight, master_of, parts_of};
use cos_base::{NoMemory, Octets};
use rp_header::{u32_at, u64_at};
use std::alloc::Global;

/// The body of a read or a write.
#[derive(Drop)]
pub struct BusAccess {
    /// In ticks.
    pub time: u64,
    /// Bit 0 end of packet, 1 secure, 2 extended layout, 8 to 11 the response code; the others are carried.
    pub attributes: u64,
    pub addr: u64,
    /// The number of bytes that are read or written.
    pub len: u32,
    pub width: u32,
    pub stream_width: u32,
    /// The number of the master. The old layout has 16 bits for it.
    pub master: u64,
    /// The data; empty where the packet carries none.
    pub payload: Octets,
    /// The enables: data byte i is enabled where there are none, or enable byte i modulo their number isn't 0.
    pub enables: Octets,
}

impl BusAccess {
    ghost use Rattle.std.specs.Prelude.{List, length, OnErr, IsOk, ◌++◌, ◌-◌, true};
    ghost use Rattle.cosim_model.specs.Values.{bit};
    ghost use Rattle.cosim_model.specs.Packets.{BusFields, code_of, is_enabled, is_extended as has_extended, with_code as recoded};
    ghost use Rattle.rp_busaccess.specs.Bits.{fields_of};
    ghost use Rattle.rp_busaccess.specs.declared.fault.BusFault.TheVariants.{NoMemory as WantOfMemory};

    /// Whether a body is the canonical one of what it means, or why [`BusAccess::read`] refuses it. It takes no memory.
    pub fn is_canonical(body: &[u8], carries: bool) -> Result<bool, BusFault>
        ensures lawful { OnOk result (bus_refusal carries body.now ≡ None) }
        ensures refused { IfErr result (λ f. bus_refusal carries body.now ≡ Some f) }
        ensures exact { (f : BusFields) → IsBus carries f body.now → IfOk result (λ canonical. IsTrue canonical ↔ IsTightBus (has_extended f) f body.now) }
    {
        match parts_of(body, carries) {
            Ok(_) => Ok(is_tight(body, carries)),
            Err(fault) => Err(fault),
        }
    }

    /// Reads a body; `carries` says whether the packet carries data. Each data byte is copied once.
    pub fn read(alloc: Global, body: &[u8], carries: bool) -> Result<BusAccess, BusFault>
        ensures ok { IfOk result (λ b. IsBus carries (fields_of b) body.now) }
        ensures refused { IfErr result (λ f. IsRefusal f (bus_refusal carries body.now)) }
        ensures exact { (f : BusFields) → IsBus carries f body.now → MatchResult result (λ b. fields_of b ≡ f) (λ e. e ≡ WantOfMemory) }
    {
        match parts_of(body, carries) {
            Ok(parts) => Ok(BusAccess {
                time: u64_at(body, 0),
                attributes: u64_at(body, 8),
                addr: u64_at(body, 16),
                len: u32_at(body, 24),
                width: u32_at(body, 28),
                stream_width: u32_at(body, 32),
                master: master_of(body),
                payload: copy_of(alloc, parts.payload)?,
                enables: copy_of(alloc, parts.enables)?,
            }),
            Err(fault) => Err(fault),
        }
    }

    /// Whether the layout is the extended one. It takes no memory.
    pub fn extended(&self) -> bool
        ensures { result ≡ bit self.now.attributes 2 }
    {
        is_extended(self.attributes)
    }

    /// The response code: 0 is OK, 1 a generic error, 2 an address error. It takes no memory.
    pub fn code(&self) -> u8
        ensures value { result ≡ code_of (fields_of self.now) }
        ensures small { result < 16 }
    {
        (self.attributes / 256 % 16) as u8
    }

    /// The same with another response code. It takes no memory.
    #[tactic(auto, using(crate::specs::Bits::code_with_code))]
    pub fn with_code(mut self, code: u8) -> BusAccess
        requires { code < 16 }
        ensures same { result ≡ record self { attributes = recoded self.attributes code } }
        ensures code { code_of (fields_of result) ≡ code }
    {
        let attributes = self.attributes;
        self.attributes = attributes - 256 * (attributes / 256 % 16) + 256 * u64::from(code);
        self
    }

    /// Whether data byte `i` is enabled. A disabled byte isn't written, and reads as 0. It takes no memory.
    pub fn enabled(&self, i: u32) -> bool
        ensures { result ≡ is_enabled self.now.enables.bytes i }
    {
        is_byte_enabled(self.enables.as_slice(), i)
    }
}

ghost use Rattle.cosim_model.specs.Packets.{is_enabled};

fn is_byte_enabled(enables: &[u8], i: u32) -> bool
    ensures { result ≡ is_enabled enables.now i }
{
    enables.is_empty() || enables[i as usize % enables.len()] != 0
}

fn copy_of(alloc: Global, bytes: &[u8]) -> Result<Octets, NoMemory>
    ensures { IfOk result (λ o. o.bytes ≡ bytes.now) }
{
    let mut octets = Octets::make(alloc);
    octets.push_all(bytes)?;
    Ok(octets)
}
