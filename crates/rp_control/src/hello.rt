ghost use Rattle.std.specs.Prelude.{◌≡◌, ◌↔◌, ℕ, List, IsTrue, MatchResult, ◌++◌, ◌+◌, ◌-◌, ◌*◌, ◌/◌, ◌≤◌, length, drop, Some, None, IfOk, IfErr, OnOk, OnErr, IsOk};
ghost use Rattle.rp_control.specs.Controls.{caps_bytes};
ghost use Rattle.rp_control.specs.Refusals.{hello_refusal, caps_part, numbers_in, IsRefusal, ReadsTight};

use crate::fault::BodyFault;
use byteorder::{BigEndian, ByteOrder};
use cos_base::{NoMemory, Numbers, Octets};
use rp_header::{u16_at, u32_at};
use std::alloc::Global;

/// The body of a hello, the first packet of each side.
#[derive(Drop)]
pub struct Hello {
    pub major: u16,
    pub minor: u16,
    /// The numbers of the capabilities that the sender offers: 1 extended base, 2 byte enables, 3 posted wire updates. Other
    /// numbers are kept, and mean nothing to the ends.
    pub caps: Numbers,
}

impl Hello {
    ghost use Rattle.rp_control.specs.Controls.{IsHello, IsTightHello, hello_bytes};
    ghost use Rattle.rp_control.specs.declared.fault.BodyFault.TheVariants.{NoMemory as WantOfMemory};

    /// Whether a body is the canonical one of what it means, or why [`Hello::read`] refuses it. It takes no memory.
    pub fn is_canonical(body: &[u8]) -> Result<bool, BodyFault>
        ensures lawful { OnOk result (hello_refusal body.now ≡ None) }
        ensures refused { IfErr result (λ f. hello_refusal body.now ≡ Some f) }
        ensures exact { (major minor : ℕ) (caps : List ℕ) → IsHello major minor caps body.now → IfOk result (λ canonical. IsTrue canonical ↔ IsTightHello caps body.now) }
    {
        match caps_slice(body) {
            Ok(_) => Ok(is_tight(body)),
            Err(fault) => Err(fault),
        }
    }

    /// Reads a body.
    pub fn read(alloc: Global, body: &[u8]) -> Result<Hello, BodyFault>
        ensures ok { IfOk result (λ h. IsHello h.major h.minor h.caps body.now) }
        ensures refused { IfErr result (λ f. IsRefusal f (hello_refusal body.now)) }
        ensures exact { (major minor : ℕ) (caps : List ℕ) → IsHello major minor caps body.now →
            MatchResult result (λ h. (h.major ≡ major) × (h.minor ≡ minor) × (h.caps ≡ caps)) (λ f. f ≡ WantOfMemory) }
    {
        match caps_slice(body) {
            Ok(bytes) => Ok(Hello {
                major: u16_at(body, 0),
                minor: u16_at(body, 2),
                caps: numbers_of(alloc, bytes)?,
            }),
            Err(fault) => Err(fault),
        }
    }

    /// Appends the body's canonical bytes. In the room that `out` has it takes no memory.
    pub fn write_into(&self, out: &mut Octets) -> Result<(), NoMemory>
        requires { length self.now.caps ≤ 16381 }
        ensures ok { OnOk result (out.new.bytes ≡ out.old.bytes ++ hello_bytes self.now.major self.now.minor self.now.caps) }
        ensures err { OnErr result (out.new ≡ out.old) }
        ensures fits { 12 + 4 * length self.now.caps ≤ out.old.spare →
            IsOk result × (out.new.spare ≡ out.old.spare - (12 + 4 * length self.now.caps)) }
    {
        let count = self.caps.len();
        out.reserve(12 + 4 * count)?;
        let mut fields = [0; 12];
        BigEndian::write_u16(&mut fields[0..], self.major);
        BigEndian::write_u16(&mut fields[2..], self.minor);
        BigEndian::write_u32(&mut fields[4..], 32);
        BigEndian::write_u16(&mut fields[8..], count as u16);
        out.push_spare(&fields);
        put_numbers(out, self.caps.as_slice());
        Ok(())
    }
}

/// Puts numbers of four bytes into the room that there is.
fn put_numbers(out: &mut Octets, numbers: &[u32])
    requires { 4 * length numbers.now ≤ out.old.spare }
    ensures bytes { out.new.bytes ≡ out.old.bytes ++ caps_bytes numbers.now }
    ensures spare { out.new.spare + 4 * length numbers.now ≡ out.old.spare }
{
    for number in numbers {
        let mut bytes = [0; 4];
        BigEndian::write_u32(&mut bytes, *number);
        out.push_spare(&bytes);
    }
}

/// The bytes of the capabilities of a hello.
fn caps_slice(body: &[u8]) -> Result<&[u8], BodyFault>
    ensures part { IfOk result (λ part. part.now ≡ caps_part body.now) }
    ensures long { OnOk result (4 ≤ length body.now) }
    ensures lawful { OnOk result (hello_refusal body.now ≡ None) }
    ensures refused { IfErr result (λ f. hello_refusal body.now ≡ Some f) }
{
    let size = body.len();
    if size < 4 {
        return Err(BodyFault::Length {
            wanted: 4,
            got: size as u64,
        });
    }
    if size < 12 {
        return Ok(body.split_at(0).0);
    }
    let offset = u32_at(body, 4) as usize;
    let count = usize::from(u16_at(body, 8));
    if count == 0 {
        return Ok(body.split_at(0).0);
    }
    if offset < 32 || offset + 4 * count > 20 + size {
        return Err(BodyFault::CapsRange {
            offset: offset as u64,
            count: count as u64,
        });
    }
    let (_, caps) = body.split_at(offset - 20);
    Ok(caps.split_at(4 * count).0)
}

/// Whether a body has the canonical fields, and the bytes of its capabilities behind them alone.
fn is_tight(body: &[u8]) -> bool
    ensures { IsTrue result ↔ ReadsTight body.now }
{
    body.len() >= 12
        && u32_at(body, 4) == 32
        && u16_at(body, 10) == 0
        && body.len() == 12 + 4 * usize::from(u16_at(body, 8))
}

/// The numbers of four bytes that stand one behind the other.
fn numbers_of(alloc: Global, bytes: &[u8]) -> Result<Numbers, NoMemory>
    ensures { IfOk result (λ ns. ns ≡ numbers_in (length bytes.now / 4) bytes.now) }
{
    let count = bytes.len() / 4;
    let mut numbers = Numbers::make(alloc);
    for i in 0..count {
        numbers.push(u32_at(bytes, 4 * i))?;
    }
    Ok(numbers)
}
