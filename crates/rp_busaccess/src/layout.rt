ghost use Rattle.std.specs.Prelude.{◌≡◌, ◌+◌, ◌≤◌, ◌*◌, [], Some, None, IfOk, IfErr, OnOk, MatchOption, IsTrue, ◌↔◌, length, true, false, if◌then◌else◌};
ghost use Rattle.cosim_model.specs.Values.{bit};
ghost use Rattle.rp_header.specs.Numbers.{field};
ghost use Rattle.rp_busaccess.specs.Refusals.{count_in, stands, apart, refused_extended, bus_refusal, data_in, enables_in, part_in, master_in, ReadsTight};

use crate::fault::BusFault;
use rp_header::{u16_at, u32_at, u64_at};

/// Whether the attributes ask for the extended layout.
pub fn is_extended(attributes: u64) -> bool
    ensures { result ≡ bit attributes 2 }
{
    attributes / 4 % 2 == 1
}

/// The data and the enables of a body.
#[derive(Drop)]
pub struct Parts<'a> {
    pub payload: &'a [u8],
    pub enables: &'a [u8],
}

/// Where the data and the enables of a body stand.
pub fn parts_of(body: &[u8], carries: bool) -> Result<Parts<'_>, BusFault>
    ensures payload { IfOk result (λ p. p.payload.now ≡ data_in (bit (field 28 8 body.now) 2) carries body.now) }
    ensures enables { IfOk result (λ p. p.enables.now ≡ enables_in (bit (field 28 8 body.now) 2) body.now) }
    ensures long { OnOk result ((if bit (field 28 8 body.now) 2 then 60 else 38) ≤ length body.now) }
    ensures lawful { OnOk result (bus_refusal carries body.now ≡ None) }
    ensures refused { IfErr result (λ f. bus_refusal carries body.now ≡ Some f) }
{
    let size = body.len();
    if size < 38 {
        return Err(short(38, size));
    }
    let count = if carries { u32_at(body, 24) } else { 0 };
    if is_extended(u64_at(body, 8)) {
        if size < 60 {
            return Err(short(60, size));
        }
        return extended_parts(body, count);
    }
    let least = 38 + count as usize;
    if size < least {
        return Err(short(least, size));
    }
    let (_, rest) = body.split_at(38);
    Ok(Parts {
        payload: rest.split_at(count as usize).0,
        enables: rest.split_at(0).0,
    })
}

ghost use Rattle.rp_busaccess.specs.declared.fault.BusFault.TheVariants.{Length};

fn short(wanted: usize, got: usize) -> BusFault
    ensures { result ≡ Length wanted got }
{
    BusFault::Length {
        wanted: wanted as u64,
        got: got as u64,
    }
}

fn extended_parts(body: &[u8], count: u32) -> Result<Parts<'_>, BusFault>
    requires { 60 ≤ length body.now }
    ensures payload { IfOk result (λ p. p.payload.now ≡ part_in (field 64 4 body.now) count body.now) }
    ensures enables { IfOk result (λ p. p.enables.now ≡ part_in (field 72 4 body.now) (field 76 4 body.now) body.now) }
    ensures lawful { OnOk result (refused_extended (length body.now) (field 64 4 body.now) count (field 72 4 body.now) (field 76 4 body.now) ≡ None) }
    ensures refused { IfErr result (λ f. refused_extended (length body.now) (field 64 4 body.now) count (field 72 4 body.now) (field 76 4 body.now) ≡ Some f) }
{
    let offset = u32_at(body, 44);
    let Some(payload) = part_at(body, offset, count) else {
        return Err(BusFault::DataRange {
            offset: u64::from(offset),
            len: u64::from(count),
        });
    };
    let place = u32_at(body, 52);
    let len = u32_at(body, 56);
    let Some(enables) = part_at(body, place, len) else {
        return Err(enable_range(place, len));
    };
    if are_apart(offset, count, place, len) {
        Ok(Parts { payload, enables })
    } else {
        Err(enable_range(place, len))
    }
}

ghost use Rattle.rp_busaccess.specs.declared.fault.BusFault.TheVariants.{EnableRange};

fn enable_range(place: u32, len: u32) -> BusFault
    ensures { result ≡ EnableRange place len }
{
    BusFault::EnableRange {
        offset: u64::from(place),
        len: u64::from(len),
    }
}

/// The bytes of a part, if it stands where it may.
fn part_at(body: &[u8], place: u32, count: u32) -> Option<&[u8]>
    requires { 60 ≤ length body.now }
    ensures { MatchOption result (stands (length body.now) place count ≡ false)
        (λ part. (part.now ≡ part_in place count body.now) × (stands (length body.now) place count ≡ true)) }
{
    if count == 0 {
        return Some(body.split_at(0).0);
    }
    let end = u64::from(place) + u64::from(count);
    if place < 80 || end > 20 + body.len() as u64 {
        return None;
    }
    let (_, rest) = body.split_at(place as usize - 20);
    Some(rest.split_at(count as usize).0)
}

fn are_apart(payload: u32, count: u32, enables: u32, enable_count: u32) -> bool
    ensures { result ≡ apart payload count enables enable_count }
{
    count == 0
        || enable_count == 0
        || u64::from(payload) + u64::from(count) <= u64::from(enables)
        || u64::from(enables) + u64::from(enable_count) <= u64::from(payload)
}

/// The master, whose upper bits the extended layout alone has.
pub fn master_of(body: &[u8]) -> u64
    requires { (if bit (field 28 8 body.now) 2 then 60 else 38) ≤ length body.now }
    ensures { result ≡ master_in (bit (field 28 8 body.now) 2) body.now }
{
    let low = u64::from(u16_at(body, 36));
    if is_extended(u64_at(body, 8)) {
        low + 65536 * u64::from(u16_at(body, 38)) + 4_294_967_296 * u64::from(u32_at(body, 40))
    } else {
        low
    }
}

/// Whether a body has the canonical places, and nothing behind its parts.
pub fn is_tight(body: &[u8], carries: bool) -> bool
    requires { (if bit (field 28 8 body.now) 2 then 60 else 38) ≤ length body.now }
    ensures { IsTrue result ↔ ReadsTight (bit (field 28 8 body.now) 2) carries body.now }
{
    let size = body.len() as u64;
    let count = if carries {
        u64::from(u32_at(body, 24))
    } else {
        0
    };
    if !is_extended(u64_at(body, 8)) {
        return size == 38 + count;
    }
    let enables = u64::from(u32_at(body, 56));
    let place = if enables == 0 { 0 } else { 80 + count };
    u32_at(body, 44) == 80
        && u32_at(body, 48) == 0
        && u64::from(u32_at(body, 52)) == place
        && size == 60 + count + enables
}
