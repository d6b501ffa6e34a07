ghost use Rattle.std.specs.Prelude.{◌≡◌, ◌<◌, ◌≤◌, ◌+◌, ◌-◌, ◌/◌, ◌%◌, ◌++◌, ◌∷◌, [], None, Some, length, IfOk, IfErr, OnOk, OnErr, IsOk, if◌then◌else◌, nat_eq};
ghost use Rattle.std.specs.List.{concat};
ghost use Rattle.rp_header.specs.Numbers.{be};
ghost use Rattle.rp_busaccess.specs.Bits.{fields_of};
ghost use Rattle.rp_busaccess.specs.Writing.{bus_bytes, bus_size, write_fault, IsWriteFault, start_bytes};

use crate::bus::BusAccess;
use crate::fault::WriteFault;
use byteorder::{BigEndian, ByteOrder};
use cos_base::Octets;

impl BusAccess {
    /// The number of bytes that the body is written in, or why it isn't. It takes no memory.
    pub fn body_len(&self, carries: bool) -> Result<usize, WriteFault>
        ensures size { IfOk result (λ n. n ≡ bus_size (fields_of self.now)) }
        ensures small { IfOk result (λ n. n ≤ 65536) }
        ensures lawful { OnOk result (write_fault carries (fields_of self.now) ≡ None) }
        ensures fault { IfErr result (λ f. write_fault carries (fields_of self.now) ≡ Some f) }
    {
        let extended = self.extended();
        if !extended && self.master > 65535 {
            return Err(WriteFault::MasterTooWide {
                master: self.master,
            });
        }
        let wanted = if carries { self.len as usize } else { 0 };
        let got = self.payload.len();
        if got != wanted {
            return Err(WriteFault::DataCount {
                wanted: wanted as u64,
                got: got as u64,
            });
        }
        let count = self.enables.as_slice().len();
        if !extended && count > 0 {
            return Err(WriteFault::EnablesInOld {
                count: count as u64,
            });
        }
        let size = if extended { 60 + got + count } else { 38 + got };
        if size > 65536 {
            return Err(WriteFault::TooLong { len: size as u64 });
        }
        Ok(size)
    }

    /// Appends the body's canonical bytes. In the room that `out` has it takes no memory.
    pub fn write_into(&self, carries: bool, out: &mut Octets) -> Result<(), WriteFault>
        ensures ok { OnOk result (out.new.bytes ≡ out.old.bytes ++ bus_bytes (fields_of self.now)) }
        ensures lawful { OnOk result (write_fault carries (fields_of self.now) ≡ None) }
        ensures fault { IfErr result (λ f. IsWriteFault f (write_fault carries (fields_of self.now))) }
        ensures err { OnErr result (out.new ≡ out.old) }
        ensures fits { write_fault carries (fields_of self.now) ≡ None → bus_size (fields_of self.now) ≤ out.old.spare →
            IsOk result × (out.new.spare ≡ out.old.spare - bus_size (fields_of self.now)) }
    {
        match self.body_len(carries) {
            Ok(size) => {
                if out.reserve(size).is_err() {
                    return Err(WriteFault::NoMemory);
                }
                self.put(out);
                Ok(())
            }
            Err(fault) => Err(fault),
        }
    }

    /// Puts the body into the room that there is.
    fn put(&self, out: &mut Octets)
        requires room { bus_size (fields_of self.now) ≤ out.old.spare }
        requires small { bus_size (fields_of self.now) ≤ 65536 }
        ensures bytes { out.new.bytes ≡ out.old.bytes ++ bus_bytes (fields_of self.now) }
        ensures spare { out.new.spare + bus_size (fields_of self.now) ≡ out.old.spare }
    {
        let payload = self.payload.as_slice();
        out.push_spare(&self.start());
        if self.extended() {
            let enables = self.enables.as_slice();
            let place = if enables.is_empty() {
                0
            } else {
                80 + payload.len() as u32
            };
            out.push_spare(&second_half(self.master, place, enables.len() as u32));
            out.push_spare(payload);
            out.push_spare(enables);
        } else {
            out.push_spare(payload);
        }
    }

    /// The fields of both layouts.
    fn start(&self) -> [u8; 38]
        ensures { result ≡ start_bytes (fields_of self.now) }
    {
        let mut bytes = [0; 38];
        BigEndian::write_u64(&mut bytes[0..], self.time);
        BigEndian::write_u64(&mut bytes[8..], self.attributes);
        BigEndian::write_u64(&mut bytes[16..], self.addr);
        BigEndian::write_u32(&mut bytes[24..], self.len);
        BigEndian::write_u32(&mut bytes[28..], self.width);
        BigEndian::write_u32(&mut bytes[32..], self.stream_width);
        BigEndian::write_u16(&mut bytes[36..], (self.master % 65536) as u16);
        bytes
    }
}

/// The other fields of the extended layout.
fn second_half(master: u64, place: u32, count: u32) -> [u8; 22]
    ensures { result ≡ concat (be (master / 65536 % 65536) 2 ∷ be (master / 4294967296) 4 ∷ be 80 4 ∷ be 0 4 ∷ be place 4 ∷ be count 4 ∷ []) }
{
    let mut bytes = [0; 22];
    BigEndian::write_u16(&mut bytes[0..], (master / 65536 % 65536) as u16);
    BigEndian::write_u32(&mut bytes[2..], (master / 4_294_967_296) as u32);
    BigEndian::write_u32(&mut bytes[6..], 80);
    BigEndian::write_u32(&mut bytes[14..], place);
    BigEndian::write_u32(&mut bytes[18..], count);
    bytes
}
