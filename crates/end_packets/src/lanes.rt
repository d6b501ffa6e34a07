// Lanes of a request as enable bytes.
ghost use Rattle.std.specs.Prelude.{◌≡◌, length, map};
ghost use Rattle.cosim_model.specs.Values.{all_on, bits_of};
ghost use Rattle.cosim_model.specs.Packets.{enable_byte};

/// Whether the low bits of a mask are all set, as many as there are lanes.
pub(crate) fn are_all_on(mask: u64, lanes: u8) -> bool
    ensures { result ≡ all_on (bits_of mask lanes) }
{
    if lanes == 0 {
        return true;
    }
    mask % 2 == 1 && are_all_on(mask / 2, lanes - 1)
}

/// Puts one byte for each bit of a mask, the lowest first: 255 where it is set, else 0.
pub(crate) fn put_enables(mask: u64, out: &mut [u8])
    ensures { out.new ≡ map enable_byte (bits_of mask (length out.old)) }
{
    let mut left = mask;
    for at in 0..out.len() {
        out[at] = if left % 2 == 1 { 255 } else { 0 };
        left /= 2;
    }
}
