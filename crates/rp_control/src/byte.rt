ghost use Rattle.std.specs.Prelude.{◌≡◌, ◌≤◌, ◌++◌, length, drop};
ghost use Rattle.rp_header.specs.Numbers.{be};

/// Writes a number of one byte to the front.
pub fn write_u8(bytes: &mut [u8], number: u8)
    requires { 1 ≤ length bytes.old }
    ensures { bytes.new ≡ be number 1 ++ drop 1 bytes.old }
{
    bytes[0] = number;
}
