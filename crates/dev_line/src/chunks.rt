// Chunks of bytes.
ghost use Rattle.std.specs.Prelude.{◌≡◌, ◌≤◌, length};
ghost use Rattle.dev_line.specs.Chunks.{chunk_of};

/// The bytes, then zeros: how a want of up to 64 bytes carries them.
pub fn chunk(bytes: &[u8]) -> [u8; 64]
    requires { length bytes.now ≤ 64 }
    ensures { result ≡ chunk_of bytes.now }
{
    let mut chunk = [0; 64];
    chunk[..bytes.len()].copy_from_slice(bytes);
    chunk
}
