// The bytes of a number in a file: `from_le_bytes` reads it, since the low byte stands first.
ghost use Rattle.std.specs.Prelude.{◌≡◌, ◌+◌, ◌≤◌, length, slice_range};

// The N bytes at a place.
pub(crate) fn bytes_at<const N: usize>(bytes: &[u8], at: usize) -> [u8; N]
    requires { at + N ≤ length bytes.now }
    ensures { result ≡ slice_range bytes.now at (at + N) }
{
    bytes[at..at + N].try_into().unwrap()
}
