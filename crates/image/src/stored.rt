// What is stored in an image, in so many bytes.
ghost use Rattle.std.specs.Prelude.{◌≡◌, ℕ, ◌+◌, ◌≤◌, List, length, take, drop};
ghost use Rattle.image.specs.Layout.{number_at};

// What has a fixed number of bytes in an image.
pub trait Wide {
    // How many bytes it has.
    ghost WIDTH: { ℕ };

    const WIDTH: usize;
}

// What is read from its bytes.
pub(crate) trait Stored: Wide {
    // What the bytes from a place on give.
    ghost stored_at: { List ℕ → ℕ → Self };

    // Reads it at a place.
    fn read_at(bytes: &[u8], at: usize) -> Self
        requires { at + Self.WIDTH ≤ length bytes.now }
        ensures { result ≡ stored_at bytes.now at };
}

// As many bytes as are asked for, from a place on.
fn bytes_at<const N: usize>(bytes: &[u8], at: usize) -> [u8; N]
    requires { at + N ≤ length bytes.now }
    ensures { result ≡ take N (drop at bytes.now) }
{
    *bytes[at..].first_chunk().unwrap()
}

// The numbers of an image, an impl for each width: the library's `from_be_bytes` is no method of a trait, and no macro of our
// own may write impls.
impl Wide for u8 {
    ghost WIDTH = { 1 };

    const WIDTH: usize = 1;
}

impl Stored for u8 {
    ghost stored_at = { λ bytes at. number_at at 1 bytes };

    fn read_at(bytes: &[u8], at: usize) -> u8 {
        bytes[at]
    }
}

impl Wide for u32 {
    ghost WIDTH = { 4 };

    const WIDTH: usize = 4;
}

impl Stored for u32 {
    ghost stored_at = { λ bytes at. number_at at 4 bytes };

    fn read_at(bytes: &[u8], at: usize) -> u32 {
        u32::from_be_bytes(bytes_at(bytes, at))
    }
}

impl Wide for u64 {
    ghost WIDTH = { 8 };

    const WIDTH: usize = 8;
}

impl Stored for u64 {
    ghost stored_at = { λ bytes at. number_at at 8 bytes };

    fn read_at(bytes: &[u8], at: usize) -> u64 {
        u64::from_be_bytes(bytes_at(bytes, at))
    }
}
