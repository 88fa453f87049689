// Numbers as bytes, the lowest first. specs/Bytes.antt has both directions.
ghost use Rattle.std.specs.Prelude.{◌≡◌, ◌+◌, ◌≤◌, ◌<◌, length};
ghost use Rattle.card.specs.Bytes.{byte_of, number_at};

// Byte j of a number.
pub(crate) fn byte_of(x: u64, j: usize) -> u8
    requires { j < 8 }
    ensures { result ≡ byte_of x j }
{
    ((x >> (8 * j)) % 256) as u8
}

// The number whose n bytes stand at `at`, the highest taken first.
pub(crate) fn number_at(bytes: &[u8], at: usize, n: usize) -> u64
    requires { (at + n ≤ length bytes.now) × (n ≤ 8) }
    ensures { result ≡ number_at bytes.now at n }
{
    let mut x: u64 = 0;
    for j in (0..n).rev() {
        let b = bytes[at + j] as u64;
        x = x * 256 + b;
    }
    x
}
