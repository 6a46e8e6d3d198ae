// Little-endian numbers in bytes.
#![tactic(auto)]

ghost use Rattle.std.specs.Prelude.{◌≡◌, ◌+◌, ◌*◌, ◌≤◌, length};
ghost use Rattle.little_endian.specs.Numbers.{number_at, numbers_at};

// The number whose four bytes begin at `at`.
pub fn number_at(bytes: &[u8], at: usize) -> u32
    requires { at + 4 ≤ length bytes.now }
    ensures { result ≡ number_at bytes.now at }
{
    u32::from_le_bytes([bytes[at], bytes[at + 1], bytes[at + 2], bytes[at + 3]])
}

// Fills `out` with the numbers whose bytes begin at `at`.
pub fn read_numbers(bytes: &[u8], at: usize, out: &mut [u32])
    requires { at + 4 * length out.old ≤ length bytes.now }
    ensures { out.new ≡ numbers_at (length out.old) bytes.now at }
{
    for (i, number) in out.iter_mut().enumerate() {
        *number = number_at(bytes, at + 4 * i);
    }
}
