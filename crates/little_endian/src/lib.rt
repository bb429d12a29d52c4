#![tactic(auto)]

// Numbers of 32 bits in the bytes of a file, the lowest byte first: read, and put. (File and place stay two parameters: tried as a struct
// that holds the `&mut` file, and its caller learns nothing of the file afterwards.)
ghost use Rattle.std.specs.Prelude.{◌≡◌, ◌+◌, ◌≤◌, length};
ghost use Rattle.words.specs.Put.{Put};
ghost use Rattle.little_endian.specs.Numbers.{unsigned, signed, unsigned_bytes, signed_bytes};

// The unsigned number in the four bytes from `at` on.
pub fn unsigned_at(file: &[u8], at: usize) -> u32
    requires { at + 4 ≤ length file.now }
    ensures { result ≡ unsigned file.now at }
{
    u32::from_le_bytes([file[at], file[at + 1], file[at + 2], file[at + 3]])
}

// The signed number in the four bytes from `at` on.
#[tactic(auto, unfolding(crate::specs::Numbers::signed))]
pub fn signed_at(file: &[u8], at: usize) -> i32
    requires { at + 4 ≤ length file.now }
    ensures { result ≡ signed (unsigned file.now at) }
{
    unsigned_at(file, at).cast_signed()
}

// The four bytes of n, put from `at` on; the answer is the place behind them.
pub fn put_unsigned(n: u32, file: &mut [u8], at: usize) -> usize
    requires { at + 4 ≤ length file.old }
    ensures { Put file.old at (unsigned_bytes n) result file.new }
{
    file[at..at + 4].copy_from_slice(&n.to_le_bytes());
    at + 4
}

// The four bytes of x, put from `at` on; the answer is the place behind them.
pub fn put_signed(x: i32, file: &mut [u8], at: usize) -> usize
    requires { at + 4 ≤ length file.old }
    ensures { Put file.old at (signed_bytes x) result file.new }
{
    put_unsigned(x.cast_unsigned(), file, at)
}
