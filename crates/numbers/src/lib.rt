// The numbers of a field, and their ranges. The definitions are format's specs/Read.antt.
#![tactic(auto)]

ghost use Rattle.std.specs.Prelude.{◌≡◌, ◌≤◌, ◌<◌};
ghost use Rattle.std.specs.Int.Signed.{le_z};
ghost use Rattle.format.specs.Read as Read;

// The byte at i; 0 past the end.
pub fn byte_at(b: &[u8], i: usize) -> u64
    ensures { (result ≡ Read.byte_at b.now i) × (result < 256) }
{
    if i < b.len() { u64::from(b[i]) } else { 0 }
}

pub fn u16_at(b: &[u8], i: usize) -> u64
    requires { i ≤ 32 }
    ensures { (result ≡ Read.u16_at b.now i) × (result < 65536) }
{
    byte_at(b, i) + 256 * byte_at(b, i + 1)
}

pub fn u32_at(b: &[u8], i: usize) -> u64
    requires { i ≤ 30 }
    ensures { (result ≡ Read.u32_at b.now i) × (result < 4294967296) }
{
    u16_at(b, i) + 65536 * u16_at(b, i + 2)
}

// Two's complement: half is the first number that stands for a negative one.
pub fn signed(half: u64, n: u64) -> i64
    requires { (half ≤ 2147483648) × (n < 4294967296) }
    ensures { result ≡ Read.signed half n }
{
    if n < half {
        n as i64
    } else {
        (n as i64) - ((half + half) as i64)
    }
}

pub fn i8_at(b: &[u8], i: usize) -> i64
    ensures { result ≡ Read.i8_at b.now i }
{
    signed(128, byte_at(b, i))
}

pub fn i32_at(b: &[u8], i: usize) -> i64
    requires { i ≤ 30 }
    ensures { result ≡ Read.i32_at b.now i }
{
    signed(2147483648, u32_at(b, i))
}

// Whether z is from -most to most.
pub fn size_up_to(most: u64, z: i64) -> bool
    ensures { result ≡ Read.size_up_to most z }
{
    z.unsigned_abs() <= most
}

pub fn is_zero(z: i64) -> bool
    ensures { result ≡ Read.is_zero z }
{
    z == 0
}

pub fn i8_size_up_to(most: u64, b: &[u8], i: usize) -> bool
    ensures { result ≡ Read.size_up_to most (Read.i8_at b.now i) }
{
    size_up_to(most, i8_at(b, i))
}

pub fn i8_is_zero(b: &[u8], i: usize) -> bool
    ensures { result ≡ Read.is_zero (Read.i8_at b.now i) }
{
    is_zero(i8_at(b, i))
}

pub fn i32_size_up_to(most: u64, b: &[u8], i: usize) -> bool
    requires { i ≤ 30 }
    ensures { result ≡ Read.size_up_to most (Read.i32_at b.now i) }
{
    size_up_to(most, i32_at(b, i))
}

// Whether the number at i is at most that at j.
pub fn i32_le(b: &[u8], i: usize, j: usize) -> bool
    requires { (i ≤ 30) × (j ≤ 30) }
    ensures { result ≡ le_z (Read.i32_at b.now i) (Read.i32_at b.now j) }
{
    i32_at(b, i) <= i32_at(b, j)
}
