//! Numbers of 32 bits, shifts and operators on bits (ECMA-262 9.5, 9.6, 11.4.8, 11.7, 11.10).

ghost use Rattle.std.specs.Prelude.{◌≡◌, ◌^◌, pos};
ghost use Rattle.js_number.specs.declared.num.Num.TheVariants as nums;
ghost use Rattle.js_number.specs.Number.{integer_of};
ghost use Rattle.js_number.specs.Bits.{IsResidue, uint32, int32, shift_count, shifted_left, shifted_right, shifted_with_zeros, and_of, or_of, xor_of, not_of};

use crate::int::Int;
use crate::num::Num;

const MODULUS: i64 = 1 << 32;

/// ToUint32.
pub fn to_uint32(a: Num) -> u32
    ensures value { result ≡ uint32 (integer_of a) }
    ensures residue { IsResidue (2 ^ 32) (integer_of a) (pos result) }
{
    uint32_of(a.to_integer())
}

/// ToInt32.
pub fn to_int32(a: Num) -> i32
    ensures value { result ≡ int32 (integer_of a) }
    ensures residue { IsResidue (2 ^ 32) (integer_of a) result }
{
    int32_of(a.to_integer())
}

/// `a << b`.
pub fn shift_left(a: Num, b: Num) -> Num
    ensures { result ≡ nums.Int (shifted_left (integer_of a) (integer_of b)) }
{
    let shifted = i64::from(to_int32(a)) * power(b);
    Num::Int(Int::of(i64::from(int32_of(shifted))))
}

/// `a >> b`.
pub fn shift_right(a: Num, b: Num) -> Num
    ensures { result ≡ nums.Int (shifted_right (integer_of a) (integer_of b)) }
{
    Num::Int(Int::of(i64::from(to_int32(a)).div_euclid(power(b))))
}

/// `a >>> b`.
pub fn shift_zero(a: Num, b: Num) -> Num
    ensures { result ≡ nums.Int (shifted_with_zeros (integer_of a) (integer_of b)) }
{
    Num::Int(Int::of(i64::from(to_uint32(a)) / power(b)))
}

/// `a & b`.
pub fn bit_and(a: Num, b: Num) -> Num
    ensures { result ≡ nums.Int (and_of (integer_of a) (integer_of b)) }
{
    signed(to_uint32(a) & to_uint32(b))
}

/// `a | b`.
pub fn bit_or(a: Num, b: Num) -> Num
    ensures { result ≡ nums.Int (or_of (integer_of a) (integer_of b)) }
{
    signed(to_uint32(a) | to_uint32(b))
}

/// `a ^ b`.
pub fn bit_xor(a: Num, b: Num) -> Num
    ensures { result ≡ nums.Int (xor_of (integer_of a) (integer_of b)) }
{
    signed(to_uint32(a) ^ to_uint32(b))
}

/// `~a`.
pub fn bit_not(a: Num) -> Num
    ensures { result ≡ nums.Int (not_of (integer_of a)) }
{
    signed(!to_uint32(a))
}

// The number with these 32 bits.
fn signed(bits: u32) -> Num
    ensures { result ≡ nums.Int (int32 (pos bits)) }
{
    Num::Int(Int::of(i64::from(int32_of(i64::from(bits)))))
}

fn uint32_of(n: i64) -> u32
    ensures { result ≡ uint32 n }
{
    n.rem_euclid(MODULUS) as u32
}

fn int32_of(n: i64) -> i32
    ensures { result ≡ int32 n }
{
    let residue = n.rem_euclid(MODULUS);
    if residue < MODULUS / 2 {
        residue as i32
    } else {
        (residue - MODULUS) as i32
    }
}

// The power of two by which `b` shifts.
fn power(b: Num) -> i64
    ensures { result ≡ pos (2 ^ shift_count (integer_of b)) }
{
    1 << (to_uint32(b) % 32)
}
