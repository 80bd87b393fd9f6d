// Signed numbers: sums and differences that wrap, a number's bits and operations on them, cuts to 16 bits and the tests over them, and which are flags of a save.
#![tactic(auto)]

ghost use Rattle.std.specs.Prelude.{◌≡◌, ◌+ℤ◌, ◌-ℤ◌};
ghost use Rattle.std.specs.Int.{w16, w32};
ghost use Rattle.std.proofs.Common.{to_z, of_z};
ghost use Rattle.model.specs.Save.{flag_inside};
ghost use Rattle.model.specs.Signed.{wrap32, and32, or32, cut16, b2z, clamp};

use model::{FLAGS, WIDE16};

// The numbers of 16 bits.
const WIDE: u32 = WIDE16 as u32;

// ---- sums that wrap

pub fn wrapping_add_i32(a: i32, b: i32) -> i32
    ensures { result ≡ wrap32 (a +ℤ b) }
{
    a.wrapping_add(b)
}

pub fn wrapping_sub_i32(a: i32, b: i32) -> i32
    ensures { result ≡ wrap32 (a -ℤ b) }
{
    a.wrapping_sub(b)
}

// ---- bits

// The bits of x.
pub fn to_bits(x: i32) -> u32
    ensures { result ≡ of_z w32 x }
{
    x.cast_unsigned()
}

// The number that 32 bits stand for.
pub fn from_bits(x: u32) -> i32
    ensures { result ≡ to_z w32 x }
{
    x.cast_signed()
}

// Bit by bit, in two's complement.
pub fn and_i32(x: i32, y: i32) -> i32
    ensures { result ≡ and32 x y }
{
    x & y
}

pub fn or_i32(x: i32, y: i32) -> i32
    ensures { result ≡ or32 x y }
{
    x | y
}

// The number that 16 bits stand for.
pub fn from_bits16(x: u16) -> i16
    ensures { result ≡ to_z w16 x }
{
    x.cast_signed()
}

// ---- 16 bits

// x, cut to 16 bits.
pub fn cut_i16(x: i32) -> i16
    ensures { result ≡ cut16 x }
{
    ((x.cast_unsigned() % WIDE) as u16).cast_signed()
}

pub fn widen16(x: i16) -> i32
    ensures { result ≡ x }
{
    i32::from(x)
}

// What is left of a limit: the larger of 0 and limit - held. An i32, since 32767 - (-32768) is no i16.
pub fn remaining(limit: i16, held: i16) -> i32
    ensures { result ≡ clamp (limit -ℤ held) }
{
    (i32::from(limit) - i32::from(held)).max(0)
}

// 1 for true, 0 for false.
pub fn bit(b: bool) -> i32
    ensures { result ≡ b2z b }
{
    i32::from(b)
}

// The number of a flag that a save has: 0 to 2,047.
pub fn is_flag(x: i32) -> bool
    ensures { result ≡ flag_inside x }
{
    0 <= x && x < FLAGS as i32
}
