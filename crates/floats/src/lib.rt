// The stand-ins of document 01 for Rust's float methods, for every f32, each equal to its definition in
// specs/Stand.antt; the bits of a float; and `height_key`, by which cells leave the flood's queue (specs/Key.antt).
#![tactic(auto)]

ghost use Rattle.std.specs.Prelude.{◌≡◌, ◌^◌, ◌≤◌, max as greatest, T, from_bits, to_bits};
ghost use Rattle.std.specs.Float.{binary32};
ghost use Rattle.std.specs.Float.Ieee.{div, to_unsigned};
ghost use Rattle.std.specs.Float.Ieee.Scale.{finite};
ghost use Rattle.std.specs.Float.Ieee.Positive.{above};
ghost use Rattle.floats.specs.Stand.{max_of, whole_by, rule_of, trunc_of, round_of, ceil_of, whole, fract_of, index_of};
ghost use Rattle.floats.specs.Key.{key_of};

use std::num::{saturating_f32_to_u64, saturating_f32_to_usize};

// max(a, b): a if a ≥ b, else b.
pub fn max(a: f32, b: f32) -> f32
    ensures { result ≡ max_of a b }
{
    if a >= b { a } else { b }
}

// Whether x is neither an infinity nor a NaN.
pub fn is_finite(x: f32) -> bool
    ensures { result ≡ finite x }
{
    f32::from_bits(0xff80_0000) < x && x < f32::from_bits(0x7f80_0000)
}

// x cut to a whole number, at least 1.
pub fn to_count(x: f32) -> usize
    ensures { result ≡ greatest (to_unsigned 64 x) 1 }
{
    saturating_f32_to_usize(x).max(1)
}

// a / b as a float. Both are at most 2^24, so each is exact as a float.
pub fn ratio(a: usize, b: usize) -> f32
    requires a_bound { a ≤ 2 ^ 24 }
    requires b_bound { b ≤ 2 ^ 24 }
    ensures { result ≡ div binary32 (whole a) (whole b) }
{
    a as f32 / b as f32
}

// x as an index along a side: x cut to a whole number, at most side - 1; 0 where side is 0.
pub fn index(x: f32, side: usize) -> usize
    ensures { result ≡ index_of side x }
{
    saturating_f32_to_usize(x).min(side.saturating_sub(1))
}

// 2^23: from here on every float is whole.
const ALL_WHOLE: f32 = 8388608.0;

// x above 0 as a whole number: the nearest, half up, if `NEAREST`, else x without its fraction. From 2^23 on x is
// whole; below that x + x is exact.
fn whole_above<const NEAREST: bool>(x: f32) -> f32
    requires { T (above x) }
    ensures { result ≡ whole_by (rule_of NEAREST) x }
{
    if x >= ALL_WHOLE {
        return x;
    }
    if NEAREST {
        return ((saturating_f32_to_u64(x + x) + 1) / 2) as f32;
    }
    saturating_f32_to_u64(x) as f32
}

// Any x as a whole number, with x's sign: the nearest, half away from zero, if `NEAREST`, else x without its fraction.
// Infinities and NaN stay as they are.
fn to_whole<const NEAREST: bool>(x: f32) -> f32
    ensures { result ≡ whole_by (rule_of NEAREST) x }
{
    if x > 0.0 {
        return whole_above::<NEAREST>(x);
    }
    if x < 0.0 {
        return -whole_above::<NEAREST>(-x);
    }
    x
}

// x without its fraction, with x's sign.
fn trunc(x: f32) -> f32
    ensures { result ≡ trunc_of x }
{
    to_whole::<false>(x)
}

// x's fraction, with x's sign.
pub fn fract(x: f32) -> f32
    ensures { result ≡ fract_of x }
{
    x - trunc(x)
}

// The least whole number that is not below x, with x's sign.
pub fn ceil(x: f32) -> f32
    ensures { result ≡ ceil_of x }
{
    let t = trunc(x);
    if t < x { t + 1.0 } else { t }
}

// The whole number nearest to x, half away from zero, with x's sign.
pub fn round(x: f32) -> f32
    ensures { result ≡ round_of x }
{
    to_whole::<true>(x)
}

// The float of a bit pattern. Every NaN's pattern gives the one NaN.
pub fn from_bits(b: u32) -> f32
    ensures { result ≡ from_bits binary32 b }
{
    if b % 0x8000_0000 > 0x7f80_0000 {
        return 0.0 / 0.0;
    }
    f32::from_bits(b)
}

// The bit pattern of a float, 0x7fc0_0000 for a NaN.
pub fn to_bits(x: f32) -> u32
    ensures { result ≡ to_bits binary32 x }
{
    if x != x {
        return 0x7fc0_0000;
    }
    f32::to_bits(x)
}

// The bits of x, changed so that keys compare as floats do: -2 below -1, and -0 just before +0.
pub fn height_key(x: f32) -> u32
    ensures { result ≡ key_of x }
{
    let b = to_bits(x);
    if b >= 0x8000_0000 {
        0xffff_ffff - b
    } else {
        0x8000_0000 + b
    }
}
