// The square root of document 01, computed from the bits of a float: its 24 binary digits are scaled to a whole number
// n of 47 or 48 binary digits, the root of n comes from a linear first guess and two Newton steps, and the bits of the
// result are one sum.
#![tactic(auto)]

ghost use Rattle.std.specs.Prelude.{◌≡◌, ◌+◌, ◌*◌, ◌/◌, ◌^◌, ◌≤◌, ◌<◌};
ghost use Rattle.std.specs.Float.{binary32};
ghost use Rattle.std.specs.Float.Ieee.{of_bits};
ghost use Rattle.square_root.specs.Root.{nearest_root, root_of};
ghost use Rattle.square_root.specs.Rooted.{Rooted};
ghost use Rattle.square_root.specs.Inner.{Around, Over, bits_of};

use answers::Refusal;

// One Newton step towards the root of n: returns the next guess after g.
fn newton(n: u64, g: u64) -> u64
    requires { (n < 2 ^ 48) × (0 < g) × (g < 2 ^ 32) }
    ensures { result ≡ (g + n / g) / 2 }
{
    (g + n / g) / 2
}

// A first guess at the root of n, at most 200,000 away from the whole root: one linear function of n for numbers of 47
// binary digits, one for 48.
fn first_guess(n: u64) -> u64
    requires { (2 ^ 46 ≤ n) × (n < 2 ^ 48) }
    ensures { Around n 200000 result }
{
    let m = n / 0x80_0000;
    if n < 0x8000_0000_0000 {
        return 0x4d_6000 + m * 13 / 32;
    }
    0x6f_6000 + m * 9 / 32
}

// The whole root of n, or one above it.
fn whole_root(n: u64) -> u64
    requires { (2 ^ 46 ≤ n) × (n < 2 ^ 48) }
    ensures { Over n 1 result }
{
    let g = first_guess(n);
    let s = newton(n, g);
    newton(n, s)
}

// The whole number nearest to the root of n.
fn nearest_root(n: u64) -> u64
    requires { (2 ^ 46 ≤ n) × (n < 2 ^ 48) }
    ensures { result ≡ nearest_root n }
{
    let s = whole_root(n);
    let square = s * s;
    if n + s <= square {
        return s - 1;
    }
    if square + s < n {
        return s + 1;
    }
    s
}

// The bits of the root of sig × 2^p / 2^214.
fn root_bits(sig: u64, p: u64) -> u32
    requires { (2 ^ 23 ≤ sig) × (sig < 2 ^ 24) × (p ≤ 318) }
    ensures { result ≡ bits_of sig p }
{
    let n = sig * 0x80_0000 * (2 - p % 2);
    let q = nearest_root(n);
    (((p + 63) / 2 - 1) * 0x80_0000 + q) as u32
}

// The root of the positive finite float with the bits b.
fn positive_root(b: u32) -> f32
    requires { (0 < b) × (b < 255 * 2 ^ 23) }
    ensures { result ≡ root_of (of_bits binary32 b) }
{
    if b < 0x80_0000 {
        let h = u32::leading_zeros(b) - 8;
        return f32::from_bits(root_bits((b << h) as u64, (65 - h) as u64));
    }
    f32::from_bits(root_bits(
        (0x80_0000 + b % 0x80_0000) as u64,
        (b / 0x80_0000 + 64) as u64,
    ))
}

// squareRoot of IEEE 754, on every float.
pub fn root_of(x: f32) -> f32
    ensures { result ≡ root_of x }
{
    if x > 0.0 {
        if x < f32::from_bits(0x7f80_0000) {
            return positive_root(f32::to_bits(x));
        }
        return x;
    }
    if x == 0.0 {
        return x;
    }
    0.0 / 0.0
}

// The root of a finite x that is not below 0; any other x is refused by 4.
pub fn root(x: f32) -> Result<f32, Refusal>
    ensures { Rooted x result }
{
    if floats::is_finite(x) && x >= 0.0 {
        Ok(root_of(x))
    } else {
        Err(Refusal::Setting)
    }
}
