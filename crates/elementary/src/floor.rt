// floor: IEEE 754's roundToIntegralTowardNegative, on the bits. std's f64::floor is proved too; ours stays, since
// document 01 has it written anew, and wrong programs change its steps.
ghost use Rattle.std.specs.Prelude.{◌≡◌, ◌+◌, ◌/◌, ◌%◌, ◌^◌, ◌<◌, ◌≤◌};
ghost use Rattle.std.specs.Float.{binary64};
ghost use Rattle.std.specs.Float.Ieee.{of_bits};
ghost use Rattle.elementary.specs.Floor.{floor_of};

// The floor of the number with the bits b, below 1 in size.
fn floor_below_one(b: u64) -> f64
    requires { b % 2 ^ 63 < 0x3ff0_0000_0000_0000 }
    ensures { result ≡ floor_of binary64 (of_bits binary64 b) }
{
    if b < 0x8000_0000_0000_0000 {
        return 0.0;
    }
    if b == 0x8000_0000_0000_0000 {
        return -0.0;
    }
    -1.0
}

// The floor of the number with the bits b, whose last d digits stand below the point: they are cut
// off. A number below 0 grows in size, so it first gets all but the last of a unit; a carry runs into
// the exponent by itself.
fn floor_from_one(b: u64, d: u64) -> f64
    requires { (1 ≤ d) × (d ≤ 52) × (b % 2 ^ 63 / 2 ^ 52 + d ≡ 1075) }
    ensures { result ≡ floor_of binary64 (of_bits binary64 b) }
{
    let unit: u64 = 1 << d;
    let c = if b >= 0x8000_0000_0000_0000 {
        b + (unit - 1)
    } else {
        b
    };
    f64::from_bits(c - c % unit)
}

// From 2^52 in size on every number is whole. An infinity stays itself, and so does a NaN.
pub fn floor(x: f64) -> f64
    ensures { result ≡ floor_of binary64 x }
{
    if x.is_nan() {
        return x;
    }
    let b = x.to_bits();
    let e = b / 0x10_0000_0000_0000 % 0x800;
    if e >= 1075 {
        return x;
    }
    if e < 1023 {
        return floor_below_one(b);
    }
    floor_from_one(b, 1075 - e)
}
