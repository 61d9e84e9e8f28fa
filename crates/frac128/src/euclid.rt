//! The greatest common divisor and the least common multiple.
ghost use Rattle.std.specs.Prelude.{◌≡◌, ◌^◌, ◌%◌, ◌<◌, ◌<ℤ◌, pos, nat_abs, SomeIff};
ghost use Rattle.exact_math.specs.Gcd.{gcd as gcd_of, lcm as lcm_of};

// One more than the greatest number of 64 bits.
const WORD: u128 = 1 << 64;

/// The greatest common divisor, 0 for two zeros.
pub fn gcd(a: i128, b: i128) -> i128
    requires a_narrow { nat_abs a < 2 ^ 127 }
    requires b_narrow { nat_abs b < 2 ^ 127 }
    ensures { result ≡ pos (gcd_of (nat_abs a) (nat_abs b)) }
{
    gcd_of_sizes(a.unsigned_abs(), b.unsigned_abs()) as i128
}

/// The least common multiple of two numbers above 0; none where it is above 2^127 - 1.
pub fn lcm(a: i128, b: i128) -> Option<i128>
    requires a_positive { pos 0 <ℤ a }
    requires b_positive { pos 0 <ℤ b }
    ensures { SomeIff result (lcm_of (nat_abs a) (nat_abs b) < 2 ^ 127) (pos (lcm_of (nat_abs a) (nat_abs b))) }
{
    let common = gcd(a, b);
    (a / common).checked_mul(b)
}

pub(crate) fn gcd_of_sizes(a: u128, b: u128) -> u128
    ensures { result ≡ gcd_of a b }
{
    if a >= WORD && b >= WORD {
        return gcd_of_long(a, b);
    }
    gcd_by_division(a, b)
}

// Two numbers above 64 bits, without their factors of 2.
fn gcd_of_long(a: u128, b: u128) -> u128
    requires a_positive { 0 < a }
    requires b_positive { 0 < b }
    ensures { result ≡ gcd_of a b }
{
    let common = a.trailing_zeros().min(b.trailing_zeros());
    gcd_of_long_odd(a >> a.trailing_zeros(), b >> b.trailing_zeros()) << common
}

// Shifts and differences until one of two odd numbers has 64 bits.
fn gcd_of_long_odd(a: u128, b: u128) -> u128
    requires a_odd { a % 2 ≡ 1 }
    requires b_odd { b % 2 ≡ 1 }
    ensures { result ≡ gcd_of a b }
{
    let mut x = a;
    let mut y = b;
    while x >= WORD && y >= WORD {
        if x == y {
            return x;
        }
        let rest = x.abs_diff(y);
        x = x.min(y);
        y = rest >> rest.trailing_zeros();
    }
    gcd_by_division(x, y)
}

// Euclid's steps until both numbers have 64 bits, which need no division of 128 bits.
fn gcd_by_division(a: u128, b: u128) -> u128
    ensures { result ≡ gcd_of a b }
{
    let mut high = a.max(b);
    let mut low = a.min(b);
    while low >= WORD {
        let rest = high % low;
        high = low;
        low = rest;
    }
    if low == 0 {
        return high;
    }
    if low == 1 {
        return 1;
    }
    let rest = if high >= WORD { high % low } else { high };
    u128::from(gcd_of_words(low as u64, rest as u64))
}

/// The greatest common divisor of two numbers of 64 bits by shifts and differences
/// (Stein's binary algorithm).
pub(crate) fn gcd_of_words(a: u64, b: u64) -> u64
    ensures { result ≡ gcd_of a b }
{
    if a == 0 {
        return b;
    }
    if b == 0 {
        return a;
    }
    if a == 1 || b == 1 {
        return 1;
    }
    let common = a.trailing_zeros().min(b.trailing_zeros());
    gcd_of_odd(a >> a.trailing_zeros(), b >> b.trailing_zeros()) << common
}

fn gcd_of_odd(a: u64, b: u64) -> u64
    requires a_odd { a % 2 ≡ 1 }
    requires b_odd { b % 2 ≡ 1 }
    ensures { result ≡ gcd_of a b }
{
    let mut x = a;
    let mut y = b;
    while x != y {
        let rest = x.abs_diff(y);
        x = x.min(y);
        y = rest >> rest.trailing_zeros();
    }
    x
}
