//! The arithmetic of ints of 64 bits: exact, or `Overflow`.

ghost use Rattle.std.specs.Prelude.{◌≡◌, ◌≢◌, ◌<◌, ◌^◌, ◌+ℤ◌, ◌-ℤ◌, ◌*ℤ◌, ◌≤ℤ◌, ◌<ℤ◌, neg_ℤ, pos, unsigned_abs};
ghost use Rattle.star_store.specs.Arithmetic.{checked, floored, left_by, left_over};

use crate::fault::StoreFault;

/// The sum. `Overflow` if it is outside 64 bits.
#[inline(always)]
pub fn add(x: i64, y: i64) -> Result<i64, StoreFault>
    ensures { result ≡ checked (x +ℤ y) }
{
    x.checked_add(y).ok_or(StoreFault::Overflow)
}

/// The difference. `Overflow` if it is outside 64 bits.
#[inline(always)]
pub fn sub(x: i64, y: i64) -> Result<i64, StoreFault>
    ensures { result ≡ checked (x -ℤ y) }
{
    x.checked_sub(y).ok_or(StoreFault::Overflow)
}

/// The product. `Overflow` if it is outside 64 bits.
#[inline(always)]
pub fn mul(x: i64, y: i64) -> Result<i64, StoreFault>
    ensures { result ≡ checked (x *ℤ y) }
{
    x.checked_mul(y).ok_or(StoreFault::Overflow)
}

/// The negative. `Overflow` for the least int.
pub fn neg(x: i64) -> Result<i64, StoreFault>
    ensures { result ≡ checked (neg_ℤ x) }
{
    x.checked_neg().ok_or(StoreFault::Overflow)
}

/// The quotient, rounded down. `Overflow` for the least int by -1.
#[inline(always)]
#[tactic(auto, using(crate::proofs::Ints::floored_up))]
pub fn floor_div(x: i64, y: i64) -> Result<i64, StoreFault>
    requires { y ≢ pos 0 }
    ensures { result ≡ checked (floored x y) }
{
    if y > 0 {
        return whole(x.div_euclid(y));
    }
    narrow(quotient_turned(x, y))
}

/// The quotient by a divisor below 0, rounded down: the quotient of both ints with their signs turned.
#[tactic(auto, using(crate::proofs::Ints::floored_down))]
fn quotient_turned(x: i64, y: i64) -> i128
    requires { y <ℤ pos 0 }
    ensures { result ≡ floored x y }
{
    let (x, y) = (-(x as i128), -(y as i128));
    x.div_euclid(y)
}

/// An int of 64 bits fits.
fn whole(x: i64) -> Result<i64, StoreFault>
    ensures { result ≡ checked x }
{
    Ok(x)
}

/// An int of 64 bits. `Overflow` for another one.
pub fn narrow(x: i128) -> Result<i64, StoreFault>
    ensures { result ≡ checked x }
{
    if x < i64::MIN as i128 || x > i64::MAX as i128 {
        return Err(StoreFault::Overflow);
    }
    Ok(x as i64)
}

/// The remainder of the quotient that is rounded down: it has the sign of the divisor. `Overflow` if it is outside 64
/// bits.
#[inline(always)]
#[tactic(auto, using(crate::proofs::Ints::left_up, crate::proofs::Ints::left_below))]
pub fn floor_mod(x: i64, y: i64) -> Result<i64, StoreFault>
    requires { y ≢ pos 0 }
    ensures { result ≡ checked (left_over x y) }
{
    if y > 0 {
        return whole(x.rem_euclid(y));
    }
    narrow(-(remainder_turned(x, y) as i128))
}

/// The remainder by a divisor below 0, with both signs turned.
#[tactic(auto, using(crate::proofs::Ints::left_turned))]
fn remainder_turned(x: i64, y: i64) -> u64
    requires { y <ℤ pos 0 }
    ensures { result ≡ left_by (neg_ℤ x) (unsigned_abs y) }
{
    let (x, y) = (-(x as i128), -(y as i128));
    x.rem_euclid(y) as u64
}

/// The int, doubled `count` times. `Overflow` if the result is outside 64 bits.
#[tactic(auto, using(crate::proofs::Ints::doubled_out))]
pub fn shl(x: i64, count: i64) -> Result<i64, StoreFault>
    requires { pos 0 ≤ℤ count }
    ensures { result ≡ checked (x *ℤ pos (2 ^ unsigned_abs count)) }
{
    let count = count.unsigned_abs();
    if x == 0 {
        return Ok(0);
    }
    if count < 63 {
        return mul(x, power_of_two(count));
    }
    if count > 63 {
        return Err(StoreFault::Overflow);
    }
    shl_63(x)
}

/// The int, if it is not 0, doubled 63 times.
#[tactic(auto, using(crate::proofs::Ints::doubled_far))]
fn shl_63(x: i64) -> Result<i64, StoreFault>
    requires { x ≢ pos 0 }
    ensures { result ≡ checked (x *ℤ pos (2 ^ 63)) }
{
    if x == -1 {
        return Ok(i64::MIN);
    }
    Err(StoreFault::Overflow)
}

#[tactic(auto, using(crate::proofs::Ints::power_fits))]
fn power_of_two(n: u64) -> i64
    requires { n < 63 }
    ensures { result ≡ pos (2 ^ n) }
{
    2i64.pow(n as u32)
}
