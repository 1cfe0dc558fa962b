//! Checks that an int is within 64 bits, for results that can leave them.

ghost use Rattle.std.specs.Prelude.{◌≡◌};
ghost use Rattle.star_store.specs.Arithmetic.{checked};

use star_store::fault::StoreFault;

/// An int of 64 bits. `Overflow` for another one.
pub fn narrow(int: i128) -> Result<i64, StoreFault>
    ensures { result ≡ checked int }
{
    if int < i64::MIN as i128 || int > i64::MAX as i128 {
        return Err(StoreFault::Overflow);
    }
    Ok(int as i64)
}
