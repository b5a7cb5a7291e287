// Whole numbers, after "Binary arithmetic operations" and "The power operator" of the Python language reference.
ghost use Rattle.std.specs.Prelude.{◌≡◌, ◌≢◌, pos, ℤ, neg_ℤ, ◌+ℤ◌, ◌-ℤ◌, ◌*ℤ◌, ◌≤ℤ◌};
ghost use Rattle.std.specs.Int.RustNames.{unsigned_abs};
ghost use Rattle.std.specs.Int.{int_pow};
ghost use Rattle.py_scalars.specs.Exact.{exact, divided, floor_quotient, floor_remainder, IsWithin};

/// Why there is no result: the divisor is 0, or the exact result is outside i128.
#[derive(Clone, Copy, Debug, PartialEq, Eq)]
pub enum NumFault {
    ZeroDiv,
    Range,
}

/// `Range` exactly where the exact sum is outside i128. Takes no memory.
pub fn add(a: i128, b: i128) -> Result<i128, NumFault>
    ensures { result ≡ exact (a +ℤ b) }
{
    a.checked_add(b).ok_or(NumFault::Range)
}

/// `Range` exactly where the exact difference is outside i128. Takes no memory.
pub fn sub(a: i128, b: i128) -> Result<i128, NumFault>
    ensures { result ≡ exact (a -ℤ b) }
{
    a.checked_sub(b).ok_or(NumFault::Range)
}

/// `Range` exactly where the exact product is outside i128. Takes no memory.
pub fn mul(a: i128, b: i128) -> Result<i128, NumFault>
    ensures { result ≡ exact (a *ℤ b) }
{
    a.checked_mul(b).ok_or(NumFault::Range)
}

/// `Range` for the least i128 alone. Takes no memory.
pub fn negate(a: i128) -> Result<i128, NumFault>
    ensures { result ≡ exact (neg_ℤ a) }
{
    a.checked_neg().ok_or(NumFault::Range)
}

/// The quotient rounded towards minus infinity. `ZeroDiv` exactly where the divisor is 0, and `Range` only for the least
/// i128 by -1. Takes no memory.
pub fn floor_div(a: i128, b: i128) -> Result<i128, NumFault>
    ensures { result ≡ divided b (floor_quotient a b) }
{
    if b == 0 {
        return Err(NumFault::ZeroDiv);
    }
    let Some(quotient) = a.checked_div_euclid(b) else {
        return Err(NumFault::Range);
    };
    if b > 0 {
        return Ok(quotient);
    }
    if a.wrapping_rem_euclid(b) == 0 {
        return Ok(quotient);
    }
    quotient.checked_sub(1).ok_or(NumFault::Range)
}

/// What the quotient of `floor_div` leaves: it is 0 or has the divisor's sign. `ZeroDiv` exactly where the divisor is 0,
/// and no other fault: the least i128 by -1 leaves 0. Takes no memory.
pub fn modulo(a: i128, b: i128) -> Result<i128, NumFault>
    ensures { result ≡ divided b (floor_remainder a b) }
{
    if b == 0 {
        return Err(NumFault::ZeroDiv);
    }
    if b == -1 {
        return Ok(0);
    }
    let rest = a.rem_euclid(b);
    if b > 0 {
        return Ok(rest);
    }
    if rest == 0 {
        return Ok(rest);
    }
    Ok(rest + b)
}

/// A number to a whole power, by squaring; `power(0, 0)` is 1. `Range` exactly where the exact power is outside i128.
/// Takes no memory, and takes at most 8 squarings.
pub fn power(a: i128, b: i128) -> Result<i128, NumFault>
    requires { pos 0 ≤ℤ b }
    ensures { result ≡ exact (int_pow a (unsigned_abs b)) }
{
    if b < 128 {
        return a.checked_pow(b as u32).ok_or(NumFault::Range);
    }
    if a == 0 {
        return Ok(0);
    }
    if a == 1 {
        return Ok(1);
    }
    if a != -1 {
        return Err(NumFault::Range);
    }
    if b as u128 % 2 == 0 {
        return Ok(1);
    }
    Ok(-1)
}

/// The law of `floor_div` and `modulo`: for a divisor other than 0, the quotient times the divisor and the rest make the
/// dividend, and the rest is 0 or has the divisor's sign and is nearer to 0 than it.
pub fn division_law()
    ensures whole { (a b : ℤ) → floor_quotient a b *ℤ b +ℤ floor_remainder a b ≡ a }
    ensures rest { (a b : ℤ) → b ≢ pos 0 → IsWithin b (floor_remainder a b) }
{}
