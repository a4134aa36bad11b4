ghost use Rattle.std.specs.Prelude.{◌≡◌, ◌+ℤ◌, ◌-ℤ◌, ◌*ℤ◌, neg_ℤ};
ghost use Rattle.ql_value.specs.Saturating.{saturated};

/// The sum, or the nearer end of the range if it overflows.
pub fn sat_add(a: i64, b: i64) -> i64
    ensures { result ≡ saturated (a +ℤ b) }
{
    a.saturating_add(b)
}

/// The difference, or the nearer end of the range if it overflows.
pub fn sat_sub(a: i64, b: i64) -> i64
    ensures { result ≡ saturated (a -ℤ b) }
{
    a.saturating_sub(b)
}

/// The product, or the nearer end of the range if it overflows.
pub fn sat_mul(a: i64, b: i64) -> i64
    ensures { result ≡ saturated (a *ℤ b) }
{
    a.saturating_mul(b)
}

/// The number with the opposite sign, or the upper end of the range if it overflows.
pub fn sat_neg(a: i64) -> i64
    ensures { result ≡ saturated (neg_ℤ a) }
{
    a.saturating_neg()
}
