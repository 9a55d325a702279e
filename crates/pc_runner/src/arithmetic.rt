//! Sums and products that stay in range.

ghost use Rattle.std.specs.Prelude.{◌≡◌, ◌+ℤ◌, ◌-ℤ◌, ◌*ℤ◌, neg_ℤ};
ghost use Rattle.pc_runner.specs.Checked.{fits};

use pc_text::Place;

/// The sum, or the place where it is not in range.
pub fn sum(a: i128, b: i128, place: Place) -> Result<i128, Place>
    ensures { result ≡ fits place (a +ℤ b) }
{
    match a.checked_add(b) {
        Some(n) if n != i128::MIN => Ok(n),
        _ => Err(place),
    }
}

/// The difference, or the place where it is not in range.
pub fn difference(a: i128, b: i128, place: Place) -> Result<i128, Place>
    ensures { result ≡ fits place (a -ℤ b) }
{
    match a.checked_sub(b) {
        Some(n) if n != i128::MIN => Ok(n),
        _ => Err(place),
    }
}

/// The product, or the place where it is not in range.
pub fn product(a: i128, b: i128, place: Place) -> Result<i128, Place>
    ensures { result ≡ fits place (a *ℤ b) }
{
    match a.checked_mul(b) {
        Some(n) if n != i128::MIN => Ok(n),
        _ => Err(place),
    }
}

/// The opposite, or the place where it is not in range.
pub fn opposite(a: i128, place: Place) -> Result<i128, Place>
    ensures { result ≡ fits place (neg_ℤ a) }
{
    match a.checked_neg() {
        Some(n) if n != i128::MIN => Ok(n),
        _ => Err(place),
    }
}
