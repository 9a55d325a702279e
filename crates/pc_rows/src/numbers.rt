//! Sums and multiples of numbers by place.

ghost use Rattle.std.specs.Prelude.{OkIff};
ghost use Rattle.pc_rows.specs.Linear.{AllInRange, add_lists, scale_list};

use crate::number::{Number, Past};

/// The sums by place. `Past` exactly where one of them is not in range.
pub fn sums<const N: usize>(a: &[Number; N], b: &[Number; N]) -> Result<[Number; N], Past>
    ensures { OkIff result (AllInRange (add_lists a.now b.now)) (add_lists a.now b.now) }
{
    let mut all = *a;
    for v in 0..N {
        all[v] = a[v].plus(b[v])?;
    }
    Ok(all)
}

/// Each number times `k`. `Past` exactly where one of the products is not in range.
pub fn products<const N: usize>(k: Number, a: &[Number; N]) -> Result<[Number; N], Past>
    ensures { OkIff result (AllInRange (scale_list k a.now)) (scale_list k a.now) }
{
    let mut all = *a;
    for v in 0..N {
        all[v] = k.times(a[v])?;
    }
    Ok(all)
}
