// Scaled returns.
ghost use Rattle.std.specs.Prelude.{◌≡◌, ◌+◌, ◌-◌, ◌*◌, ◌≤◌, ◌<◌, nat_abs, length, is_ok};
ghost use Rattle.scenarios.specs.Scaled.{scaled_of};
ghost use Rattle.scenarios.specs.InnerContracts.{scaled_entry, Scalable, Filled};

use crate::kinds::{OutOfRange, Return, Scaled, Unscaled};

// A return scaled by the newest volatility and its own.
fn scaled_of(r: Return<Unscaled>, newest: u64, own: u64) -> Return<Scaled>
    requires { (nat_abs r.0 ≤ 1000000) × (newest ≤ 100000000) × (own ≤ 100000000) }
    ensures { result.0 ≡ scaled_of r.0 newest own }
{
    if own == 0 {
        Return::of(0)
    } else {
        // no From leads from u64 to i64; a TryFrom would be unwrapped
        Return::of(numbers::nearest_signed(r.0 * ((newest + own) as i64), 2 * own))
    }
}

// The scaled returns of a vertex's returns and variances, up to the first that is out of its range. Put by index: of what goes through
// `iter_mut` a proof knows nothing.
pub(crate) fn fill_scaled(
    returns: &[i32],
    variances: &[u64],
    newest: u64,
    out: &mut [i32],
) -> Result<(), OutOfRange>
    requires { Scalable returns.now variances.now newest out.old }
    ensures { Filled (is_ok result) (scaled_entry returns.now variances.now newest) (length returns.now) out.old out.new }
{
    for s in 0..returns.len() {
        let r = Return::<Unscaled>::of(i64::from(returns[s]));
        let x = scaled_of(r, newest, numbers::root_of(variances[s]));
        out[s] = x.stored()?;
    }
    Ok(())
}
