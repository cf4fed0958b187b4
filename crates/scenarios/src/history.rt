// A vertex's history: its prices, their returns and the variances of these.
ghost use Rattle.std.specs.Prelude.{◌≡◌, ◌+◌, ◌-◌, ◌*◌, ◌≤◌, ◌<◌, nat_abs, pos, length, get_or, is_ok};
ghost use Rattle.numbers.specs.Buffers.{filled};
ghost use Rattle.numbers.specs.Root.{root};
ghost use Rattle.reading.specs.Parameters.{history, lookback, smoothing};
ghost use Rattle.reading.specs.Vertices.{vertex_count};
ghost use Rattle.scenarios.specs.Returns.{return_of, return_count};
ghost use Rattle.scenarios.specs.Scaled.{unscaled_from, scaled_from};
ghost use Rattle.scenarios.specs.Volatility.{own_variance};
ghost use Rattle.scenarios.specs.InnerContracts.{path_of, returns_on, step_variance, SoundHistory, Stored, Held, Filled};

use crate::kinds::{OutOfRange, Return, Unscaled};
use crate::scaling::fill_scaled;
use reading::parameters::Parameters;
use reading::passed::SoundMarket;
use reading::prices::price_entry;

// The prices of a vertex, oldest first, and the parameters, which say how many they are.
#[derive(Clone, Copy)]
pub(crate) struct History<'a> {
    pub(crate) parameters: Parameters<'a>,
    pub(crate) path: &'a [u8],
    ghost sound: { SoundHistory parameters.bytes.now path.now },
}

// The returns of a history, oldest first, and the variance of each; a history has at most 1,279. The history goes beside it: a series is
// made empty, and `walk` fills it. Two arrays and not one of pairs: the last returns are handed out by one copy, as they stand, and a
// buffer of the unit holds returns alone.
#[derive(Drop)]
pub(crate) struct Series {
    pub(crate) returns: [i32; 1280],
    pub(crate) variances: [u64; 1280],
}

impl<'a> History<'a> {
    // The history of vertex v.
    pub(crate) fn of(m: &SoundMarket<'a>, v: usize) -> History<'a>
        requires { v < vertex_count m.now.market.vertices.now }
        ensures parameters { result.parameters.bytes.now ≡ m.now.market.parameters.now }
        ensures path { result.path.now ≡ path_of m.now.market.prices.now (history m.now.market.parameters.now) v }
    {
        let parameters = m.parameters();
        let n = parameters.history();
        History {
            parameters,
            path: numbers::part(m.market.prices, 4 * (v * n), 4 * n),
        }
    }

    // How many returns it has.
    pub(crate) fn count(&self) -> usize
        ensures { result ≡ return_count self.now.parameters.bytes.now }
    {
        usize::from(self.parameters.lookback()) + usize::from(self.parameters.warm_up())
    }
}

// The return from one price to a later one.
fn return_of(earlier: u32, later: u32) -> Return<Unscaled>
    requires { (1 ≤ earlier) × (earlier ≤ 2000000) × (later ≤ 2000000) }
    ensures { result.0 ≡ return_of earlier later }
{
    let change = i64::from(later) - i64::from(earlier);
    Return::of(numbers::nearest_signed(change * 1000000, u64::from(earlier)))
}

// A return's square × 10,000.
fn own_variance(r: Return<Unscaled>) -> u64
    requires { nat_abs r.0 ≤ 1000000 }
    ensures { (result ≡ own_variance r.0) × (result ≤ 10000000000000000) }
{
    let size = r.0.unsigned_abs();
    size * size * 10000
}

// The variance of return j, from the variance before; the first has none before it, and j tells so: an Option would tell it again.
fn variance_at(j: usize, factor: u64, before: u64, r: Return<Unscaled>) -> u64
    requires { (factor ≤ 999) × (before ≤ 10000000000000000) × (nat_abs r.0 ≤ 1000000) }
    ensures { (result ≡ step_variance factor j before r.0) × (result ≤ 10000000000000000) }
{
    let own = own_variance(r);
    if j == 0 {
        own
    } else {
        (factor * before + (1000 - factor) * own) / 1000
    }
}

impl Series {
    // Nothing stored yet.
    pub(crate) const EMPTY: Series = Series {
        returns: [0; 1280],
        variances: [0; 1280],
    };

    // The returns and variances of a history, up to the first return that is out of its range. Put by index: of what goes through `iter_mut`
    // a proof knows nothing.
    pub(crate) fn walk(&mut self, history: &History<'_>) -> Result<(), OutOfRange>
        ensures { Stored (is_ok result) (smoothing history.now.parameters.bytes.now) (returns_on history.now.parameters.bytes.now history.now.path.now) (return_count history.now.parameters.bytes.now) self.old.returns self.new.returns self.old.variances self.new.variances }
    {
        let factor = u64::from(history.parameters.smoothing());
        let hp = usize::from(history.parameters.holding_period());
        let path = history.path;
        let mut variance = 0;
        for j in 0..history.count() {
            let r = return_of(price_entry(path, j), price_entry(path, j + hp));
            self.returns[j] = r.stored()?;
            variance = variance_at(j, factor, variance, r);
            self.variances[j] = variance;
        }
        Ok(())
    }

    // The newest volatility, from the variances of all returns.
    fn newest_volatility(&self, history: &History<'_>) -> u64
        ensures { result ≡ root (get_or self.now.variances (return_count history.now.parameters.bytes.now - 1) 0) }
    {
        numbers::root_of(self.variances[history.count() - 1])
    }

    // The unscaled scenarios: the last LP returns.
    pub(crate) fn put_unscaled(&self, history: &History<'_>, out: &mut [i32])
        requires { lookback history.now.parameters.bytes.now ≤ length out.old }
        ensures { out.new ≡ filled (unscaled_from history.now.parameters.bytes.now (λ j. get_or self.now.returns j (pos 0))) (lookback history.now.parameters.bytes.now) out.old }
    {
        let first = usize::from(history.parameters.warm_up());
        let n = usize::from(history.parameters.lookback());
        out[..n].copy_from_slice(&self.returns[first..first + n]);
    }

    // The scaled scenarios, up to the first that is out of its range.
    pub(crate) fn put_scaled(
        &self,
        history: &History<'_>,
        out: &mut [i32],
    ) -> Result<(), OutOfRange>
        requires held { Held history.now.parameters.bytes.now self.now.returns self.now.variances }
        requires room { lookback history.now.parameters.bytes.now ≤ length out.old }
        ensures { Filled (is_ok result) (scaled_from history.now.parameters.bytes.now (λ j. get_or self.now.returns j (pos 0))) (lookback history.now.parameters.bytes.now) out.old out.new }
    {
        let newest = self.newest_volatility(history);
        let first = usize::from(history.parameters.warm_up());
        let n = first + usize::from(history.parameters.lookback());
        fill_scaled(
            &self.returns[first..n],
            &self.variances[first..n],
            newest,
            out,
        )
    }
}
