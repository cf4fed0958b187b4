// The scenarios of the vertices: their check, and the returns buffer.
ghost use Rattle.std.specs.Prelude.{◌≡◌, true, ◌+◌, ◌*◌, ◌≤◌, ◌<◌, length, is_ok};
ghost use Rattle.numbers.specs.Findings.{found, judged};
ghost use Rattle.numbers.specs.Buffers.{filled, placed};
ghost use Rattle.reading.specs.Parameters.{lookback};
ghost use Rattle.reading.specs.InnerContracts.{market_in};
ghost use Rattle.reading.specs.Vertices.{vertex_count};
ghost use Rattle.scenarios.specs.Scaled.{unscaled_from, scaled_from};
ghost use Rattle.scenarios.specs.Check.{series_good, returns_code, check_returns};
ghost use Rattle.scenarios.specs.Buffer.{returns_size, returns_entry};
ghost use Rattle.scenarios.specs.InnerContracts.{Simulated, returns_on};

use crate::history::{History, Series};
use crate::kind_size;
use crate::kinds::OutOfRange;
use numbers::Refusal;
use reading::passed::SoundMarket;
use reading::vertices::vertex_count;

impl History<'_> {
    // Every return, and every scaled scenario, lies in its range. A calm vertex needs neither returns nor roots.
    fn check(&self) -> Result<(), OutOfRange>
        ensures { is_ok result ≡ series_good self.now.parameters.bytes.now (returns_on self.now.parameters.bytes.now self.now.path.now) }
    {
        if self.is_calm() {
            return Ok(());
        }
        let mut series = Series::EMPTY;
        series.walk(self)?;
        let mut scaled = [0; 1024];
        series.put_scaled(self, &mut scaled)
    }

    // Puts the unscaled scenarios at entry `at`, and the scaled ones at entry `half + at`. All lie in their range, so both are `Ok`. The
    // buffer is lent whole, since the promise is of all of it.
    fn put(&self, at: usize, half: usize, out: &mut [i32])
        requires good { series_good self.now.parameters.bytes.now (returns_on self.now.parameters.bytes.now self.now.path.now) ≡ true }
        requires row { at + lookback self.now.parameters.bytes.now ≤ half }
        requires room { 2 * half ≤ length out.old }
        requires small { half ≤ 65536 }
        ensures { out.new ≡ placed (scaled_from self.now.parameters.bytes.now (returns_on self.now.parameters.bytes.now self.now.path.now)) (half + at) (lookback self.now.parameters.bytes.now)
            (placed (unscaled_from self.now.parameters.bytes.now (returns_on self.now.parameters.bytes.now self.now.path.now)) at (lookback self.now.parameters.bytes.now) out.old) }
    {
        let mut series = Series::EMPTY;
        let _ = series.walk(self);
        series.put_unscaled(self, &mut out[at..]);
        let _ = series.put_scaled(self, &mut out[half + at..]);
    }
}

// Vertex v.
fn check_vertex(m: &SoundMarket<'_>, v: usize) -> Result<(), Refusal>
    requires { v < vertex_count m.now.market.vertices.now }
    ensures { found result ≡ judged (returns_code (market_in m.now.market) v) v }
{
    History::of(m, v).check().map_err(|_| Refusal::Return(v))
}

// Refusal 21: the first vertex with a return out of its range.
pub(crate) fn check_returns(m: &SoundMarket<'_>) -> Result<(), Refusal>
    ensures { found result ≡ check_returns (market_in m.now.market) }
{
    for v in 0..vertex_count(m.market.vertices) {
        check_vertex(m, v)?;
    }
    Ok(())
}

// Fills the buffer with the returns of a market that passed.
pub(crate) fn fill(m: &SoundMarket<'_>, out: &mut [i32])
    requires passed { Simulated (market_in m.now.market) }
    requires room { returns_size (market_in m.now.market) ≤ length out.old }
    ensures { out.new ≡ filled (returns_entry (market_in m.now.market)) (returns_size (market_in m.now.market)) out.old }
{
    let lp = usize::from(m.parameters().lookback());
    let half = kind_size(m);
    for v in 0..vertex_count(m.market.vertices) {
        History::of(m, v).put(v * lp, half, out);
    }
}
