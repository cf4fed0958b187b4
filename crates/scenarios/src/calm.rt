// Calm vertices: their prices move so little that no return and no scaled return can leave its range.
ghost use Rattle.std.specs.Prelude.{◌≡◌, ◌+◌, ◌-◌, ◌*◌, ◌≤◌};
ghost use Rattle.reading.specs.Parameters.{holding_period, smoothing};
ghost use Rattle.reading.specs.Prices.{price_entry};
ghost use Rattle.scenarios.specs.InnerContracts.{calm_bound, calm_move, is_calm};
ghost use Rattle.scenarios.specs.Returns.{return_count};

use crate::history::History;
use reading::prices::price_entry;

// The size, in millionths, up to which a vertex's returns leave it calm.
fn calm_bound(factor: u16) -> u64
    requires { factor ≤ 999 }
    ensures { (result ≡ calm_bound factor) × (result ≤ 1000000) }
{
    10000 * numbers::root_of(10 * (1000 - u64::from(factor)))
}

// Whether a price lies within bound millionths of an earlier one: no division.
fn calm_move(bound: u64, earlier: u32, later: u32) -> bool
    requires { (bound ≤ 1000000) × (earlier ≤ 2000000) × (later ≤ 2000000) }
    ensures { result ≡ calm_move bound earlier later }
{
    let (earlier, later) = (u64::from(earlier), u64::from(later));
    (later * 1000000 <= earlier * (1000000 + bound))
        & (earlier * (1000000 - bound) <= later * 1000000)
}

impl History<'_> {
    // Whether each price lies within the calm bound of the price hp entries before it.
    pub(crate) fn is_calm(&self) -> bool
        ensures { result ≡ is_calm (calm_bound (smoothing self.now.parameters.bytes.now)) (price_entry self.now.path.now) (holding_period self.now.parameters.bytes.now) (return_count self.now.parameters.bytes.now) }
    {
        let bound = calm_bound(self.parameters.smoothing());
        let hp = usize::from(self.parameters.holding_period());
        let path = self.path;
        // (`all` of the range takes half as long again as this loop)
        for j in 0..self.count() {
            if !calm_move(bound, price_entry(path, j), price_entry(path, j + hp)) {
                return false;
            }
        }
        true
    }
}
