// T, U, D and M by returns of one kind.
ghost use Rattle.reading.specs.Book.{market_of};
ghost use Rattle.margin.specs.InnerContracts.{Ready, ChargeDone};

use crate::Charge;
use crate::amounts::from_pnls;
use crate::measure::Measure;
use scenarios::kinds::Kind;
use tails::rows::Rows;

// From the exposures and the returns, LP a vertex. The list stands from entry `at` on: the buffer is lent whole, since the promise is of
// all of it.
pub(crate) fn charge<K: Kind>(
    rows: &Rows<K>,
    measure: &Measure<'_>,
    at: usize,
    list: &mut [u16],
) -> Charge
    requires { Ready measure.now.parameters.bytes.now rows.now.lp at list.old }
    ensures { ChargeDone (K.returns (market_of rows.now.book.now)) measure.now.parameters.bytes.now rows.now.exposures.now at list.old result list.new }
{
    let mut sums = [0i64; 1024];
    rows.pnls(&mut sums[..rows.lp]);
    let alone = rows.undiversified(measure.mode, measure.k);
    from_pnls(measure, &sums[..rows.lp], alone.sum, at, list)
}
