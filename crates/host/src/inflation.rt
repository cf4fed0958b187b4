// Inflation bonds, for hosts in C and Rust.
ghost use Rattle.calendar.specs.Dates.{date};
ghost use Rattle.host.specs.HandedFlows.{terms};
ghost use Rattle.host.specs.HandedLinkers.{linker, HandedLinkers};

use crate::{date, flows_code};
use linkers::Linker;
use schedule::Terms;

// Writes the flows of an inflation bond from its terms and index prices, as the book's flow records. The number of flows; or
// number × 65,536 + item, and nothing changed. It is a BTP Italia where `btp_italia` is not 0.
#[unsafe(no_mangle)]
pub extern "C" fn margin_unit_linker_flows(
    evaluation_year: u32,
    evaluation_month: u32,
    evaluation_day: u32,
    issue_year: u32,
    issue_month: u32,
    issue_day: u32,
    maturity_year: u32,
    maturity_month: u32,
    maturity_day: u32,
    rate: u32,
    frequency: u32,
    btp_italia: u32,
    prices: &[u32],
    flows: &mut [u8],
) -> u32
    ensures { HandedLinkers (linker (terms (date maturity_year maturity_month maturity_day) rate frequency) (date issue_year issue_month issue_day) btp_italia) (date evaluation_year evaluation_month evaluation_day) prices.now flows.old result flows.new }
{
    let evaluation = date(evaluation_year, evaluation_month, evaluation_day);
    let terms = Terms {
        maturity: date(maturity_year, maturity_month, maturity_day),
        rate,
        frequency,
    };
    let linker = Linker {
        terms,
        issue: date(issue_year, issue_month, issue_day),
        btp_italia: btp_italia != 0,
    };
    flows_code(linkers::flows(linker, evaluation, prices, flows))
}
