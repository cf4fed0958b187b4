// The unit for hosts in C and Rust: numbers and slices alone cross the boundary.
#![tactic(auto)]

pub mod inflation;

ghost use Rattle.std.specs.Prelude.{◌≡◌, ◌+◌, ◌*◌, ◌<◌};
ghost use Rattle.numbers.specs.Findings.{number_of, item_of};
ghost use Rattle.margin.specs.Run.{values_of};
ghost use Rattle.host.specs.Handed.{Handed};
ghost use Rattle.calendar.specs.Dates.{date};
ghost use Rattle.schedule.specs.Drawn.{outcome_of};
ghost use Rattle.linkers.specs.Exactly.{Ranged};
ghost use Rattle.host.specs.HandedFlows.{terms, flows_code, HandedFlows};
ghost use Rattle.host.specs.Version.{interface_version};

use calendar::Date;
use margin::Figures;
use numbers::Refusal;
use schedule::Terms;

const VERSION: u32 = 1;

// Which interface the library has: a host compares it with the number that it was built with.
#[unsafe(no_mangle)]
pub extern "C" fn margin_unit_version() -> u32
    ensures { result ≡ interface_version }
{
    VERSION
}

// The ten figures: k, then T, U, D and M unscaled, then scaled, then the margin in euros.
fn put_figures(f: Figures, out: &mut [u64; 10])
    ensures { out.new ≡ values_of f }
{
    let one = f.unscaled;
    let other = f.scaled;
    *out = [
        f.k,
        one.tail,
        one.undiversified,
        one.addon,
        one.total,
        other.tail,
        other.undiversified,
        other.addon,
        other.total,
        f.euros,
    ];
}

// A refusal as one number: its own above sixteen bits of item.
fn packed(refusal: Refusal) -> u32
    requires { number_of refusal * 65536 + item_of refusal < 4294967296 }
    ensures { result ≡ number_of refusal * 65536 + item_of refusal }
{
    // no From leads from u64 to u32; a TryFrom would be unwrapped
    (refusal.number() * 65536 + refusal.item()) as u32
}

// Runs a book to its margin. 0 where it is accepted, and the figures; else number × 65,536 + item, and nothing changed. It hands out a
// number and no Result, since C's callers read it: include/margin_unit.h says how.
#[unsafe(no_mangle)]
pub extern "C" fn margin_unit_run(
    book: &[u8],
    exposures: &mut [i64],
    returns: &mut [i32],
    list: &mut [u16],
    figures: &mut [u64; 10],
) -> u32
    ensures { Handed book.now exposures.old returns.old list.old figures.old result exposures.new returns.new list.new figures.new }
{
    match margin::run(book, exposures, returns, list) {
        Err(refusal) => packed(refusal),
        Ok(f) => {
            put_figures(f, figures);
            0
        }
    }
}

// A date, from its three numbers.
fn date(year: u32, month: u32, day: u32) -> Date
    ensures { result ≡ date year month day }
{
    Date { year, month, day }
}

// How many flows there are, or a refusal as one number.
fn flows_code(answer: Result<u64, Refusal>) -> u32
    requires { Ranged (outcome_of answer) }
    ensures { result ≡ flows_code (outcome_of answer) }
{
    match answer {
        Err(reason) => packed(reason),
        // no From leads from u64 to u32; a TryFrom would be unwrapped
        Ok(count) => count as u32,
    }
}

// Writes the flows of a bond from its terms, as the book's flow records. The number of flows; or number × 65,536 + item, and nothing
// changed. Dates and terms come in number by number, and one number goes out, since include/margin_unit.h gives C's callers that form.
#[unsafe(no_mangle)]
pub extern "C" fn margin_unit_flows(
    evaluation_year: u32,
    evaluation_month: u32,
    evaluation_day: u32,
    maturity_year: u32,
    maturity_month: u32,
    maturity_day: u32,
    rate: u32,
    frequency: u32,
    flows: &mut [u8],
) -> u32
    ensures { HandedFlows (terms (date maturity_year maturity_month maturity_day) rate frequency) (date evaluation_year evaluation_month evaluation_day) flows.old result flows.new }
{
    let evaluation = date(evaluation_year, evaluation_month, evaluation_day);
    let maturity = date(maturity_year, maturity_month, maturity_day);
    let terms = Terms {
        maturity,
        rate,
        frequency,
    };
    flows_code(schedule::flows(terms, evaluation, flows))
}
