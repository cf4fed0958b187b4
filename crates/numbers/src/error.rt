// Why a book, the buffers lent with it, a bond's terms or index prices are refused.
ghost use Rattle.std.specs.Prelude.{◌≡◌, Some};
ghost use Rattle.numbers.specs.Findings.{number_of, item_of, refusal_text};

use std::fmt;

// The refusals in the order of their numbers. Where a vertex, a bond or a position is at fault, its index is given.
#[derive(Clone, Copy, Debug, PartialEq, Eq)]
pub enum Refusal {
    ShortBook,
    Directory,
    ParameterBytes,
    ParameterRange,
    TailCount,
    VertexCount,
    Vertex(usize),
    PriceCount,
    Price(usize),
    BondCount,
    Bond(usize),
    BondFlows(usize),
    FlowCount,
    FlowDays(usize),
    FlowAmounts(usize),
    Worthless(usize),
    PositionCount,
    PositionBond(usize),
    Nominal(usize),
    TotalValue,
    Return(usize),
    ExposureBuffer,
    ReturnBuffer,
    ListBuffer,
    OutsideCalendar,
    MaturityNotAfter,
    BondTerms,
    IndexPrice,
    IndexMonth,
    IndexedCoupon,
}

impl Refusal {
    // Its number, 1 to 30.
    pub fn number(self) -> u64
        ensures { result ≡ number_of self }
    {
        match self {
            Refusal::ShortBook => 1,
            Refusal::Directory => 2,
            Refusal::ParameterBytes => 3,
            Refusal::ParameterRange => 4,
            Refusal::TailCount => 5,
            Refusal::VertexCount => 6,
            Refusal::Vertex(_) => 7,
            Refusal::PriceCount => 8,
            Refusal::Price(_) => 9,
            Refusal::BondCount => 10,
            Refusal::Bond(_) => 11,
            Refusal::BondFlows(_) => 12,
            Refusal::FlowCount => 13,
            Refusal::FlowDays(_) => 14,
            Refusal::FlowAmounts(_) => 15,
            Refusal::Worthless(_) => 16,
            Refusal::PositionCount => 17,
            Refusal::PositionBond(_) => 18,
            Refusal::Nominal(_) => 19,
            Refusal::TotalValue => 20,
            Refusal::Return(_) => 21,
            Refusal::ExposureBuffer => 22,
            Refusal::ReturnBuffer => 23,
            Refusal::ListBuffer => 24,
            Refusal::OutsideCalendar => 25,
            Refusal::MaturityNotAfter => 26,
            Refusal::BondTerms => 27,
            Refusal::IndexPrice => 28,
            Refusal::IndexMonth => 29,
            Refusal::IndexedCoupon => 30,
        }
    }

    // The index of the vertex, the bond or the position that is at fault, or 0 where it is none.
    pub fn item(self) -> u64
        ensures { result ≡ item_of self }
    {
        // no From leads from usize to u64; a TryFrom would be unwrapped
        match self {
            Refusal::Vertex(item)
            | Refusal::Price(item)
            | Refusal::Bond(item)
            | Refusal::BondFlows(item)
            | Refusal::FlowDays(item)
            | Refusal::FlowAmounts(item)
            | Refusal::Worthless(item)
            | Refusal::PositionBond(item)
            | Refusal::Nominal(item)
            | Refusal::Return(item) => item as u64,
            _ => 0,
        }
    }
}

impl fmt::Display for Refusal {
    ghost output = { λ refusal. Some (refusal_text refusal) };

    fn fmt<W: fmt::Write>(&self, f: &mut fmt::Formatter<W>) -> fmt::Result {
        let number = self.number();
        let item = self.item();
        write!(f, "refused {number} {item}")
    }
}
