// The bonds' fields, refusals 10 to 12, and a bond's flows.
ghost use Rattle.std.specs.Prelude.{◌≡◌, ◌+◌, ◌*◌, ◌≤◌, ◌<◌, length};
ghost use Rattle.numbers.specs.Findings.{found, judged};
ghost use Rattle.numbers.specs.Items.{first_failing};
ghost use Rattle.numbers.specs.Buffers.{PartOf};
ghost use Rattle.reading.specs.Bonds.{bond_count, bond_curve, bond_zero, dirty_price, first_flow, flow_count_of, flow_total, bond_code, check_bonds};
ghost use Rattle.reading.specs.InnerContracts.{EndsTotal, flows_start};
ghost use Rattle.reading.specs.Stretch.{flows_of};

use crate::records::whole;
use crate::vertices::curves;
use numbers::Refusal;

// A bond: its curve, whether the three bytes behind that are 0, its dirty price in millionths of nominal, the index of its first flow
// among all flows, and how many it has.
#[derive(Clone, Copy, Debug, PartialEq, Eq)]
pub struct Bond {
    pub curve: u8,
    pub zero: bool,
    pub dirty_price: u32,
    pub first_flow: u32,
    pub flow_count: u32,
}

// How many records the section has. `count::<SIZE>` for all sections is no plainer: each call would name the size.
pub fn bond_count(bonds: &[u8]) -> usize
    ensures { result ≡ bond_count bonds.now }
{
    bonds.len() / 16
}

impl Bond {
    ghost use Rattle.reading.specs.InnerContracts.{terms_held, counts_held, code_held};

    // Bond i.
    pub fn at(bonds: &[u8], i: usize) -> Bond
        requires { 16 * i + 16 ≤ length bonds.now }
        ensures curve { result.curve ≡ bond_curve bonds.now i }
        ensures zero { result.zero ≡ bond_zero bonds.now i }
        ensures dirty_price { result.dirty_price ≡ dirty_price bonds.now i }
        ensures first_flow { result.first_flow ≡ first_flow bonds.now i }
        ensures flow_count { result.flow_count ≡ flow_count_of bonds.now i }
    {
        Bond {
            curve: bonds[16 * i],
            zero: (bonds[16 * i + 1] == 0) & ((bonds[16 * i + 2] == 0) & (bonds[16 * i + 3] == 0)),
            dirty_price: numbers::u32_at(bonds, 16 * i + 4),
            first_flow: numbers::u32_at(bonds, 16 * i + 8),
            flow_count: numbers::u32_at(bonds, 16 * i + 12),
        }
    }

    // The zero bytes are 0, the price lies in its range.
    fn has_terms(self) -> bool
        ensures { result ≡ terms_held self }
    {
        self.zero & (1..=2000000).contains(&self.dirty_price)
    }

    // The first flow is `start`, its own count lies in its range.
    fn has_counts(self, start: u64) -> bool
        ensures { result ≡ counts_held start self }
    {
        (u64::from(self.first_flow) == start) & (1..=120).contains(&self.flow_count)
    }

    // As bond i. `known` says whether some vertex has its curve, `start` how many flows all bonds before have.
    fn check(self, i: usize, known: bool, start: u64) -> Result<(), Refusal>
        ensures { found result ≡ judged (code_held known start self) i }
    {
        if !(known & self.has_terms()) {
            return Err(Refusal::Bond(i));
        }
        if !self.has_counts(start) {
            return Err(Refusal::BondFlows(i));
        }
        Ok(())
    }
}

// The first bad bond of n.
fn check_each(vertices: &[u8], bonds: &[u8], n: usize) -> Result<(), Refusal>
    requires lie { 16 * n ≤ length bonds.now }
    requires few { n ≤ 1024 }
    ensures { found result ≡ first_failing (bond_code vertices.now bonds.now) n 0 }
{
    let seen = curves(vertices);
    let mut start = 0;
    for i in 0..n {
        let own = Bond::at(bonds, i);
        let known = seen[usize::from(own.curve)];
        own.check(i, known, start)?;
        start += u64::from(own.flow_count);
    }
    Ok(())
}

// Refusals 10, 11 and 12. Here and below just the sections that are read are asked for, and no market.
pub(crate) fn check_bonds(vertices: &[u8], bonds: &[u8]) -> Result<(), Refusal>
    ensures { found result ≡ check_bonds vertices.now bonds.now }
{
    if !whole::<16>(bonds, 1, 1024) {
        return Err(Refusal::BondCount);
    }
    check_each(vertices, bonds, bond_count(bonds))
}

// The flows of all bonds: the last one tells, since each starts where the one before it ended.
pub(crate) fn flow_total(bonds: &[u8]) -> u64
    requires { EndsTotal bonds.now }
    ensures value { result ≡ flow_total bonds.now }
    ensures bound { result < 8589934592 }
{
    let last = Bond::at(bonds, bond_count(bonds) - 1);
    u64::from(last.first_flow) + u64::from(last.flow_count)
}

// The part of the flows' section that holds bond i's flows.
pub fn flows_of<'a>(bonds: &[u8], flows: &'a [u8], i: usize) -> &'a [u8]
    requires { 16 * i + 16 ≤ length bonds.now }
    ensures { PartOf flows.entry result (flows_start bonds.now flows.now i) (flows_of bonds.now flows.now i) }
{
    let own = Bond::at(bonds, i);
    // no From leads from u32 to usize; a TryFrom would be unwrapped
    let start = own.first_flow as usize * 8;
    let size = own.flow_count as usize * 8;
    numbers::part(flows, start, size)
}
