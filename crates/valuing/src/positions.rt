// The positions' fields, values, and refusals 17 to 20.
ghost use Rattle.std.specs.Prelude.{◌≡◌, ◌+◌, ◌*◌, ◌≤◌, nat_abs, length};
ghost use Rattle.numbers.specs.Findings.{found, judged};
ghost use Rattle.numbers.specs.Items.{and_then, first_failing};
ghost use Rattle.valuing.specs.InnerContracts.{PricesIn, position_in};
ghost use Rattle.valuing.specs.Positions.{position_count, position_bond, position_nominal, position_at, value_of, value_total, position_code, total_finding, check_positions};

use numbers::Refusal;
use reading::bonds::{Bond, bond_count};
use reading::records::whole;

// A position: the index of its bond, and its nominal in euros, negative for short.
#[derive(Clone, Copy, Debug, PartialEq, Eq)]
pub struct Position {
    pub bond: u32,
    pub nominal: i64,
}

// How many records the section has. `count::<SIZE>` for all sections is no plainer: each call would name the size.
pub fn position_count(positions: &[u8]) -> usize
    ensures { result ≡ position_count positions.now }
{
    positions.len() / 12
}

impl Position {
    // Position p.
    pub fn at(positions: &[u8], p: usize) -> Position
        requires { 12 * p + 12 ≤ length positions.now }
        ensures bond { result.bond ≡ position_bond positions.now p }
        ensures nominal { result.nominal ≡ position_nominal positions.now p }
    {
        Position {
            bond: numbers::u32_at(positions, 12 * p),
            nominal: numbers::i64_at(positions, 12 * p + 4),
        }
    }

    // Its value at a dirty price.
    pub(crate) fn value(self, price: u32) -> i64
        requires nominal { nat_abs self.nominal ≤ 10000000000 }
        requires price { price ≤ 2000000 }
        ensures value { result ≡ value_of self.nominal price }
        ensures bound { nat_abs result ≤ 20000000000 }
    {
        numbers::nearest_signed(self.nominal * i64::from(price), 1000000)
    }
}

// Position p: its bond is known, and its nominal in its range.
fn check_position(bonds: &[u8], own: Position, p: usize) -> Result<(), Refusal>
    ensures { found result ≡ judged (position_code bonds.now (position_in own)) p }
{
    // no From leads from u32 to usize; a TryFrom would be unwrapped
    if bond_count(bonds) <= own.bond as usize {
        return Err(Refusal::PositionBond(p));
    }
    if 10000000000 < own.nominal.unsigned_abs() {
        return Err(Refusal::Nominal(p));
    }
    Ok(())
}

// Refusal 20, by the total of the values' sizes.
fn check_total(sizes: u64) -> Result<(), Refusal>
    ensures { found result ≡ total_finding sizes }
{
    if 100000000000 < sizes {
        return Err(Refusal::TotalValue);
    }
    Ok(())
}

// Refusals 18 and 19, the first bad position of n, and 20 after them all.
fn check_each(bonds: &[u8], positions: &[u8], n: usize) -> Result<(), Refusal>
    requires lie { 12 * n ≤ length positions.now }
    requires few { n ≤ 4096 }
    requires prices { PricesIn bonds.now }
    ensures { found result ≡ and_then (first_failing (λ p. position_code bonds.now (position_at positions.now p)) n 0) (total_finding (value_total bonds.now positions.now n)) }
{
    let mut sizes = 0;
    for p in 0..n {
        let own = Position::at(positions, p);
        check_position(bonds, own, p)?;
        // no From leads from u32 to usize; a TryFrom would be unwrapped
        let price = Bond::at(bonds, own.bond as usize).dirty_price;
        sizes += own.value(price).unsigned_abs();
    }
    check_total(sizes)
}

// Refusals 17 to 20. Just the sections that are read are asked for, and no market.
pub(crate) fn check_positions(bonds: &[u8], positions: &[u8]) -> Result<(), Refusal>
    requires { PricesIn bonds.now }
    ensures { found result ≡ check_positions bonds.now positions.now }
{
    if !whole::<12>(positions, 0, 4096) {
        return Err(Refusal::PositionCount);
    }
    check_each(bonds, positions, position_count(positions))
}
