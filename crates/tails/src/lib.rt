// The tails layer: P&Ls and losses, the ranking of scenarios, the list and the tail sum.
#![tactic(auto)]

pub mod loss;
pub mod rows;
pub mod worst;

ghost use Rattle.std.specs.Prelude.{ℕ, ◌≡◌, ◌+◌, ◌≤◌, ◌<◌, pos, length, get_or, sum};
ghost use Rattle.numbers.specs.Buffers.{placed};
ghost use Rattle.numbers.specs.Conditions.{In};
ghost use Rattle.tails.specs.Losses.{loss as loss_of};
ghost use Rattle.tails.specs.InnerContracts.{IsTail, Rankable, Pnls, mode_number, losses_of, scenarios_of};

use crate::loss::Mode;
use crate::worst::{Ranked, worst_of};

// A tail: its sum, and sixteen numbers, the first k its list and the others 0. k is at most 16, and without a heap no list has just k.
#[derive(Clone, Copy)]
pub struct Tail {
    pub sum: u64,
    pub list: [u16; 16],
}

// The total of the kept losses.
fn sum_of(worst: &[Ranked]) -> u64
    requires { sum (losses_of worst.now) < 18446744073709551616 }
    ensures { result ≡ sum (losses_of worst.now) }
{
    worst.iter().map(|one| one.loss).sum()
}

// The kept scenarios' numbers, by index: an array's `map` was tried here, and a tail took a twentieth longer.
fn list_of(worst: &[Ranked; 16]) -> [u16; 16]
    requires { (j : ℕ) → get_or (scenarios_of worst.now) j 0 < 65536 }
    ensures { result ≡ scenarios_of worst.now }
{
    let mut list = [0u16; 16];
    for j in 0..16 {
        // no From leads from usize to u16; a TryFrom would be unwrapped
        list[j] = worst[j].scenario as u16;
    }
    list
}

// The tail of a slice of losses.
pub fn tail_of(losses: &[u64], k: usize) -> Tail
    requires { Rankable losses.now k }
    ensures { IsTail (λ s. get_or losses.now s 0) (length losses.now) k result.sum result.list }
{
    let worst = worst_of(losses, k);
    Tail {
        sum: sum_of(&worst),
        list: list_of(&worst),
    }
}

// The tail of the scenarios' P&Ls.
pub fn pnl_tail(mode: Mode, pnls: &[i64], k: usize) -> Tail
    requires small { Pnls pnls.now }
    requires tail_in { In 1 16 k }
    ensures { IsTail (λ s. loss_of (mode_number mode) (get_or pnls.now s (pos 0))) (length pnls.now) k result.sum result.list }
{
    let n = pnls.len();
    let mut losses = [0u64; 1024];
    loss::losses(mode, pnls, &mut losses);
    tail_of(&losses[..n], k)
}

// Puts a list into a buffer, from entry `at` on.
pub fn put_list(list: &[u16], at: usize, out: &mut [u16])
    requires few { length list.now ≤ 16 }
    requires room { at + length list.now ≤ length out.old }
    requires at_in { at ≤ 65536 }
    ensures { out.new ≡ placed (λ j. get_or list.now j 0) at (length list.now) out.old }
{
    out[at..at + list.len()].copy_from_slice(list);
}
