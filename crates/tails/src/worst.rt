// The k worst scenarios of a slice of losses, by falling loss, then rising number.
ghost use Rattle.std.specs.Prelude.{◌≡◌, ℕ, map, ◌+◌, ◌-◌, ◌/◌, ◌≤◌, ◌<◌, min, length, take, get_or};
ghost use Rattle.numbers.specs.Conditions.{In};
ghost use Rattle.tails.specs.InnerContracts.{padded, IsWorst, Rankable, ranked_from, next_bound, Skipping, four_below, NextFrom, least_of_four, least_maximum, losses_of, scenarios_of, Inserted};

// A scenario and its loss.
#[derive(Clone, Copy)]
pub struct Ranked {
    pub loss: u64,
    pub scenario: usize,
}

// What stands past the kept scenarios.
const NONE: Ranked = Ranked {
    loss: 0,
    scenario: 0,
};

// The kept scenarios, the worst first, at most k of them; what is past the first `count` is `NONE`. Sixteen with a count, since the unit
// has no heap.
#[derive(Drop)]
struct Ranking {
    worst: [Ranked; 16],
    k: usize,
    count: usize,
    ghost tail_in: { In 1 16 k },
    ghost few: { count ≤ k },
}

impl Ranking {
    // Puts a scenario before those with smaller losses, which move one place back. Of more than k the last is dropped. The count is
    // stored last: stored before the insertion it is read back after it, and a tail takes longer.
    fn keep(&mut self, one: Ranked)
        ensures k_stays { self.new.k ≡ self.old.k }
        ensures counted { self.new.count ≡ min (self.old.count + 1) self.old.k }
        ensures put { Inserted (self.new.count - 1) one.loss one.scenario self.old.worst self.new.worst }
    {
        let count = self.k.min(self.count + 1);
        insert(&mut self.worst, count - 1, one);
        self.count = count;
    }

    // The least loss that is kept next.
    fn bound(&self, floor: u64) -> u64
        requires { get_or (losses_of self.now.worst) (self.now.k - 1) 0 ≤ 100000000000000000 }
        ensures { result ≡ next_bound (losses_of self.now.worst) self.now.count self.now.k floor }
    {
        if self.count < self.k {
            return floor;
        }
        self.worst[self.k - 1].loss + 1
    }
}

// Puts a scenario before those with smaller losses of the first `at`, which move one place back. One pass from the back finds the place
// and makes room for it; a search and a rotation would be two.
fn insert(worst: &mut [Ranked], at: usize, one: Ranked)
    requires size { length worst.old ≡ 16 }
    requires place { at < 16 }
    ensures { Inserted at one.loss one.scenario worst.old worst.new }
{
    for p in (0..at).rev() {
        let other = worst[p];
        if one.loss <= other.loss {
            worst[p + 1] = one;
            return;
        }
        worst[p + 1] = other;
    }
    worst[0] = one;
}

// The losses of at most 1,024 scenarios, each at most 10^17.
#[derive(Clone, Copy)]
struct Losses<'a> {
    all: &'a [u64],
    ghost few: { length all.now ≤ 1024 },
    ghost loss_in: { (s : ℕ) → s < length all.now → get_or all.now s 0 ≤ 100000000000000000 },
}

impl<'a> Losses<'a> {
    // Whether the losses of scenario s and of the three after it are below the bound. Four by hand, of which none waits for another; an inner
    // loop, here and in `least_of_four`, would be no plainer.
    fn four_below(&self, bound: u64, s: usize) -> bool
        requires { s + 4 ≤ length self.now.all.now }
        ensures { result ≡ four_below (λ q. get_or self.now.all.now q 0) bound s }
    {
        ((self.all[s] < bound) & (self.all[s + 1] < bound))
            & ((self.all[s + 2] < bound) & (self.all[s + 3] < bound))
    }

    // From scenario i on, past losses below the bound, four at a time.
    // A `for` over the fours was tried, and a tail took up to 10 percent longer.
    fn skip_fours(&self, i: usize, bound: u64) -> usize
        requires { i ≤ length self.now.all.now }
        ensures { Skipping (λ q. get_or self.now.all.now q 0) (length self.now.all.now) i bound result }
    {
        let mut s = i;
        while s + 4 <= self.all.len() {
            if !self.four_below(bound, s) {
                return s;
            }
            s += 4;
        }
        s
    }

    // From scenario i on, the first whose loss is at least the bound, or the number of scenarios where there is none, as `NextFrom` says.
    fn next_from(&self, i: usize, bound: u64) -> usize
        requires { i ≤ length self.now.all.now }
        ensures { NextFrom (λ s. get_or self.now.all.now s 0) (length self.now.all.now) i bound result }
    {
        for s in self.skip_fours(i, bound)..self.all.len() {
            if bound <= self.all[s] {
                return s;
            }
        }
        self.all.len()
    }

    // One pass: the k worst of those scenarios whose loss is at least the floor. Once k are kept, it goes on to the next loss that
    // is larger than the smallest kept; that one is searched for, so its place is not counted up to.
    fn worst_from(&self, k: usize, floor: u64) -> [Ranked; 16]
        requires { In 1 16 k }
        ensures listed { scenarios_of result ≡ padded 16 (take k (ranked_from (λ s. get_or self.now.all.now s 0) floor (length self.now.all.now))) }
        ensures kept { losses_of result ≡ padded 16 (map (λ s. get_or self.now.all.now s 0) (take k (ranked_from (λ s. get_or self.now.all.now s 0) floor (length self.now.all.now)))) }
    {
        let mut ranking = Ranking {
            worst: [NONE; 16],
            k,
            count: 0,
        };
        let mut i = self.next_from(0, floor);
        while i < self.all.len() {
            let one = Ranked {
                loss: self.all[i],
                scenario: i,
            };
            ranking.keep(one);
            i = self.next_from(i + 1, ranking.bound(floor));
        }
        ranking.worst
    }

    // Lane j has every sixteenth loss from loss j on, up to the last whole sixteen of losses. The least of the maxima of lanes j to
    // j + 3.
    fn least_of_four(&self, j: usize) -> u64
        requires { j ≤ 12 }
        ensures { result ≡ least_of_four (λ s. get_or self.now.all.now s 0) (length self.now.all.now / 16) j }
    {
        let mut a = 0u64;
        let mut b = 0u64;
        let mut c = 0u64;
        let mut d = 0u64;
        for sixteen in 0..self.all.len() / 16 {
            let i = 16 * sixteen + j;
            a = a.max(self.all[i]);
            b = b.max(self.all[i + 1]);
            c = c.max(self.all[i + 2]);
            d = d.max(self.all[i + 3]);
        }
        a.min(b).min(c.min(d))
    }

    // The least of the maxima of all sixteen lanes, four at a time, from the largest u64 down.
    fn least_maximum(&self) -> u64
        ensures { result ≡ least_maximum (λ s. get_or self.now.all.now s 0) (length self.now.all.now / 16) 16 }
    {
        let mut least = u64::MAX;
        for four in 0..4 {
            least = least.min(self.least_of_four(4 * four));
        }
        least
    }
}

// The k worst scenarios and their losses, or all where there are fewer, and `NONE` past them. Sixteen losses reach the least of the
// sixteen lanes' maxima, or that is 0; so no smaller loss is kept, and in most orders few losses reach it. The lanes have the last
// whole sixteens of losses, so that the newest are among them.
pub fn worst_of(losses: &[u64], k: usize) -> [Ranked; 16]
    requires { Rankable losses.now k }
    ensures { IsWorst (λ s. get_or losses.now s 0) (length losses.now) k (losses_of result) (scenarios_of result) }
{
    let start = losses.len() % 16;
    let newest = Losses {
        all: &losses[start..],
    };
    let floor = newest.least_maximum();
    Losses { all: losses }.worst_from(k, floor)
}
