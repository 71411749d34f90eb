// What can be told of the keys alone, of rows that contend and of rows that do not: so each loop has one test and runs in lanes.
ghost use Rattle.std.specs.Prelude.{◌≡◌, true, ◌≤◌, length};
ghost use Rattle.contest.specs.inner.Sieve.{key_at};
ghost use Rattle.contest.specs.inner.Nearest.{Alike, HighestTo, LowestFrom};

use crate::round::Round;

// A key other than the first counts as one.
fn differs(key: u32, first: u32) -> u32
    ensures { (result ≤ 1) × (result ≡ 0 → key ≡ first) }
{
    u32::from(key != first)
}

// The key, or a number that no key passes where it is under `low`.
fn from(key: u32, low: u32) -> u32
    ensures { (low ≤ result) × (low ≤ key → result ≡ key) }
{
    if key < low { u32::MAX } else { key }
}

// The key, or 0 where it is over `top`.
fn up_to(key: u32, top: u32) -> u32
    ensures { (result ≤ top) × (key ≤ top → result ≡ key) }
{
    if key <= top { key } else { 0 }
}

impl Round<'_> {
    // All keys are the same. Those that are not mostly differ at the ends.
    pub fn alike(&self) -> bool
        ensures { result ≡ true → Alike (key_at self.now.keys.now) (length self.now.standings.now) }
    {
        let n = self.standings.len();
        if n == 0 {
            return true;
        }
        let first = self.keys[0];
        if self.keys[n - 1] != first {
            return false;
        }
        let mut others = 0;
        for i in 0..n {
            others += differs(self.keys[i], first);
        }
        others == 0
    }

    // The lowest key from `low` on, or `high` where that is lower.
    pub fn lowest_from(&self, low: u32, high: u32) -> u32
        requires { low ≤ high }
        ensures { LowestFrom (key_at self.now.keys.now) (length self.now.standings.now) low high result }
    {
        let mut lowest = high;
        for i in 0..self.standings.len() {
            lowest = lowest.min(from(self.keys[i], low));
        }
        lowest
    }

    // The highest key up to `top`, or `low` where that is higher. A fold for this and one for `lowest_from` would each need a lemma on
    // lists, where each loop proves by its invariant alone.
    pub fn highest_to(&self, low: u32, top: u32) -> u32
        requires { low ≤ top }
        ensures { HighestTo (key_at self.now.keys.now) (length self.now.standings.now) low top result }
    {
        let mut highest = low;
        for i in 0..self.standings.len() {
            highest = highest.max(up_to(self.keys[i], top));
        }
        highest
    }
}
