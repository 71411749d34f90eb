// How many contend under a limit.
ghost use Rattle.std.specs.Prelude.{◌≡◌, cond, ◌&&◌, ◌≤◌, length, ltb, eqb};
ghost use Rattle.contest.specs.inner.Contest.{contenders};
ghost use Rattle.contest.specs.inner.Sieve.{count_under, key_at};

use crate::round::Round;

// A contender with a key under the limit counts as one.
fn counted(standing: u32, key: u32, limit: u32) -> u32
    ensures { (result ≡ cond (eqb standing 1 && ltb key limit) 1 0) × (result ≤ 1) }
{
    u32::from((standing == 1) & (key < limit))
}

impl Round<'_> {
    // How many rows contend with a key under the limit.
    pub fn under(&self, limit: u32) -> u32
        ensures { (result ≡ count_under (contenders self.now.standings.now) (key_at self.now.keys.now) limit
            (length self.now.standings.now)) × (result ≤ 600) }
    {
        let mut count = 0;
        for i in 0..self.standings.len() {
            count += counted(self.standings[i], self.keys[i], limit);
        }
        count
    }
}
