// A round of the contest: one key of each row, where the rows stand, and how many tenths are spare.
ghost use Rattle.std.specs.Prelude.{ℕ, ◌<◌, length, get_or};
ghost use Rattle.contest.specs.inner.Sieve.{Keyed};

// At most 600 rows, each with a standing and a key.
#[derive(Clone, Copy)]
pub struct Round<'a> {
    pub keys: &'a [u32],
    pub standings: &'a [u32],
    pub spare: u32,
    // each key is a number of 32 bits
    pub ghost narrow: { (i : ℕ) → get_or keys.now i 0 < 4294967296 },
    pub ghost keyed: { Keyed keys.now standings.now (length standings.now) },
}
