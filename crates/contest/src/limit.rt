// The limit to hold a key to: who contends under it wins, and who contends over it does not.
//
// It is looked for between two numbers that close in on it. A look counts the contenders under a number between them, in
// proportion to the counts, and after one that left more than half of the numbers between them, at the middle: few looks where keys
// are spread evenly, and never many. Where equal keys or gaps leave as many contenders between the two as before, the nearest key is
// looked at too.
ghost use Rattle.std.specs.Prelude.{◌≤◌, ◌<◌, length};
ghost use Rattle.contest.specs.inner.Contest.{contenders};
ghost use Rattle.contest.specs.inner.Sieve.{key_at};
ghost use Rattle.contest.specs.inner.Search.{Between, Closer, Looked, Open, LimitFound};

use crate::round::Round;

// Two numbers, and how many contend under each.
#[derive(Clone, Copy)]
pub struct KeyBracket {
    pub low: u32,
    pub few: u32,
    pub high: u32,
    pub many: u32,
}

// A limit, and how many contend under it.
#[derive(Clone, Copy)]
pub struct Parting {
    pub limit: u32,
    pub won: u32,
}

// A part of the room, rounded down.
fn portion(room: u32, part: u32, whole: u32) -> u32
    requires { (0 < room) × (part < whole) }
    ensures { result < room }
{
    (u64::from(room) * u64::from(part) / u64::from(whole)) as u32
}

// A number between the two: the middle, or as far up as the spare tenths go of the contenders between them.
fn probe(b: KeyBracket, spare: u32, halve: bool) -> u32
    requires { Open spare b }
    ensures { (b.low < result) × (result < b.high) }
{
    let room = b.high - b.low - 1;
    if halve {
        return b.low + 1 + room / 2;
    }
    let part = 2 * (spare - b.few) - 1;
    let whole = 2 * (b.many - b.few);
    b.low + 1 + portion(room, part, whole)
}

impl Round<'_> {
    // Counts the contenders under a number between the two, which takes the place of one of them.
    fn look(&self, b: KeyBracket, mid: u32) -> KeyBracket
        requires between { Between (contenders self.now.standings.now) (key_at self.now.keys.now)
            (length self.now.standings.now) self.now.spare b }
        requires low_le_mid { (b.low ≤ mid) × (mid ≤ b.high) }
        ensures { Looked (contenders self.now.standings.now) (key_at self.now.keys.now)
            (length self.now.standings.now) self.now.spare b mid result }
    {
        let count = self.under(mid);
        if count <= self.spare {
            return KeyBracket {
                low: mid,
                few: count,
                ..b
            };
        }
        KeyBracket {
            high: mid,
            many: count,
            ..b
        }
    }

    // Moves the first number up to the next key, and looks just over it.
    fn raise(&self, b: KeyBracket) -> KeyBracket
        requires { Between (contenders self.now.standings.now) (key_at self.now.keys.now) (length self.now.standings.now) self.now.spare b }
        ensures { Closer (contenders self.now.standings.now) (key_at self.now.keys.now)
            (length self.now.standings.now) self.now.spare b result }
    {
        let low = self.lowest_from(b.low, b.high);
        self.look(KeyBracket { low, ..b }, low + 1)
    }

    // Moves the second number down to just over the last key before it, and looks at that key.
    // Not one function with `raise`: this one looks at the key itself and moves its end to one past it, and a flag would choose both.
    fn lower(&self, b: KeyBracket) -> KeyBracket
        requires { Between (contenders self.now.standings.now) (key_at self.now.keys.now) (length self.now.standings.now) self.now.spare b }
        ensures { Closer (contenders self.now.standings.now) (key_at self.now.keys.now)
            (length self.now.standings.now) self.now.spare b result }
    {
        let last = self.highest_to(b.low, b.high - 1);
        let to = KeyBracket {
            high: last + 1,
            ..b
        };
        self.look(to, last)
    }

    // Looks at a number between the two, and where as many contend between them as before, beside the nearest key.
    fn turn(&self, b: KeyBracket, mid: u32) -> KeyBracket
        requires between { Between (contenders self.now.standings.now) (key_at self.now.keys.now)
            (length self.now.standings.now) self.now.spare b }
        requires low_le_mid { (b.low ≤ mid) × (mid ≤ b.high) }
        ensures { Looked (contenders self.now.standings.now) (key_at self.now.keys.now)
            (length self.now.standings.now) self.now.spare b mid result }
    {
        let a = self.look(b, mid);
        if a.many - a.few < b.many - b.few {
            return a;
        }
        if b.low < a.low {
            return self.raise(a);
        }
        self.lower(a)
    }

    // A key such that who contends under it wins and who contends over it does not.
    pub fn threshold(&self) -> Parting
        ensures { LimitFound (contenders self.now.standings.now) (key_at self.now.keys.now)
            (length self.now.standings.now) self.now.spare result }
    {
        let high = self.highest_to(0, u32::MAX);
        let many = self.under(high);
        if many <= self.spare {
            return Parting {
                limit: high,
                won: many,
            };
        }
        let mut b = KeyBracket {
            low: self.lowest_from(0, high),
            few: 0,
            high,
            many,
        };
        let mut halve = false;
        // two numbers close in on a limit: no index is counted
        while b.few < self.spare && 1 < b.high - b.low {
            let next = self.turn(b, probe(b, self.spare, halve));
            halve = !halve & ((b.high - b.low) / 2 < next.high - next.low);
            b = next;
        }
        Parting {
            limit: b.low,
            won: b.few,
        }
    }
}
