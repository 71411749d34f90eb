// Who gets the spare tenths: rows contend by one key after another, the lowest first.
//
// No sort: for each key a limit is found such that who contends under it wins and who contends at it goes on to the next
// key. A row stands at 0 where it is out, at 1 where it contends and at 2 where it has won: numbers and no enum, as wide as the
// keys, so that the loops run in lanes, and since by `award`'s contract 1 is in the end a tenth received.
#![tactic(auto)]

mod count;
mod keys;
mod limit;
mod round;

ghost use Rattle.std.specs.Prelude.{◌≡◌, ◌≤◌, length};
ghost use Rattle.laws.specs.Filled.{filled};
ghost use Rattle.contest.specs.inner.Sieve.{Keyed, stands_after, receives, settled, stands};
ghost use Rattle.contest.specs.inner.Award.{Awarded, Ready, Sifted};

use crate::round::Round;

// Where a row stands after its key is stands_after to the limit: a contender has won under it, contends at it, and is out over it.
fn sifted(standing: u32, key: u32, limit: u32) -> u32
    ensures { result ≡ stands standing key limit }
{
    if standing != 1 {
        standing
    } else if key < limit {
        2
    } else if key == limit {
        1
    } else {
        0
    }
}

// Holds each row's key to the limit.
fn hold(keys: &[u32], standings: &mut [u32], limit: u32)
    requires { Keyed keys.now standings.old (length standings.old) }
    ensures { standings.new ≡ filled (stands_after keys.now standings.old limit) (length standings.old) standings.old }
{
    for i in 0..standings.len() {
        standings[i] = sifted(standings[i], keys[i], limit);
    }
}

// Tells the contest by one key, and returns what is left of the spare tenths. Where nothing is left, or all keys are alike,
// there is nothing to tell.
fn sift(keys: &[u32], standings: &mut [u32], spare: u32) -> u32
    requires { Keyed keys.now standings.old (length standings.old) }
    ensures { Sifted keys.now (length standings.old) standings.old spare standings.new result }
{
    if spare == 0 {
        return 0;
    }
    let round = Round {
        keys,
        standings,
        spare,
    };
    if round.alike() {
        return spare;
    }
    let parting = round.threshold();
    hold(keys, standings, parting.limit);
    spare - parting.won
}

// What a row receives in the end.
fn received(standing: u32, left: u32) -> u32
    ensures { result ≡ receives standing left }
{
    u32::from((standing == 2) | ((standing == 1) & (0 < left)))
}

// Puts what each row receives in the place of its standing. One loop for this and `hold` would take the rule for a row as a closure
// with a contract of its own, and be longer than both.
fn settle(standings: &mut [u32], left: u32)
    ensures { standings.new ≡ filled (settled standings.old left) (length standings.old) standings.old }
{
    for i in 0..standings.len() {
        standings[i] = received(standings[i], left);
    }
}

// Gives each of `spare` tenths to a row that contends, at 1: the lowest keys first, by five keys one after another. A row
// that receives a tenth stands at 1 in the end, and every other at 0.
pub fn award(
    k1: &[u32],
    k2: &[u32],
    k3: &[u32],
    k4: &[u32],
    k5: &[u32],
    standings: &mut [u32],
    spare: u32,
)
    requires { Ready k1.now k2.now k3.now k4.now k5.now standings.old (length standings.old) }
    ensures { Awarded k1.now k2.now k3.now k4.now k5.now standings.old (length standings.old) spare standings.new }
{
    let left = sift(k1, standings, spare);
    let left = sift(k2, standings, left);
    let left = sift(k3, standings, left);
    let left = sift(k4, standings, left);
    let left = sift(k5, standings, left);
    settle(standings, left);
}
