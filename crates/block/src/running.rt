// Running sums from the last place back, modulo 65,536.
ghost use Rattle.std.specs.Prelude.{◌≡◌, ◌+◌, ◌*◌, ◌%◌, ◌≤◌, length};
ghost use Rattle.block.specs.Bytes.{byte};
ghost use Rattle.block.specs.Running.{running_sum, running_total};

// What stands on the whiteboard: the running sum and the total.
#[derive(Clone, Copy)]
pub struct Running {
    pub sum: u16,
    pub total: u16,
}

// One step: a value is added into the running sum, and the running sum into the total.
pub fn step(board: Running, value: u16) -> Running
    ensures sum_value { result.sum ≡ (board.sum + value) % 65536 }
    ensures total_value { result.total ≡ (board.total + result.sum) % 65536 }
{
    let sum = board.sum.wrapping_add(value);
    Running {
        sum,
        total: board.total.wrapping_add(sum),
    }
}

// Goes on over bytes 11 to 0. What the running sum held before is added into the total at each of the twelve steps.
pub fn over_first(s: &[u8], board: Running) -> Running
    requires { 12 ≤ length s.now }
    ensures sum_value { result.sum ≡ (board.sum + running_sum (byte s.now) 12 12) % 65536 }
    ensures total_value { result.total ≡ (board.total + board.sum * 12 + running_total (byte s.now) 12 12) % 65536 }
{
    let mut after = board;
    for i in (0..12).rev() {
        after = step(after, u16::from(s[i]));
    }
    after
}
