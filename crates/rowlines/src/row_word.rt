// Which of a form's words fit a row: the parts of a choice are counted from 0.
ghost use Rattle.std.specs.Prelude.{◌≡◌};
ghost use Rattle.rowlines.specs.RowWords.{line_word, reason};

// What a row clears: 0 nothing, 1 all of it, 2 its part rounded down, 3 one tenth more, 4 less than it commits.
pub(crate) fn line_word(none: bool, block: bool, whole: bool, spare: bool) -> u64
    ensures { result ≡ line_word none block whole spare }
{
    if none {
        0
    } else if block {
        4
    } else if whole {
        1
    } else if spare {
        3
    } else {
        2
    }
}

// Why a row has the make-whole it has: 0 nothing cleared, 1 it commits what cleared, 2 the price is zero, 3 it is paid.
pub(crate) fn reason(paid: bool, none: bool, more: bool) -> u64
    ensures { result ≡ reason paid none more }
{
    if paid {
        3
    } else if none {
        0
    } else if more {
        2
    } else {
        1
    }
}
