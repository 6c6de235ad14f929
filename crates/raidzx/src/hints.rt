// What is wrong with a line of a script, in words.

use client_script::{CallFault, LineFault};

/// What a user may do about a line.
fn line_hint(why: LineFault) -> &'static str {
    match why {
        LineFault::CarriageReturn => "it ends with CR and LF, and lines end with LF alone",
        LineFault::StraySpace => "one space stands between two words, and none at an end",
        LineFault::NoClients => "the first line is `clients K`, K from 1 to 8",
        LineFault::ClientsAgain => "one line alone says how many clients there are",
        LineFault::ClientCount => "`clients K`, K from 1 to 8, without leading zeros",
        LineFault::Turns => "`order LETTERS`: letters of the clients side by side, one at least",
        LineFault::NoCall => "a call is a client's letter, a space, and its words",
        LineFault::NoSuchClient { clients: 1 } => "there is one client, a",
        LineFault::NoSuchClient { clients: _ } => "there is no such client: the first is a",
        LineFault::InCall { why } => call_hint(why),
    }
}

/// What a user may do about the words of a call.
fn call_hint(why: CallFault) -> &'static str {
    match why {
        CallFault::UnknownCall =>
            "the calls are put, puthex, get, sum, free, sync, attach and copy",
        CallFault::Number => "a number is decimal and below 2^64, without sign or leading zeros",
        CallFault::PutWords => "`put ID LEN SEED` or `puthex ID DIGITS`",
        CallFault::NoBytes => "a block has one byte at least",
        CallFault::TooManyBytes => "a block has at most 65,536 bytes",
        CallFault::HexDigits => "two digits stand for each byte, 0 to 9 and a to f",
        CallFault::IdAlone => "get, sum and free have an id, and nothing behind it",
        CallFault::WordAlone => "sync, attach and copy have nothing behind them",
    }
}

/// Tells what the limits are of a script and of a pool.
pub fn hint_limit<R: Eprint>(rt: &R) {
    let _ = eprintln!(rt;
        "raidzx: a script has at most 16777216 bytes, 8 clients and 10000 calls, and a pool has 2^62 groups; nothing \
        was done"
    );
}

/// Tells what is wrong with the line of this number.
pub fn hint_line<R: Eprint>(rt: &R, number: u64, why: LineFault) {
    let text = line_hint(why);
    let _ = eprintln!(rt; "raidzx: script line {number}: {text}");
}
