// The form of a command, where the words are none.
ghost use Rattle.std.specs.Prelude.{◌≡◌, ◌↔◌, codes};
ghost use Rattle.raidzx.specs.declared.usage.Meant.TheVariants.{Create, Run, Replay, Status};

/// Which command was meant, by the first word behind the dashes.
#[derive(Clone, Copy, Debug, PartialEq, Eq)]
pub enum Meant {
    Create,
    Run,
    Replay,
    Status,
    Unknown,
}

/// Which command words mean.
fn meant_by(words: &[String]) -> Meant {
    let mut behind = false;
    for word in words {
        if behind {
            return named(word.as_str());
        }
        behind = word.as_str() == "--";
    }
    Meant::Unknown
}

fn named(word: &str) -> Meant
    ensures create { result ≡ Create ↔ word.now ≡ codes "create" }
    ensures run { result ≡ Run ↔ word.now ≡ codes "run" }
    ensures replay { result ≡ Replay ↔ word.now ≡ codes "replay" }
    ensures status { result ≡ Status ↔ word.now ≡ codes "status" }
{
    match word {
        "create" => Meant::Create,
        "run" => Meant::Run,
        "replay" => Meant::Replay,
        "status" => Meant::Status,
        _ => Meant::Unknown,
    }
}

const CREATE: &str = "raidzx IMAGE.. -- create --parity P --width W --id N";

const RUN: &str = "raidzx IMAGE.. -- run [--attach] <SCRIPT";

const REPLAY: &str = "raidzx IMAGE.. -- replay <SCRIPT";

const STATUS: &str = "raidzx IMAGE.. -- status";

/// Shows the form of the command that was meant, or of all.
pub fn hint_usage<R: Eprint>(rt: &R, words: &[String]) {
    let meant = meant_by(words);
    let wants_all = meant == Meant::Unknown;
    if wants_all || meant == Meant::Create {
        let _ = eprintln!(rt; "raidzx: usage: {CREATE}");
        let _ = eprintln!(rt;
            "raidzx: P from 1 to 3, W above P and at most 16, N below 2^64; no leading zeros"
        );
    }
    if wants_all || meant == Meant::Run {
        let _ = eprintln!(rt; "raidzx: usage: {RUN}");
        let _ = eprintln!(rt;
            "raidzx: with --attach the IMAGE behind the pool's joins it, and the blocks are spread over it meanwhile"
        );
    }
    if wants_all || meant == Meant::Replay {
        let _ = eprintln!(rt; "raidzx: usage: {REPLAY}");
    }
    if wants_all || meant == Meant::Status {
        let _ = eprintln!(rt; "raidzx: usage: {STATUS}");
    }
    let _ = eprintln!(rt;
        "raidzx: each IMAGE is a file or a disk; or each is mem:SECTORS, one number for all, from 1 to 65728"
    );
}
