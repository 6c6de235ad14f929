// In which order the calls of a script are carried out.

/// As they come: each client's calls one after the other, in a thread of its own; beside them one more client may
/// attach a device, and copies where an expansion runs. Those of an only client are carried out in the order of their
/// lines. Or turn by turn, as the script's order lists, and then what that leaves, each call whole.
#[derive(Clone, Copy, Debug, PartialEq, Eq)]
pub enum Order {
    AsTheyCome { attaches: bool },
    AsListed,
}
