// Scripts of three clients or eight, made from a number, and what each of their calls hands over.
ghost use Rattle.std.specs.Prelude.{◌<◌, ◌≤◌};

use core_state::Kind;
use std::alloc::{AllocError, Global};

/// The ids that plans name: those below this one.
pub const IDS: u64 = 4;

/// How many clients a script may have.
const MOST_CLIENTS: u64 = 8;

/// Fewest and most calls of a client.
const FEWEST_CALLS: u64 = 6;

const MOST_CALLS: u64 = 10;

/// How many calls more a client has where one copies.
const MORE_BESIDE_COPY: u64 = 14;

/// Fewest turns of an order, also where a client attaches a device: that alone takes some fifty. A copy takes some
/// seven hundred.
const TURNS: u64 = 54;

const TURNS_WITH_ATTACH: u64 = 180;

const TURNS_WITH_COPY: u64 = 1_100;

/// One plan of so many has a client that attaches a device soon, and then copies; of plans without an order one of so
/// many.
const COPIES_EVERY: u64 = 5;

const COPIES_EVERY_OF_LINES: u64 = 21;

/// Most bytes of a pattern, a little less than three sectors, and of a put in hex.
const MOST_BYTES: u64 = 1_500;

const MOST_HEX: u64 = 40;

/// A call as a plan lists it.
#[derive(Drop)]
pub struct PlannedCall {
    pub caller: u8,
    /// The number among the caller's calls, from 1.
    pub number: u64,
    pub kind: Kind,
    pub id: Option<u64>,
    /// What a put is handed.
    pub bytes: Vec<u8>,
}

/// The calls of some clients, and the script that asks for them.
#[derive(Drop)]
pub struct Plan {
    pub calls: Vec<PlannedCall>,
    pub script: String,
}

/// Numbers that follow from a first one.
#[derive(Drop)]
pub struct Draw {
    state: u64,
}

impl Draw {
    pub fn new(first: u64) -> Draw {
        Draw { state: first }
    }

    /// The next number, below this one.
    pub fn below(&mut self, bound: u64) -> u64
        requires { 0 < bound }
        ensures { result < bound }
    {
        self.state = self
            .state
            .wrapping_mul(6_364_136_223_846_793_005)
            .wrapping_add(1_442_695_040_888_963_407);
        (self.state >> 33) % bound
    }
}

/// The letter of a client.
pub fn letter(caller: u64) -> char {
    char::from(b'a' + (caller % MOST_CLIENTS) as u8)
}

/// What a plan is about: single blocks, or one client's copy beside them.
#[derive(Clone, Copy, Debug, PartialEq, Eq)]
enum Theme {
    Blocks,
    Copy { by: u64 },
}

impl Theme {
    /// That of the plan of this number, where one of so many copies.
    fn of(number: u64, every: u64) -> Theme
        requires { 0 < every }
    {
        if number % every == 0 {
            Theme::Copy {
                by: number / every % 3,
            }
        } else {
            Theme::Blocks
        }
    }

    /// How many calls a client has more than by other themes.
    fn more_calls(self) -> u64 {
        match self {
            Theme::Blocks => 0,
            Theme::Copy { by: _ } => MORE_BESIDE_COPY,
        }
    }

    /// The kind of a client's call that this theme fixes.
    fn fixed(self, caller: u64, round: u64) -> Option<Kind> {
        match self {
            Theme::Copy { by } if by == caller && round == 1 => Some(Kind::Attach),
            Theme::Copy { by } if by == caller && round == 2 => Some(Kind::Copy),
            _ => None,
        }
    }
}

/// The kind of a call: a put at first, and later puts more often than others, and seldom an attach; or, where a client
/// copies, also another copy.
fn draw_kind(draw: &mut Draw, theme: Theme, round: u64) -> Kind {
    if round == 0 {
        return Kind::Put;
    }
    match draw.below(40) {
        0..=13 => Kind::Put,
        14..=19 => Kind::Get,
        20..=25 => Kind::Sum,
        26..=33 => Kind::Free,
        38 if theme != Theme::Blocks => Kind::Copy,
        34..=38 => Kind::Sync,
        _ => Kind::Attach,
    }
}

/// Whose run of turns comes next: every other one is the copier's, where a client copies.
fn draw_actor(draw: &mut Draw, theme: Theme) -> u64 {
    let actor = draw.below(3);
    match theme {
        Theme::Copy { by } => if draw.below(2) == 0 { by } else { actor },
        Theme::Blocks => actor,
    }
}

/// The bytes of a pattern: byte `i` is `seed + 7 * i + i / 256`, as far as a byte holds it.
pub fn pattern(alloc: Global, len: u64, seed: u64) -> Result<Vec<u8>, AllocError> {
    let mut bytes = Vec::new(alloc);
    for place in 0..len {
        let value = seed
            .wrapping_add(place.wrapping_mul(7))
            .wrapping_add(place / 256);
        bytes.push((value % 256) as u8)?;
    }
    Ok(bytes)
}

/// The words of a put of a pattern, and its bytes.
fn put_pattern(
    alloc: Global,
    draw: &mut Draw,
    id: u64,
    script: &mut String,
) -> Result<Vec<u8>, AllocError> {
    let len = 1 + draw.below(MOST_BYTES);
    let seed = draw.below(1 << 30);
    write!(script, "put {id} {len} {seed}")?;
    pattern(alloc, len, seed)
}

/// The words of a put in hex, and its bytes.
fn put_hex(
    alloc: Global,
    draw: &mut Draw,
    id: u64,
    script: &mut String,
) -> Result<Vec<u8>, AllocError> {
    write!(script, "puthex {id} ")?;
    let mut bytes = Vec::new(alloc);
    for _place in 0..1 + draw.below(MOST_HEX) {
        let byte = draw.below(256) as u8;
        write!(script, "{byte:02x}")?;
        bytes.push(byte)?;
    }
    Ok(bytes)
}

/// The words of a call of this kind, and what it hands over.
fn plan_words(
    alloc: Global,
    draw: &mut Draw,
    kind: Kind,
    id: u64,
    script: &mut String,
) -> Result<Vec<u8>, AllocError> {
    match kind {
        Kind::Put if draw.below(4) == 0 => return put_hex(alloc, draw, id, script),
        Kind::Put => return put_pattern(alloc, draw, id, script),
        Kind::Get => write!(script, "get {id}")?,
        Kind::Sum => write!(script, "sum {id}")?,
        Kind::Free => write!(script, "free {id}")?,
        Kind::Attach => write!(script, "attach")?,
        Kind::Copy => write!(script, "copy")?,
        _ => write!(script, "sync")?,
    }
    Ok(Vec::new(alloc))
}

impl Plan {
    /// A plan of so many clients, without calls.
    fn new(alloc: Global, clients: u8) -> Result<Plan, AllocError> {
        let mut script = String::new(alloc);
        writeln!(script, "clients {clients}")?;
        Ok(Plan {
            calls: Vec::new(alloc),
            script,
        })
    }

    /// Whether a client has a call of this kind.
    fn has(&self, kind: Kind) -> bool {
        for call in &self.calls {
            if call.kind == kind {
                return true;
            }
        }
        false
    }

    /// Whether a client attaches a device.
    pub fn attaches(&self) -> bool {
        self.has(Kind::Attach)
    }

    /// Whether a client copies.
    pub fn copies(&self) -> bool {
        self.has(Kind::Copy)
    }

    /// Fewest turns of an order.
    fn fewest_turns(&self) -> u64 {
        if self.copies() {
            TURNS_WITH_COPY
        } else if self.attaches() {
            TURNS_WITH_ATTACH
        } else {
            TURNS
        }
    }

    /// One more call, on a line of its own.
    fn push(
        &mut self,
        alloc: Global,
        draw: &mut Draw,
        caller: u8,
        number: u64,
        kind: Kind,
        id: u64,
    ) -> Result<(), AllocError> {
        let letter = letter(u64::from(caller));
        write!(self.script, "{letter} ")?;
        let bytes = plan_words(alloc, draw, kind, id, &mut self.script)?;
        writeln!(self.script)?;
        let id = match kind {
            Kind::Sync | Kind::Attach | Kind::Copy => None,
            _ => Some(id),
        };
        self.calls.push(PlannedCall {
            caller,
            number,
            kind,
            id,
            bytes,
        })?;
        Ok(())
    }

    /// About 60 turns of the three clients, or 190, or 1,100, in runs of so many at most.
    fn push_order(&mut self, draw: &mut Draw, theme: Theme, longest: u64) -> Result<(), AllocError>
        requires { 0 < longest }
    {
        self.script.push_str("order ")?;
        let mut run = 0;
        let mut actor = 'a';
        for _turn in 0..self.fewest_turns().wrapping_add(draw.below(13)) {
            if run == 0 {
                run = 1 + draw.below(longest);
                actor = letter(draw_actor(draw, theme));
            }
            self.script.push(actor)?;
            run -= 1;
        }
        writeln!(self.script)?;
        Ok(())
    }
}

/// So many clients with 6 to 10 calls each, their lines in turns; with 20 to 24 where one copies.
fn draw_calls(alloc: Global, draw: &mut Draw, clients: u8, theme: Theme) -> Result<Plan, AllocError>
    requires { clients ≤ 8 }
{
    let mut plan = Plan::new(alloc, clients)?;
    let more = theme.more_calls();
    let mut counts = [0; MOST_CLIENTS as usize];
    for count in &mut counts[..clients as usize] {
        *count = (FEWEST_CALLS + draw.below(MOST_CALLS - FEWEST_CALLS + 1)).wrapping_add(more);
    }
    for round in 0..MOST_CALLS + MORE_BESIDE_COPY {
        for caller in 0..clients {
            if round < counts[caller as usize] {
                let kind = match theme.fixed(u64::from(caller), round) {
                    Some(kind) => kind,
                    None => draw_kind(draw, theme, round),
                };
                let id = draw.below(IDS).min(draw.below(IDS));
                plan.push(alloc, draw, caller, round + 1, kind, id)?;
            }
        }
    }
    Ok(plan)
}

/// The plan of this number: three clients, and an order.
pub fn plan_of(alloc: Global, number: u64) -> Result<Plan, AllocError> {
    let mut draw = Draw::new(number);
    let theme = Theme::of(number, COPIES_EVERY);
    let mut plan = draw_calls(alloc, &mut draw, 3, theme)?;
    plan.push_order(&mut draw, theme, 1 + number % 8)?;
    Ok(plan)
}

/// The plan of this number without an order.
pub fn plan_of_lines(alloc: Global, number: u64) -> Result<Plan, AllocError> {
    let mut draw = Draw::new(number);
    let theme = Theme::of(number, COPIES_EVERY_OF_LINES);
    draw_calls(alloc, &mut draw, 3, theme)
}

/// The plan of this number of eight clients, without an order.
pub fn plan_of_eight(alloc: Global, number: u64) -> Result<Plan, AllocError> {
    let mut draw = Draw::new(number);
    let theme = Theme::of(number, COPIES_EVERY_OF_LINES);
    draw_calls(alloc, &mut draw, 8, theme)
}

/// A client's get and sum of each id; then it copies, and gets them again.
pub fn plan_of_reads(alloc: Global) -> Result<Plan, AllocError> {
    let mut draw = Draw::new(0);
    let mut plan = Plan::new(alloc, 1)?;
    for id in 0..IDS {
        plan.push(alloc, &mut draw, 0, 2 * id + 1, Kind::Get, id)?;
        plan.push(alloc, &mut draw, 0, 2 * id + 2, Kind::Sum, id)?;
    }
    plan.push(alloc, &mut draw, 0, 2 * IDS + 1, Kind::Copy, 0)?;
    for id in 0..IDS {
        plan.push(alloc, &mut draw, 0, 2 * IDS + 2 + id, Kind::Get, id)?;
    }
    Ok(plan)
}

/// The calls of the client that widens a pool between puts.
const WIDENING: [(Kind, u64); 11] = [
    (Kind::Put, 0),
    (Kind::Put, 1),
    (Kind::Sync, 0),
    (Kind::Attach, 0),
    (Kind::Copy, 0),
    (Kind::Get, 0),
    (Kind::Put, 2),
    (Kind::Sync, 0),
    (Kind::Put, 3),
    (Kind::Sum, 1),
    (Kind::Sync, 0),
];

/// A client that puts blocks, attaches a device, copies, and puts more.
pub fn plan_of_widening(alloc: Global) -> Result<Plan, AllocError> {
    let mut draw = Draw::new(0);
    let mut plan = Plan::new(alloc, 1)?;
    for (place, (kind, id)) in WIDENING.iter().enumerate() {
        let number = (place as u64).wrapping_add(1);
        plan.push(alloc, &mut draw, 0, number, *kind, *id)?;
    }
    Ok(plan)
}
