// What of a call's next turn can be computed while others have their turns.
ghost use Rattle.std.specs.Prelude.{◌≡◌, List, IfOk, IfSome, Some, slice_get};
ghost use Rattle.std.specs.Cow.{cow_slice_items};
ghost use Rattle.client_script.specs.declared.call.ScriptCall.{ScriptCall as CallOf};
ghost use Rattle.client_script.specs.Lines.{fill_bytes};
ghost use Rattle.core_turns.specs.Putting.{IsFillable};
ghost use Rattle.core_turns.specs.Getting.{IsSolvable};
ghost use Rattle.schedule.specs.declared.computing.ToCompute.TheVariants as asked;
ghost use Rattle.schedule.specs.Computing.{IsComputable, IsComputed, IsComputedFor, IsComputedOf, IsMadeUpOf};
ghost use Rattle.schedule.specs.Computing.{IsSolvedOf, block_in, for_call, solved_in};

use client_script::{Fill, ScriptCall};
use core_turns::{MadeUp, SolvedFrom, ToFill, ToSolve};
use std::alloc::{AllocError, Global};
use std::borrow::CowSlice;

/// What the next turn of a client's call asks to be computed: nothing; the block of a put, its call by its number
/// from 0 among the client's; or the block of a read.
#[derive(Drop)]
pub enum ToCompute {
    Nothing,
    Fill { call: usize, block: ToFill },
    Solve(ToSolve),
}

/// What was computed for it.
#[derive(Drop)]
pub enum Computed {
    Nothing,
    Filled { call: usize, made: Box<MadeUp> },
    Solved(Box<SolvedFrom>),
}

impl ToCompute {
    /// Computes it, for a client with these calls. Where there is no memory for that it is left to the turn.
    pub fn compute(self, alloc: Global, calls: &[ScriptCall]) -> Computed
        requires computable { IsComputable calls.now self }
        ensures right { IsComputedFor calls.now result }
        ensures computed { IsComputed self result }
    {
        match self {
            ToCompute::Nothing => Computed::Nothing,
            ToCompute::Fill { call, block } => make_up(alloc, calls, call, block),
            ToCompute::Solve(block) => solve(alloc, block),
        }
    }
}

/// The bytes that a put is handed: a script's own where they lie, a pattern's made for this.
pub fn put_bytes<'a>(alloc: Global, fill: &'a Fill) -> Result<CowSlice<'a, u8, Global>, AllocError>
    ensures { IfOk result (λ bytes. cow_slice_items bytes ≡ fill_bytes fill.now) }
{
    match fill {
        Fill::Hex(bytes) => Ok(CowSlice::Borrowed(bytes.as_slice())),
        pattern => Ok(CowSlice::Owned(pattern.to_bytes(alloc)?)),
    }
}

/// Makes the block of a put up.
fn make_up(alloc: Global, calls: &[ScriptCall], number: usize, block: ToFill) -> Computed
    requires fillable { (call : CallOf) → slice_get calls.now number ≡ Some call
        → IsFillable block (fill_bytes call.fill) }
    ensures right { IsComputedFor calls.now result }
    ensures computed { IsComputed (asked.Fill number block) result }
{
    let Some(call) = calls.get(number) else {
        return Computed::Nothing;
    };
    let Ok(bytes) = put_bytes(alloc, &call.fill) else {
        return Computed::Nothing;
    };
    let Ok(made) = block.make_up(alloc, bytes.as_slice()) else {
        return Computed::Nothing;
    };
    match Box::new(alloc, made) {
        Ok(made) => Computed::Filled { call: number, made },
        Err(_) => Computed::Nothing,
    }
}

/// Solves the block of a read.
fn solve(alloc: Global, block: ToSolve) -> Computed
    requires solvable { IsSolvable block }
    ensures right { (calls : List CallOf) → IsComputedFor calls result }
    ensures computed { IsComputed (asked.Solve block) result }
{
    let Ok(solved) = block.solve(alloc) else {
        return Computed::Nothing;
    };
    match Box::new(alloc, solved) {
        Ok(solved) => Computed::Solved(solved),
        Err(_) => Computed::Nothing,
    }
}

impl Computed {
    /// What was computed for the call of this number, from 0.
    pub fn of_call(self, number: usize) -> Computed
        ensures value { result ≡ for_call number self }
        ensures right { (calls : List CallOf) (call : CallOf) → IsComputedFor calls self
            → slice_get calls number ≡ Some call → IsComputedOf call result }
    {
        match self {
            Computed::Filled { call, made: _ } if call != number => Computed::Nothing,
            computed => computed,
        }
    }

    /// The block of a put that was made up.
    pub fn into_block(self) -> Option<Box<MadeUp>>
        ensures value { result ≡ block_in self }
        ensures made { (call : CallOf) → IsComputedOf call self
            → IfSome result (λ made. IsMadeUpOf (fill_bytes call.fill) made.value) }
    {
        match self {
            Computed::Filled { call: _, made } => Some(made),
            _ => None,
        }
    }

    /// The block of a read that was solved.
    pub fn into_solved(self) -> Option<Box<SolvedFrom>>
        ensures value { result ≡ solved_in self }
        ensures solved { (call : CallOf) → IsComputedOf call self → IfSome result (λ from. IsSolvedOf from.value) }
    {
        match self {
            Computed::Solved(from) => Some(from),
            _ => None,
        }
    }
}
