// model: what a host lends and what a call returns; the definitions of the calls, the laws about them and the promises.
// Its functions convert numbers and give slices of the lists: specs/ has the definitions, proofs/ the laws and the proofs of the promises.
#![tactic(auto)]

use limits::{MOST_CONTEXTS, MOST_RULES, MOST_STATES, MOST_SYMBOLS};

pub mod limits; // limits.rt: the numbers of the specification
pub mod members; // members.rt: the members of the run's lists, each as a slice
pub mod refusal; // refusal.rt: why a call is refused
mod told; // told.rt: what a host is told by numbers

// A row of the record table, a state of the proposal, a member of C: three sequences of numbers that are never mixed (§2.2).
#[derive(Clone, Copy)]
pub struct Row(pub u16);

#[derive(Clone, Copy)]
pub struct State(pub u16);

#[derive(Clone, Copy)]
pub struct Context(pub u16);

// The run's own lists (§2.2). A count says how much of the array after it is meant; in `hand` and `asked` 0 is none; `accepted` is 0 or 1.
// Order and widths of the fields leave no padding, here and in the structs below: a byte without a field would be what the stack held.
#[repr(C)]
#[derive(Clone, Copy)]
pub struct Lists {
    pub letters: u8,
    pub counts: [u8; MOST_SYMBOLS],
    pub accepted: u8,
    pub used: u16,
    pub states: u16,
    pub s: [u16; MOST_STATES],
    pub rules: u16,
    pub t: [u16; MOST_RULES],
    pub contexts: u16,
    pub c: [u16; MOST_CONTEXTS],
    pub hand: u16,
    pub asked: u16,
}

// What looking tells (§3.3): phase 0 proposing, 1 asking, 2 accepted. A refusal has its number and zeros.
#[repr(C)]
#[derive(Clone, Copy)]
pub struct Seen {
    pub number: u8,
    pub phase: u8,
    pub row: u16,
    pub states: u16,
    pub rules: u16,
    pub contexts: u16,
}

// What emitting and loading return (§3.7, §3.9): bytes written, or rules read.
#[repr(C)]
#[derive(Clone, Copy)]
pub struct Emitted {
    pub number: u32,
    pub size: u32,
}

// The verdict on a listed record (§1.4): accepted, a state that is not final, or no rule at the place of a symbol.
#[derive(Clone, Copy)]
pub enum Verdict {
    Accepted,
    NotFinal,
    NoRule(u16),
}

// What the verdict call returns (§3.8): a verdict by its numbers. A refusal has its number and zeros.
#[repr(C)]
#[derive(Clone, Copy)]
pub struct Judged {
    pub number: u8,
    pub outcome: u8,
    pub place: u16,
}

// How many symbols, states and rules a list has (§6.3).
#[repr(C)]
#[derive(Clone, Copy)]
pub struct ListSizes {
    pub number: u16,
    pub symbols: u16,
    pub states: u16,
    pub rules: u16,
}

// One value of a list (§6.3): `found` is 1 where it is there, 0 where it is not.
#[repr(C)]
#[derive(Clone, Copy)]
pub struct Found {
    pub number: u16,
    pub found: u8,
    pub value: u8,
}

// A rule of a list (§6.3): the first `children` of `states` are its child states, and the others are 0.
#[repr(C)]
#[derive(Clone, Copy)]
pub struct ListRule {
    pub number: u8,
    pub found: u8,
    pub symbol: u8,
    pub children: u8,
    pub states: [u8; 4],
    pub target: u8,
}
