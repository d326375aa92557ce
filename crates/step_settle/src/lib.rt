// step: how a step ends: short of something, with a question or with a proposal; settling and putting down (§4.1 to §4.3).
// Each function mirrors its definition in model's Steps: it gives the lists left, or what the step is short of.
#![tactic(auto)]

ghost use Rattle.step_settle.specs.Stepped.{OpenedAs};

use bank_fill::add::Added;
use model::refusal::Refusal;
use model::{Lists, Row};
use run_lists::change;

pub mod propose; // propose.rt: S grows, and the automaton is proposed
pub mod putdown; // putdown.rt: the record in hand is put down with its context
pub mod settle; // settle.rt: the first unknown answer is asked, or the automaton is proposed

// A question about the row that was built; short where its rows do not fit.
pub fn opened(lists: Lists, hand: Row, added: Option<Added>) -> Result<Lists, Refusal>
    ensures { OpenedAs lists hand.0 added result }
{
    let added = added.ok_or(Refusal::RowsShort)?;
    Ok(change::asking(lists, hand, added.row, added.used))
}
