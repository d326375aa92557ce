// call: offers, answers and acceptance, by value, each in as much working memory as its tables need (§3).
// Words by reference, lists in and out. A refusal leaves both as they were.
#![tactic(auto)]

ghost use Rattle.std.specs.Prelude.{◌≡◌};
ghost use Rattle.model.specs.Calls.{answers, offers, accept as accept_call};
ghost use Rattle.call.specs.Calls.{CallAs};

use call::Said;
use model::Lists;
use model::refusal::Refusal;
use run_lists::change;

mod tried; // tried.rt: the room that an answer or an offer works in

// An offer: 18, 30, its own lines, then the step.
pub fn offer(words: &mut [u32], lists: Lists, symbols: &[u8], mark: u8) -> Result<Lists, Refusal>
    ensures { CallAs words.old lists (offers symbols.now mark) result words.new }
{
    tried::made(words, lists, symbols, Said::Offer(mark))
}

// An answer: 18, 30, 31, 16, then the step.
pub fn answer(words: &mut [u32], lists: Lists, mark: u8) -> Result<Lists, Refusal>
    ensures { CallAs words.old lists (answers mark) result words.new }
{
    let none = [0u8; 1];
    tried::made(words, lists, &none[..0], Said::Answer(mark))
}

// Acceptance: 18, 30, 31.
pub fn accept(words: &mut [u32], lists: Lists) -> Result<Lists, Refusal>
    ensures { CallAs words.old lists accept_call result words.new }
{
    call_read::looked(words, lists)?;
    if lists.asked != 0 || lists.accepted == 1 {
        return Err(Refusal::Phase);
    }
    Ok(change::accepting(lists))
}
