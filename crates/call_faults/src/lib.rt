// call: the lines that refuse an answer or an offer to sound tables: 31, 11 to 16, 33, 32, the first that applies (§5.3).
#![tactic(auto)]

ghost use Rattle.std.specs.Prelude.{◌≡◌, true};
ghost use Rattle.model.specs.Automata.{is_yes};
ghost use Rattle.model.specs.Calls.{contradicts, offer_fault, fault_of, verdict_is};
ghost use Rattle.model.specs.Entry.{lists_fit, tables_of};
ghost use Rattle.model.specs.Refusals.{refused_by};
ghost use Rattle.bank.specs.Bank.{Bank};
ghost use Rattle.run_lists.specs.Members.{counts_in};
ghost use Rattle.sound.specs.Proposal.{Proposal};
ghost use Rattle.call.specs.Said.{call_of};
ghost use Rattle.call_faults.specs.Lines.{InputFault, Tested};

use bank::rows;
use call::Said;
use model::refusal::Refusal;
use model::{Lists, Verdict};

mod answer; // answer.rt: the lines that refuse an answer

// The first line that refuses an offer without a look at the tables: 31, or 11 to 16.
#[tactic(auto, using(crate::proofs::Laws::OfferLines::line_asking, crate::proofs::Laws::OfferLines::line_accepted, crate::proofs::Laws::OfferLines::line_record, crate::proofs::Laws::OfferLines::line_mark))]
fn input_fault(lists: Lists, symbols: &[u8], mark: u8) -> Result<(), Refusal>
    requires { lists_fit lists ≡ true }
    ensures { InputFault lists symbols.now mark (refused_by result) }
{
    if lists.asked != 0 {
        return Err(Refusal::Phase);
    }
    if lists.accepted == 1 {
        return Err(Refusal::Phase);
    }
    bank_listed::record_fault(lists.alphabet(), symbols)?;
    if 1 < mark {
        return Err(Refusal::Mark);
    }
    Ok(())
}

// Whether a verdict is yes.
fn is_yes(verdict: Verdict) -> bool
    ensures { result ≡ is_yes verdict }
{
    match verdict {
        Verdict::Accepted => true,
        Verdict::NotFinal => false,
        Verdict::NoRule(_) => false,
    }
}

// Whether the mark is the verdict of the proposed automaton, on an offer that 31 and 11 to 16 do not refuse.
fn verdict_is(
    words: &[u32],
    lists: Lists,
    symbols: &[u8],
    mark: u8,
    index: &[u16],
    reps: &[u16],
) -> bool
    requires { (lists_fit lists ≡ true)
        × Bank words.now (counts_in lists) lists.used index.now
        × Proposal words.now lists reps.now
        × Tested lists symbols.now mark }
    ensures { result ≡ verdict_is (tables_of words.now lists) symbols.now mark }
{
    let verdict = call_verdict::verdict_of(words, lists, symbols, index, reps);
    is_yes(verdict) == (mark == 1)
}

// Whether the mark contradicts the stored answer: a table of six cases, for §5.2 and `contradicts` of model have them so.
fn contradicts(stored: u32, mark: u8) -> bool
    ensures { result ≡ contradicts stored mark }
{
    match stored {
        0 => match mark {
            0 => false,
            1 => false,
            _ => false,
        },
        1 => match mark {
            0 => false,
            1 => true,
            _ => false,
        },
        2 => match mark {
            0 => true,
            1 => false,
            _ => false,
        },
        _ => false,
    }
}

// The first line that refuses an offer to sound tables.
fn offer_fault(
    words: &[u32],
    lists: Lists,
    symbols: &[u8],
    mark: u8,
    index: &[u16],
    reps: &[u16],
) -> Result<(), Refusal>
    requires { (lists_fit lists ≡ true)
        × Bank words.now (counts_in lists) lists.used index.now
        × (lists.asked ≡ 0 → Proposal words.now lists reps.now) }
    ensures { refused_by result ≡ offer_fault (tables_of words.now lists) symbols.now mark }
{
    input_fault(lists, symbols, mark)?;
    let row = bank_listed::known_row(words, lists.alphabet(), lists.used, index, symbols);
    let answer = rows::answer_of(words, row);
    if contradicts(answer, mark) {
        return Err(Refusal::Contradicts);
    }
    if verdict_is(words, lists, symbols, mark, index, reps) {
        return Err(Refusal::Agrees);
    }
    Ok(())
}

// The first line that refuses what was said to sound tables.
pub fn fault_of(
    words: &[u32],
    lists: Lists,
    symbols: &[u8],
    said: Said,
    index: &[u16],
    reps: &[u16],
) -> Result<(), Refusal>
    requires { (lists_fit lists ≡ true)
        × Bank words.now (counts_in lists) lists.used index.now
        × (lists.asked ≡ 0 → Proposal words.now lists reps.now) }
    ensures { refused_by result ≡ fault_of (tables_of words.now lists) (call_of said symbols.now) }
{
    match said {
        Said::Answer(mark) => answer::answer_fault(lists, mark),
        Said::Offer(mark) => offer_fault(words, lists, symbols, mark, index, reps),
    }
}
