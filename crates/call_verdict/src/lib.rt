// call: the verdict on a listed record, the same for offers and for the call that asks it of sound tables: 31, 11 to 15, then the verdict (§3.8).
#![tactic(auto)]

ghost use Rattle.std.specs.Prelude.{◌≡◌, true, List, ℕ};
ghost use Rattle.model.specs.Terms.{record_fault};
ghost use Rattle.model.specs.Automata.{verdict_on};
ghost use Rattle.model.specs.Table.{automaton_of};
ghost use Rattle.model.specs.Sound.{is_sound};
ghost use Rattle.model.specs.Calls.{judge_fault};
ghost use Rattle.model.specs.Entry.{size_fits, lists_fit, tables_of, judge_seen};
ghost use Rattle.model.specs.Refusals.{refused_by, verdict_as};
ghost use Rattle.bank.specs.Bank.{Bank};
ghost use Rattle.run_lists.specs.Members.{counts_in};
ghost use Rattle.sound.specs.Proposal.{Proposal};

use bank::terms::Terms;
use model::refusal::Refusal;
use model::{Lists, Verdict};

// The verdict of the proposed automaton on a record that is listed without a fault.
pub fn verdict_of(
    words: &[u32],
    lists: Lists,
    symbols: &[u8],
    index: &[u16],
    reps: &[u16],
) -> Verdict
    requires { (lists_fit lists ≡ true)
        × Bank words.now (counts_in lists) lists.used index.now
        × Proposal words.now lists reps.now
        × (record_fault (counts_in lists) symbols.now ≡ 0) }
    ensures { result ≡ verdict_on (automaton_of (tables_of words.now lists)) symbols.now }
{
    let bank = Terms::new(words, lists.alphabet(), lists.used, index);
    table_verdict::verdict_on(&bank, reps, symbols)
}

// The first line that refuses a verdict on sound tables: 31, or 11 to 15.
fn judge_fault(lists: Lists, symbols: &[u8]) -> Result<(), Refusal>
    requires { lists_fit lists ≡ true }
    ensures { (words : List ℕ) → refused_by result ≡ judge_fault (tables_of words lists) symbols.now }
{
    if lists.asked != 0 {
        return Err(Refusal::Phase);
    }
    bank_listed::record_fault(lists.alphabet(), symbols)
}

// The verdict asked of sound tables: 31, 11 to 15, then the verdict.
pub fn judge_sound(
    words: &[u32],
    lists: Lists,
    symbols: &[u8],
    index: &[u16],
    reps: &[u16],
) -> Result<Verdict, Refusal>
    requires { (size_fits words.now ≡ true)
        × (lists_fit lists ≡ true)
        × (is_sound (tables_of words.now lists) ≡ true)
        × Bank words.now (counts_in lists) lists.used index.now
        × (lists.asked ≡ 0 → Proposal words.now lists reps.now) }
    ensures { verdict_as result ≡ judge_seen words.now lists symbols.now }
{
    judge_fault(lists, symbols)?;
    Ok(verdict_of(words, lists, symbols, index, reps))
}
