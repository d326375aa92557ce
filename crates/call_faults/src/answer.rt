// The lines that refuse an answer to sound tables (§5.3): 31, 16.
ghost use Rattle.std.specs.Prelude.{◌≡◌, List, ℕ};
ghost use Rattle.model.specs.Calls.{answer_fault};
ghost use Rattle.model.specs.Entry.{tables_of};
ghost use Rattle.model.specs.Refusals.{refused_by};

use model::Lists;
use model::refusal::Refusal;

// The first line that refuses an answer to sound tables: 31 or 16.
pub fn answer_fault(lists: Lists, mark: u8) -> Result<(), Refusal>
    ensures { (words : List ℕ) → refused_by result ≡ answer_fault (tables_of words lists) mark }
{
    if lists.asked == 0 {
        return Err(Refusal::Phase);
    }
    if 1 < mark {
        return Err(Refusal::Mark);
    }
    Ok(())
}
