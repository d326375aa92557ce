// table: the answers of all transitions at all contexts, whole or up to the first gap (§1.5).
// Each transition's answers are read off its column. Proved equal to model's answers_of.
#![tactic(auto)]

ghost use Rattle.std.specs.Prelude.{◌*◌, ◌≤◌, length};
ghost use Rattle.model.specs.Limits.{most_contexts, most_rules};
ghost use Rattle.model.specs.Entry.{store_of, answers_in};
ghost use Rattle.bank.specs.Notes.{room_in};
ghost use Rattle.table.specs.Answers.{Observed, KnownRows, ToGap};
ghost use Rattle.table_columns.specs.Columns.{Answered, Contexts, Used};

use bank::terms::Terms;
use model::Row;
use model::limits::MOST_CONTEXTS;

// The answers of T at C, into the table.
pub fn observe(bank: &Terms<'_>, t: &[u16], c: &[u16], table: &mut [u8], notes: &mut [u16])
    requires { let x = store_of bank.now.words bank.now.counts bank.now.used in
        Answered bank.now.words bank.now.used
        × Used bank.now.used t.now (length t.now)
        × Contexts x c.now (length c.now)
        × (length c.now ≤ most_contexts)
        × (length t.now ≤ most_rules)
        × (most_contexts * length t.now ≤ length table.old)
        × (bank.now.used ≤ room_in notes.old) }
    ensures { let x = store_of bank.now.words bank.now.counts bank.now.used in
        let w = answers_in bank.now.used bank.now.words in
        Observed x w t.now (length t.now) c.now (length c.now) table.new }
{
    let mut tops = [0u16; MOST_CONTEXTS];
    let n = table_columns::needed::needed_rows(bank, c, notes, &mut tops);
    let contexts = c.len();
    let words = bank.words();
    let used = bank.used();
    for (k, row) in t.iter().enumerate() {
        table_columns::fill_column(bank, n, Row(*row), notes);
        table_columns::read_column(words, used, &tops[..contexts], notes, k, table);
    }
}

// The same up to the first transition with an unknown answer, if there is one: how many transitions have their answers.
// In the table lent a row without an unknown answer is right, and stays as it is.
pub fn observe_to_gap(
    bank: &Terms<'_>,
    t: &[u16],
    c: &[u16],
    table: &mut [u8],
    notes: &mut [u16],
) -> usize
    requires { let x = store_of bank.now.words bank.now.counts bank.now.used in
        let w = answers_in bank.now.used bank.now.words in
        Answered bank.now.words bank.now.used
        × Used bank.now.used t.now (length t.now)
        × Contexts x c.now (length c.now)
        × (length c.now ≤ most_contexts)
        × KnownRows x w t.now (length t.now) c.now (length c.now) table.old
        × (bank.now.used ≤ room_in notes.old) }
    ensures { let x = store_of bank.now.words bank.now.counts bank.now.used in
        let w = answers_in bank.now.used bank.now.words in
        ToGap x w t.now (length t.now) c.now (length c.now) table.new result }
{
    let mut tops = [0u16; MOST_CONTEXTS];
    let n = table_columns::needed::needed_rows(bank, c, notes, &mut tops);
    let contexts = c.len();
    let words = bank.words();
    let used = bank.used();
    for (k, row) in t.iter().enumerate() {
        if !table::has_answer(table, contexts, k, 0) {
            continue;
        }
        table_columns::fill_column(bank, n, Row(*row), notes);
        table_columns::read_column(words, used, &tops[..contexts], notes, k, table);
        if table::has_answer(table, contexts, k, 0) {
            return k + 1;
        }
    }
    t.len()
}
