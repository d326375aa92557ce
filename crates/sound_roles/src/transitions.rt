// T2 (§2.3) but for the length of T: transitions are records, none twice, whose children are representatives.
ghost use Rattle.std.specs.Prelude.{◌≡◌, true, ◌&&◌, ℕ, ◌<◌};
ghost use Rattle.model.specs.Base.{all, no_repeats, all_among};
ghost use Rattle.model.specs.Store.{kids_at, is_record};
ghost use Rattle.model.specs.Entry.{store_of};

use bank::terms::Terms;
use model::Row;

// Whether the children of a row are all in S.
fn kids_in(bank: &Terms<'_>, row: Row, s: &[u16]) -> bool
    requires { (0 < row.0) × (row.0 < bank.now.used) }
    ensures { let store = store_of bank.now.words bank.now.counts bank.now.used in
        result ≡ all_among (kids_at store row.0) s.now }
{
    let _ = bank.used(); // the answers read its clause `ready`
    let count = bank.count_of(row) as usize;
    let places = bank.places_of(row);
    places[..count]
        .iter()
        .all(|kid| run_lists::is_among(s, Row(*kid as u16)))
}

// Whether the children of each transition are representatives.
fn all_kids_in(bank: &Terms<'_>, t: &[u16], s: &[u16]) -> bool
    requires { let store = store_of bank.now.words bank.now.counts bank.now.used in
        all (is_record store) t.now ≡ true }
    ensures { let store = store_of bank.now.words bank.now.counts bank.now.used in
        result ≡ all (λ (i : ℕ). all_among (kids_at store i) s.now) t.now }
{
    t.iter().all(|i| kids_in(bank, Row(*i), s))
}

// T2 but for the length of T.
pub fn t2(bank: &Terms<'_>, t: &[u16], s: &[u16]) -> bool
    ensures { let store = store_of bank.now.words bank.now.counts bank.now.used in
        let rules = t.now in
        result ≡ no_repeats rules && (all (is_record store) rules && all (λ (i : ℕ). all_among (kids_at store i) s.now) rules) }
{
    let used = bank.used();
    let index = bank.index();
    run_lists::no_repeats(t) && crate::all_records(used, index, t) && all_kids_in(bank, t, s)
}
