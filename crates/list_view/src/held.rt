// The view over the host's bytes (§6.3): each function takes the struct apart and calls one on bytes and numbers.
// Both stay (DECISIONS): the view shows a struct, and the calls of a C host have bytes alone.
ghost use Rattle.std.specs.Prelude.{◌≡◌, get_or};
ghost use Rattle.std.proofs.Math.Option.{some};
ghost use Rattle.model.specs.Automata.{is_final};
ghost use Rattle.model.specs.Listing.{body_at, behind};
ghost use Rattle.model.specs.Entry.{load_seen};
ghost use Rattle.list_view.specs.Shown.{sizes_in, rule_at, rule_shown, target_at, shown_bytes};

use crate::lookup::{count_in, final_in, rule_in, rules_shown, shown_bytes, sizes_in, target_in};
use crate::{LoadedList, ShownRule, Sizes};
use model::State;

// The view of bytes: of those that load, and of none where they do not.
pub fn view<'a>(bytes: &'a [u8]) -> LoadedList<'a>
    ensures { (result.bytes.now ≡ shown_bytes bytes.now)
        × (result.rules ≡ (load_seen bytes.now).size) }
{
    LoadedList {
        bytes: shown_bytes(bytes),
        rules: rules_shown(bytes),
    }
}

// How many symbols, states and rules the list has.
pub fn sizes_of<'a>(list: LoadedList<'a>) -> Sizes
    ensures { result ≡ sizes_in list.entry.bytes.now list.entry.rules }
{
    sizes_in(list.bytes, list.rules)
}

// The child count of a symbol.
pub fn child_count<'a>(list: LoadedList<'a>, symbol: u8) -> u8
    ensures { result ≡ get_or (body_at list.entry.bytes.now) symbol 0 }
{
    count_in(list.bytes, symbol)
}

// Whether a state is final.
pub fn is_final<'a>(list: LoadedList<'a>, q: State) -> bool
    ensures { result ≡ is_final (body_at (behind list.entry.bytes.now)) (some q.0) }
{
    final_in(list.bytes, q)
}

// A rule by its number.
pub fn rule<'a>(list: LoadedList<'a>, k: u16) -> ShownRule
    ensures { result ≡ rule_shown (rule_at k list.entry.bytes.now) }
{
    rule_in(list.bytes, k)
}

// The target of the rule with a left side, none where no rule has it.
pub fn target_of<'a>(list: LoadedList<'a>, symbol: u8, states: [u8; 4]) -> Option<State>
    ensures { result ≡ target_at list.entry.bytes.now list.entry.rules symbol states }
{
    target_in(list.bytes, list.rules, symbol, states)
}
