// products: the calls that a host makes from C and Rust: thin functions over the calls by value (§3).
// Nothing is required of what a host lends.
#![tactic(auto)]

ghost use Rattle.std.specs.Prelude.{◌≡◌};
ghost use Rattle.model.specs.Limits.{version};
ghost use Rattle.model.specs.Calls.{offers, answers, accept as accept_call, looks};
ghost use Rattle.model.specs.Entry.{start_seen, start_words, start_lists, call_seen, call_words, call_lists, emit_seen, emit_out, judge_seen, load_seen};
ghost use Rattle.model.specs.View.{sizes_seen, children_seen, final_seen, rule_seen, target_seen};

use model::limits::VERSION;
use model::refusal::Refusal;
use model::{Emitted, Found, Judged, ListRule, ListSizes, Lists, Seen};

// The version of the layouts and of the calls (§11): a host compares it with the one that its header has.
#[unsafe(no_mangle)]
pub extern "C" fn kuldveth_version() -> u32
    ensures { result ≡ version }
{
    VERSION
}

// Start of a run over an alphabet given by its child counts (§3.2).
#[unsafe(no_mangle)]
pub extern "C" fn kuldveth_start(words: &mut [u32], lists: &mut Lists, counts: &[u8]) -> Seen
    ensures value { result ≡ start_seen words.old counts.now }
    ensures words { words.new ≡ start_words words.old counts.now }
    ensures lists { lists.new ≡ start_lists words.old counts.now lists.old }
{
    let started = call::start(words, counts);
    call::finish(lists, started)
}

// An offer of a record, children before parent, with the archive's mark (§3.4).
#[unsafe(no_mangle)]
pub extern "C" fn kuldveth_offer(
    words: &mut [u32],
    lists: &mut Lists,
    symbols: &[u8],
    mark: u8,
) -> Seen
    ensures value { result ≡ call_seen words.old lists.old (offers symbols.now mark) }
    ensures words { words.new ≡ call_words words.old lists.old (offers symbols.now mark) }
    ensures lists { lists.new ≡ call_lists words.old lists.old (offers symbols.now mark) }
{
    let offered = call_room::offer(words, *lists, symbols, mark);
    call::finish(lists, offered)
}

// An answer to the open question (§3.5).
#[unsafe(no_mangle)]
pub extern "C" fn kuldveth_answer(words: &mut [u32], lists: &mut Lists, mark: u8) -> Seen
    ensures value { result ≡ call_seen words.old lists.old (answers mark) }
    ensures words { words.new ≡ call_words words.old lists.old (answers mark) }
    ensures lists { lists.new ≡ call_lists words.old lists.old (answers mark) }
{
    let answered = call_room::answer(words, *lists, mark);
    call::finish(lists, answered)
}

// Acceptance of the proposal (§3.6).
#[unsafe(no_mangle)]
pub extern "C" fn kuldveth_accept(words: &mut [u32], lists: &mut Lists) -> Seen
    ensures value { result ≡ call_seen words.old lists.old accept_call }
    ensures words { words.new ≡ call_words words.old lists.old accept_call }
    ensures lists { lists.new ≡ call_lists words.old lists.old accept_call }
{
    let accepted = call_room::accept(words, *lists);
    call::finish(lists, accepted)
}

// Looking (§3.3): changes nothing.
#[unsafe(no_mangle)]
pub extern "C" fn kuldveth_look(words: &[u32], lists: &Lists) -> Seen
    ensures { result ≡ call_seen words.now lists.now looks }
{
    call_read::look(words, *lists)
}

// Emitting the list of the proposed automaton (§3.7): the count of bytes written; the bytes past them stay.
#[unsafe(no_mangle)]
pub extern "C" fn kuldveth_emit(words: &[u32], lists: &Lists, out: &mut [u8]) -> Emitted
    ensures value { result ≡ emit_seen words.now lists.now out.old }
    ensures out { out.new ≡ emit_out words.now lists.now out.old }
{
    call_read::emit(words, *lists, out)
}

// The verdict of the proposed automaton on a listed record (§3.8): changes nothing.
#[unsafe(no_mangle)]
pub extern "C" fn kuldveth_verdict(words: &[u32], lists: &Lists, symbols: &[u8]) -> Judged
    ensures { result ≡ judge_seen words.now lists.now symbols.now }
{
    call_read::verdict(words, *lists, symbols)
}

// Loading a list (§3.9): 21, or the count of its rules.
#[unsafe(no_mangle)]
pub extern "C" fn kuldveth_load(bytes: &[u8]) -> Emitted
    ensures { result ≡ load_seen bytes.now }
{
    match list::load(bytes) {
        Some(rules) => Emitted {
            number: 0,
            size: rules as u32,
        },
        None => Emitted {
            number: u8::from(Refusal::NoList) as u32,
            size: 0,
        },
    }
}

// How many symbols, states and rules a list has (§6.3).
#[unsafe(no_mangle)]
pub extern "C" fn kuldveth_list_sizes(bytes: &[u8]) -> ListSizes
    ensures { result ≡ sizes_seen bytes.now }
{
    list_view::sizes_seen(bytes)
}

// The child count of a symbol of a list (§6.3).
#[unsafe(no_mangle)]
pub extern "C" fn kuldveth_list_children(bytes: &[u8], symbol: u8) -> Found
    ensures { result ≡ children_seen bytes.now symbol }
{
    list_view::children_seen(bytes, symbol)
}

// Whether a state of a list is final (§6.3).
#[unsafe(no_mangle)]
pub extern "C" fn kuldveth_list_final(bytes: &[u8], state: u8) -> Found
    ensures { result ≡ final_seen bytes.now state }
{
    list_view::final_seen(bytes, state)
}

// A rule of a list by its number (§6.3).
#[unsafe(no_mangle)]
pub extern "C" fn kuldveth_list_rule(bytes: &[u8], k: u16) -> ListRule
    ensures { result ≡ rule_seen bytes.now k }
{
    list_view::rule_seen(bytes, k)
}

// The target of the rule of a list with a left side (§6.3).
#[unsafe(no_mangle)]
pub extern "C" fn kuldveth_list_target(bytes: &[u8], symbol: u8, states: &[u8]) -> Found
    ensures { result ≡ target_seen bytes.now symbol states.now }
{
    list_view::target_seen(bytes, symbol, states)
}
