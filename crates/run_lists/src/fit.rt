// Whether lists fit (§2.2, §3.2): their lengths, the flag, an alphabet.
ghost use Rattle.std.specs.Prelude.{◌≡◌};
ghost use Rattle.model.specs.Sound.{alphabet_fits};
ghost use Rattle.model.specs.Entry.{lists_fit};

use model::Lists;
use model::limits::{MOST_CONTEXTS, MOST_RULES, MOST_STATES, MOST_SYMBOLS};

// Whether the alphabet is within its limits.
pub fn alphabet_fits(counts: &[u8]) -> bool
    ensures { result ≡ alphabet_fits counts.now }
{
    !counts.is_empty() && counts.len() <= MOST_SYMBOLS && counts.iter().all(|n| *n <= 4)
}

// Whether every length is within its array and the flag is 0 or 1.
pub fn lists_fit(lists: Lists) -> bool
    ensures { result ≡ lists_fit lists }
{
    lists.letters as usize <= MOST_SYMBOLS
        && lists.states as usize <= MOST_STATES
        && lists.rules as usize <= MOST_RULES
        && lists.contexts as usize <= MOST_CONTEXTS
        && lists.accepted <= 1
}
