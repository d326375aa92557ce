// The first line (§8.2): letters and one-digit child counts, alternating, parted by single spaces, no letter twice.
ghost use Rattle.std.specs.Prelude.{◌≡◌, length};
ghost use Rattle.model.specs.Limits.{most_symbols};
ghost use Rattle.text.specs.Alphabet.{pair_fits, alphabet_of};
ghost use Rattle.text_lines.specs.Opens.{OpenedAs};

use model::limits::MOST_SYMBOLS;

// Whether a letter, a space and a digit go with the letters before them.
fn pair_fits(letters: &[u8], letter: u8, between: u8, digit: u8) -> bool
    ensures { result ≡ pair_fits letters.now letter between digit }
{
    letters.len() < MOST_SYMBOLS
        && letter.is_ascii_alphabetic()
        && between == b' '
        && digit.is_ascii_digit()
        && !letters.contains(&letter)
}

// Reads a first line: its letters and its counts over the starts of two arrays, and how many there are.
pub fn alphabet_of(
    line: &[u8],
    letters: &mut [u8; MOST_SYMBOLS],
    counts: &mut [u8; MOST_SYMBOLS],
) -> Option<usize>
    requires { (length letters.old ≡ most_symbols) × (length counts.old ≡ most_symbols) }
    ensures { OpenedAs (alphabet_of line.now) result letters.old letters.new counts.new }
{
    if line.is_empty() {
        return Some(0);
    }
    let mut size = 0;
    let mut rest = line;
    while let [letter, between, digit, behind @ ..] = rest {
        if !pair_fits(&letters[..size], *letter, *between, *digit) {
            return None;
        }
        letters[size] = *letter;
        counts[size] = *digit - b'0';
        size += 1;
        match behind {
            [] => return Some(size),
            [b' ', more @ ..] => rest = more,
            _ => return None,
        }
    }
    None
}
