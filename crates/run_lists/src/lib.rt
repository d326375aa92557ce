// run: the run's lists: numbers looked for in them, whether they fit, and every way in which they change (§2.2).
// Proved equal to model's tests on lists, and to the changes that specs/Changes.antt defines.
#![tactic(auto)]

ghost use Rattle.std.specs.Prelude.{◌≡◌};
ghost use Rattle.model.specs.Base.{among, no_repeats, all_among, place_of};

use model::Row;

pub mod change; // change.rt: the ways in which lists change
pub mod fit; // fit.rt: lengths within their arrays, an alphabet within its limits

// Whether a row is in a list.
pub fn is_among(xs: &[u16], row: Row) -> bool
    ensures { result ≡ among row.0 xs.now }
{
    xs.contains(&row.0)
}

// The place of a row in a list; the length of the list for none, as model's place_of has it: call_emit's `state_of` promises that of any row.
pub fn place_of(xs: &[u16], row: Row) -> usize
    ensures { result ≡ place_of row.0 0 xs.now }
{
    xs.iter().position(|x| *x == row.0).unwrap_or(xs.len())
}

// Whether the rows of a list are all different.
pub fn no_repeats(xs: &[u16]) -> bool
    ensures { result ≡ no_repeats xs.now }
{
    let mut rest = xs;
    while let Some((x, behind)) = rest.split_first() {
        if is_among(behind, Row(*x)) {
            return false;
        }
        rest = behind;
    }
    true
}

// Whether the rows of one list are all in another.
pub fn all_among(xs: &[u16], ys: &[u16]) -> bool
    ensures { result ≡ all_among xs.now ys.now }
{
    xs.iter().all(|x| is_among(ys, Row(*x)))
}
