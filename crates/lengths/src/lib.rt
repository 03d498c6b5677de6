// Lists of lengths, of texts that lie end to end. No sum of lengths wraps, whatever the list holds.
#![tactic(auto)]

ghost use Rattle.std.specs.Prelude.{◌≡◌, eqb};
ghost use Rattle.lengths.specs.Lengths.{total, any_above};

// Whether the lengths add up to a whole. Each is judged before it is taken off what is left of the whole.
pub fn add_up(lengths: &[u64], whole: u64) -> bool
    ensures { result ≡ eqb (total lengths.now) whole }
{
    lengths
        .iter()
        .try_fold(whole, |left, n| left.checked_sub(*n))
        == Some(0)
}

// Whether any of the lengths is above a limit.
pub fn any_above(lengths: &[u64], most: u64) -> bool
    ensures { result ≡ any_above most lengths.now }
{
    lengths.iter().any(|n| *n > most)
}
