// Whether the numbers of a plan are within their ranges.
ghost use Rattle.std.specs.Prelude.{◌≡◌, ◌&&◌, ◌==◌, length, nat_le};
ghost use Rattle.kinds.specs.Kinds.{radices_fit, stocks_fit, choice_fits, counts_fit};
ghost use Rattle.kinds.specs.Ranges.{all_between, sum_within};

// Whether every number of the list is from `low` to `high`.
fn all_between(low: u16, high: u16, list: &[u16]) -> bool
    ensures { result ≡ all_between low high list.now }
{
    list.iter().all(|x| low <= *x && *x <= high)
}

// Whether the numbers of the list add up to at most `most`.
fn sum_within(most: u16, list: &[u16]) -> bool
    ensures { result ≡ sum_within most list.now }
{
    list.iter()
        .try_fold(most, |left, x| left.checked_sub(*x))
        .is_some()
}

// Whether the list has n numbers, and n is up to 32. The two come apart, as a plan has them, and the makers refuse where they
// disagree.
fn has_entries(n: u16, list: &[u16]) -> bool
    ensures { result ≡ (nat_le n 32 && (length list.now == n)) }
{
    n <= 32 && list.len() == usize::from(n)
}

// Whether the list has n radices, up to 32, each from 1 to 255.
pub(crate) fn radices_fit(n: u16, list: &[u16]) -> bool
    ensures { result ≡ radices_fit n list.now }
{
    has_entries(n, list) && all_between(1, 255, list)
}

// Whether the list has n stocks, and these and the sum t are up to 32.
pub(crate) fn stocks_fit(n: u16, t: u16, list: &[u16]) -> bool
    ensures { result ≡ stocks_fit n t list.now }
{
    t <= 32 && has_entries(n, list) && all_between(0, 32, list)
}

// Whether t and n are up to 32.
pub(crate) fn choice_fits(n: u16, t: u16) -> bool
    ensures { result ≡ choice_fits n t }
{
    t <= 32 && n <= 32
}

// Whether the list has n counts, up to 32, with a sum up to 32.
pub(crate) fn counts_fit(n: u16, list: &[u16]) -> bool
    ensures { result ≡ counts_fit n list.now }
{
    has_entries(n, list) && sum_within(32, list)
}
