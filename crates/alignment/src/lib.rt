// Multiples of an alignment, and the smallest page of a page-size bitmap.
#![tactic(auto)]

ghost use Rattle.std.specs.Prelude.{◌≡◌, ◌<◌, ◌^◌};
ghost use Rattle.alignment.specs.Multiples.{multiple, fits, lowest_multiple};
ghost use Rattle.alignment.specs.Pages.{smallest_page};

// Whether x is a multiple of a. Of 0 only 0 is one. The page that nearly every device has is asked apart, since a remainder by a literal needs no division.
#[tactic(auto, unfolding(crate::specs::Multiples::multiple))]
pub fn is_multiple(a: u64, x: u64) -> bool
    ensures { result ≡ multiple a x }
{
    if a == 4096 {
        return x % 4096 == 0;
    }
    x.is_multiple_of(a)
}

// Whether start and start + length are multiples of a, where the sum may be 2^64. For the page that nearly every device has, one test does.
#[tactic(auto, using(crate::proofs::Dividing::page_fits, crate::proofs::Dividing::start_off, crate::proofs::Dividing::length_tells))]
pub fn is_fit(a: u64, start: u64, length: u64) -> bool
    ensures { result ≡ fits a start length }
{
    if a == 4096 {
        return start % 4096 + length % 4096 == 0;
    }
    is_multiple(a, start) && is_multiple(a, length)
}

// The lowest multiple of a from x on, if there is one below 2^64.
#[tactic(auto, using(crate::proofs::Adding::lowest_laws))]
pub fn lowest_multiple(a: u64, x: u64) -> Option<u64>
    ensures { result ≡ lowest_multiple a x }
{
    if is_multiple(a, x) {
        return Some(x);
    }
    if a == 0 {
        return None;
    }
    x.checked_add(a - x % a)
}

// The lowest set bit of a page-size bitmap. It is 1 for 0, so that every page is a power of two.
#[tactic(auto, using(crate::proofs::Dividing::page_none, crate::proofs::Dividing::page_some))]
pub fn smallest_page(bitmap: u64) -> u64
    ensures { result ≡ smallest_page bitmap }
{
    if bitmap == 0 {
        return 1;
    }
    1u64 << bitmap.trailing_zeros()
}
