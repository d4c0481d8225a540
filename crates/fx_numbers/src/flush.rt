//! Flushes that settled commits, and the first that reaches a number.
ghost use Rattle.std.specs.Prelude.{◌≡◌};
ghost use Rattle.fx_numbers.specs.Noted.{ReachAlike, calls_by, first_calls};

/// The commits up to the number were settled, after so many device calls.
#[derive(Clone, Copy, Debug, PartialEq, Eq)]
pub(crate) struct Flush {
    pub(crate) number: u64,
    pub(crate) calls: u64,
}

/// The device calls of the first flush; 0 where there is none.
pub(crate) fn calls_of(flushes: &[Flush]) -> u64
    ensures { result ≡ first_calls flushes.now }
{
    match flushes.split_first() {
        Some((first, _)) => first.calls,
        None => 0,
    }
}

/// The flushes from the first on that reaches the number.
fn skip_to(flushes: &[Flush], number: u64) -> &[Flush]
    ensures alike { ReachAlike number result.now flushes.now }
    ensures first { first_calls result.now ≡ calls_by flushes.now number }
{
    let mut rest = flushes;
    while let Some((first, later)) = rest.split_first() {
        if number <= first.number {
            return rest;
        }
        rest = later;
    }
    rest
}

/// The same, where `rest` begins with the first one that reaches an earlier number. Where the numbers
/// do not rise it begins anew.
pub(crate) fn first_from<'a>(
    flushes: &'a [Flush],
    rest: &'a [Flush],
    last: u64,
    number: u64,
) -> &'a [Flush]
    requires { ReachAlike last rest.now flushes.now }
    ensures alike { ReachAlike number result.now flushes.now }
    ensures first { first_calls result.now ≡ calls_by flushes.now number }
{
    if number < last {
        return skip_to(flushes, number);
    }
    skip_to(rest, number)
}
