//! When a journal is written anew, and how long a gateway waits that cannot write.

ghost use Rattle.std.specs.Prelude.{◌≡◌, ◌<◌, ◌≤◌, ◌+◌, true};
ghost use Rattle.gw_main.specs.declared.growing.TheConstants.{LEAST_GROWTH, LONGEST_TRY};
ghost use Rattle.gw_main.specs.Growing as spec;

/// How many octets a journal grows before it is written anew, at least.
pub const LEAST_GROWTH: u64 = 1_048_576;

/// How many seconds a gateway that cannot write waits for its next try, at most.
pub const LONGEST_TRY: u64 = 30;

/// Whether a journal is to be written anew that had so many octets after the last time, and has
/// grown by so many since. Less is written then than twice what was recorded meanwhile.
pub fn is_grown(base: u64, growth: u64) -> bool
    ensures is { result ≡ spec.is_grown base growth }
    ensures less { result ≡ true → base + growth < growth + growth }
{
    growth > base && growth > LEAST_GROWTH
}

/// How many octets a journal has that was just written anew. Its two files had these lengths before
/// and after that. It is the file whose length changed, or the longer one if both changed, or
/// neither.
pub fn changed_length(before: (u64, u64), after: (u64, u64)) -> u64
    ensures { result ≡ spec.changed_length before after }
{
    if before.0 == after.0 && before.1 != after.1 {
        return after.1;
    }
    if before.1 == after.1 && before.0 != after.0 {
        return after.0;
    }
    if after.0 < after.1 {
        return after.1;
    }
    after.0
}

/// How many seconds a gateway that cannot write waits for its next try, which waited so many for
/// the last one: 1, and then twice as many each time, up to the longest.
pub fn next_try(last: u64) -> u64
    ensures is { result ≡ spec.next_try last }
    ensures least { 1 ≤ result }
    ensures most { result ≤ LONGEST_TRY }
{
    if last == 0 {
        return 1;
    }
    if last >= LONGEST_TRY {
        return LONGEST_TRY;
    }
    let twice = last + last;
    if twice >= LONGEST_TRY {
        return LONGEST_TRY;
    }
    twice
}

/// How many seconds a gateway waits after a shift before it opens its journal and tries again:
/// nothing where its writes go out. A first shift with a failed write makes it wait for none, as
/// one try may be enough; each later one for a next try, until there is a shift in which something
/// was recorded and all of it went out.
pub fn next_wait(last: Option<u64>, has_recorded: bool, has_failed: bool) -> Option<u64>
    ensures { result ≡ spec.next_wait last has_recorded has_failed }
{
    if !has_failed {
        return if has_recorded { None } else { last };
    }
    match last {
        None => Some(0),
        Some(waited) => Some(next_try(waited)),
    }
}
