//! Messages that wait, by their names. They stand in the order of their names, so none is looked
//! for one by one.

ghost use Rattle.std.specs.Prelude.{◌≡◌, ◌≤◌, true, false, nat_le, nat_lt, length, take, drop};
ghost use Rattle.std.specs.List.{AllByRecursion};
ghost use Rattle.std.specs.List.Sorted.{IsSearchInRange};
ghost use Rattle.std.specs.Option.{option_copied};
ghost use Rattle.sn_tables.specs.inner.Tables.{IsPlace};
ghost use Rattle.rep_op.specs.Orders.{name_of, put_cmp};
ghost use Rattle.rep_log.specs.Mail.{put_by_name, Rising};

use rep_ops::Put;

/// Where a message of that name stands among messages in order, or where it would go. The time is
/// logarithmic.
pub(crate) fn place_of_name(puts: &[Put], seq: u64, origin: u8) -> Result<usize, usize>
    ensures place { Rising puts.now
        → IsPlace (λ put. put_cmp (name_of put) (seq, origin)) puts.now result }
    ensures bound { IsSearchInRange result (length puts.now) }
{
    puts.binary_search_by(|put| put.seq.cmp(&seq).then(put.origin.cmp(&origin)))
}

/// The message of that name among messages in order. The time is logarithmic.
pub fn find_put<'a>(puts: &'a [Put], seq: u64, origin: u8) -> Option<&'a Put>
    ensures { Rising puts.now → option_copied result ≡ put_by_name (seq, origin) puts.now }
{
    match place_of_name(puts, seq, origin) {
        Ok(at) => Some(&puts[at]),
        Err(_) => None,
    }
}

/// How many of messages in order have a sequence number below this one. The time is logarithmic.
pub(crate) fn count_below(puts: &[Put], seq: u64) -> usize
    ensures bound { result ≤ length puts.now }
    ensures below { Rising puts.now
        → AllByRecursion (λ put. nat_lt put.seq seq ≡ true) (take result puts.now) }
{
    puts.partition_point(|put| put.seq < seq)
}

/// How many of messages in order have this sequence number or one below it. The time is
/// logarithmic.
pub(crate) fn count_up_to(puts: &[Put], seq: u64) -> usize
    ensures bound { result ≤ length puts.now }
    ensures above { Rising puts.now
        → AllByRecursion (λ put. nat_le put.seq seq ≡ false) (drop result puts.now) }
{
    puts.partition_point(|put| put.seq <= seq)
}
