//! What records leave, one record after another.
ghost use Rattle.std.specs.Prelude.{◌≡◌, map, filter, nat_le, IfOk, OnOk};
ghost use Rattle.fx_record.specs.Record.{plain_record};
ghost use Rattle.fx_record.specs.Txns.{in_order, may_come, number_of, put, txns_of, txns_left_by};

use fx_item::Items;
use fx_record::Record;
use std::alloc::{AllocError, Global};

/// The transactions that the records leave: each is put at the end, and a discard takes away those past
/// its number.
pub fn folded(alloc: Global, records: Vec<Record>) -> Result<Vec<(u64, Items)>, AllocError>
    ensures { IfOk result (λ txns. txns_of txns.items
        ≡ txns_left_by (map plain_record records.items)) }
{
    let mut txns = Vec::new(alloc);
    for record in records {
        put_one(&mut txns, record)?;
    }
    Ok(txns)
}

fn put_one(txns: &mut Vec<(u64, Items)>, next: Record) -> Result<(), AllocError>
    ensures { OnOk result
        (txns_of txns.new.items ≡ put (txns_of txns.old.items) (plain_record next)) }
{
    match next {
        Record::Txn { number, items } => {
            txns.push((number, items))?;
            Ok(())
        }
        Record::Discard { number } => {
            keep_upto(txns, number);
            Ok(())
        }
    }
}

fn keep_upto(txns: &mut Vec<(u64, Items)>, number: u64)
    ensures { txns.new.items ≡ filter (λ t. nat_le t.0 number) txns.old.items }
{
    txns.retain(|t| t.0 <= number);
}

/// Whether each record may come after those before it, the first one after number `base`.
pub fn is_in_order(base: u64, records: &[Record]) -> bool
    ensures { result ≡ in_order base base (map plain_record records.now) }
{
    let mut last = base;
    for record in records {
        if !comes(base, last, record) {
            return false;
        }
        last = number(record);
    }
    true
}

fn comes(base: u64, last: u64, next: &Record) -> bool
    ensures { result ≡ may_come base last (plain_record next.now) }
{
    match next {
        Record::Txn { number, .. } => last < *number && *number - last == 1,
        Record::Discard { number } => base <= *number && *number <= last,
    }
}

fn number(one: &Record) -> u64
    ensures { result ≡ number_of (plain_record one.now) }
{
    match one {
        Record::Txn { number, .. } => *number,
        Record::Discard { number } => *number,
    }
}
