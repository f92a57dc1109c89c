//! Laws of the definitions, as contracts of functions that do nothing.

ghost use Rattle.std.specs.Prelude.{◌≡◌, ◌++◌, List, map, filter};
ghost use Rattle.std.specs.List.Sorted.{IsPermutation};
ghost use Rattle.pending_ledger.specs.Pending.{is_unclosed_item, places_if};
ghost use Rattle.listing_tables.specs.Calls.{closers_in, is_reply_step, refusals_of, rows_of, step_place, strays_of};
ghost use Rattle.listing_tables.specs.declared.calls.CallStep.{CallStep};
ghost use Rattle.listing_tables.specs.Buffers.{AddressEvent, same_address, deliveries_of, delivery_place, is_leaked};

/// Each reply and each error reply of a thread is once the closer of a call in the table, a stray,
/// or what reports a refused send. So what the table has as no closer is a stray or reports one.
pub fn replies()
    ensures { (steps : List CallStep) →
        IsPermutation (map step_place (filter is_reply_step steps))
        (closers_in (rows_of steps) ++ map step_place (strays_of steps ++ refusals_of steps)) }
{}

/// The deliveries that no record frees are the leaked ones of the report: those of which no later
/// free has the address.
pub fn leaked_deliveries()
    ensures { (items : List AddressEvent) →
        map delivery_place (filter is_leaked (deliveries_of items)) ≡
        places_if (is_unclosed_item same_address) items }
{}
