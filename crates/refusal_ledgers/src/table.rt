//! The names of the calls, and the call of each name.

use crate::no_answer::{NoAnswer, Printed};
use crate::sums::Way;
use crate::{events, jobs, ledgers};
use claim_board::Workers;
use std::alloc::Global;
use std::io;
use std::io::Write;
use std::thread::Threads;

/// Makes the call that a table has for a name. For an empty name it lists the names of the table,
/// and then that name is `Unknown`, so that the next table is asked.
#[macro_export]
macro_rules! by_name {
    ($name:expr, $out:expr; $($known:literal => $call:expr,)*) => {
        match $name {
            "" => {
                $crate::list(&[$($known),*], $out)?;
                Err($crate::NoAnswer::Unknown)
            }
            $($known => $call,)*
            _ => Err($crate::NoAnswer::Unknown),
        }
    };
}

/// Makes the call of this name: one that cuts frames or sums a list, or one of a board.
pub fn of_ledgers<T: Threads + Sync, W: Write>(
    rt: &T,
    alloc: Global,
    name: &str,
    bytes: &[u8],
    out: &mut W,
) -> Printed {
    match of_lists(alloc, name, bytes, out) {
        Err(NoAnswer::Unknown) => of_boards(rt, alloc, name, bytes, out),
        answered => answered,
    }
}

fn of_lists<W: Write>(alloc: Global, name: &str, bytes: &[u8], out: &mut W) -> Printed {
    by_name! { name, out;
        "cut" => events::cut_all(alloc, bytes, out),
        "Tally: add, rows" => ledgers::tally(alloc, bytes, Way::Add, out),
        "Tally: join, rows" => ledgers::tally(alloc, bytes, Way::Join, out),
        "HandleLedger: add, rows" => ledgers::handles(alloc, bytes, Way::Add, out),
        "HandleLedger: join, rows" => ledgers::handles(alloc, bytes, Way::Join, out),
        "HandleLedger: add, rows_held" => ledgers::held(alloc, bytes, Way::Add, out),
        "HandleLedger: join, rows_held" => ledgers::held(alloc, bytes, Way::Join, out),
        "NodeLedger: add, rows" => ledgers::nodes(alloc, bytes, Way::Add, out),
        "NodeLedger: join, rows" => ledgers::nodes(alloc, bytes, Way::Join, out),
        "Buffers: add, outstanding, strays" => ledgers::buffers(alloc, bytes, Way::Add, out),
        "Buffers: join, outstanding, strays" => ledgers::buffers(alloc, bytes, Way::Join, out),
        "Deaths: add, outstanding, strays" => ledgers::deaths(alloc, bytes, Way::Add, out),
        "Deaths: join, outstanding, strays" => ledgers::deaths(alloc, bytes, Way::Join, out),
        "Clears: add, outstanding, strays" => ledgers::clears(alloc, bytes, Way::Add, out),
        "Clears: join, outstanding, strays" => ledgers::clears(alloc, bytes, Way::Join, out),
        "Tally by OnewayKey: add, rows" => ledgers::oneway(alloc, bytes, Way::Add, out),
        "Tally by OnewayKey: join, rows" => ledgers::oneway(alloc, bytes, Way::Join, out),
        "Requests: add, outstanding" => ledgers::requests(alloc, bytes, Way::Add, out),
        "Requests: join, outstanding" => ledgers::requests(alloc, bytes, Way::Join, out),
        "ThreadCalls: add, finish" => ledgers::calls(alloc, bytes, Way::Add, out),
        "ThreadCalls: join, finish" => ledgers::calls(alloc, bytes, Way::Join, out),
    }
}

fn of_boards<T: Threads + Sync, W: Write>(
    rt: &T,
    alloc: Global,
    name: &str,
    bytes: &[u8],
    out: &mut W,
) -> Printed {
    let (one, four) = (Workers::new(1).unwrap(), Workers::new(4).unwrap());
    by_name! { name, out;
        "Board::new" => jobs::board(alloc, bytes, out),
        "run_all by 1" => jobs::shared(rt, alloc, bytes, one, out),
        "run_all by 4" => jobs::shared(rt, alloc, bytes, four, out),
    }
}

/// Prints names, a line each.
pub fn list<W: Write>(names: &[&str], out: &mut W) -> io::Result<()> {
    for name in names {
        writeln!(out, "{name}")?;
    }
    Ok(())
}
