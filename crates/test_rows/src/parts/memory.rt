//! Makes parts of the server for which memory is refused.

use crate::CONFIG;
use crate::parts::line::put;
use crate::words::bad;
use failing_alloc::FailingAllocator;
use std::alloc::Global;
use std::io;
use sv_errors::ErrorQueue;
use sv_exchange::Exchange;
use sv_header::Table;
use sv_instrument::Instrument;
use sv_layers::Layers;
use sv_rpc::RecordBuf;
use sv_scan::Scanner;
use sv_server::Server;

/// A part must make fewer allocations than this.
const MOST: u64 = 200;

/// Whether this is a part and no refusal. Drops the part.
fn is_part<T: Drop, E: Drop>(part: Result<T, E>) -> bool {
    part.is_ok()
}

/// Makes the part of this name. Returns whether it was made.
fn is_made(heap: &FailingAllocator<Global>, name: &str) -> io::Result<bool> {
    match name {
        "RecordBuf" => Ok(is_part(RecordBuf::new(heap))),
        "ErrorQueue" => Ok(is_part(ErrorQueue::new(heap))),
        "Table" => Ok(is_part(Table::new(heap))),
        "Scanner" => Ok(is_part(Scanner::new(heap))),
        "Exchange" => Ok(is_part(Exchange::new(heap))),
        "Layers" => Ok(is_part(Layers::new(heap))),
        "Instrument" => Ok(is_part(Instrument::new(heap))),
        "Server" => Ok(is_part(Server::new(heap, CONFIG))),
        _ => Err(bad()),
    }
}

/// Makes a part again and again: first its first allocation is refused, then its second, and so on.
/// Each time the part must not be made, and must be made right after that without a refusal. At
/// last no allocation is refused, and the part must be made. Prints how many allocations it makes;
/// for the server, which has two buffers for each of its 16 connections, whether it makes at least
/// 32.
pub(crate) fn put_allocations(alloc: Global, out: &mut String, name: &str) -> io::Result<()> {
    let heap = FailingAllocator::new(alloc);
    for number in 1..MOST {
        heap.refuse(number);
        let made = is_made(&heap, name)?;
        if made != heap.is_armed() {
            return Err(bad());
        }
        if made {
            let count = number - 1;
            return match name {
                "Server" => put(out, count >= 32),
                _ => put(out, count),
            };
        }
        if !is_made(&heap, name)? {
            return Err(bad());
        }
    }
    Err(bad())
}
