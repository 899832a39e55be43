//! Calls a function again and again: first its first allocation is refused, then its second, and
//! so on.

use crate::words::bad;
use failing_alloc::FailingAllocator;
use std::alloc::Global;
use std::io::{self, BufWriter, Write};

/// The function that `each` calls again and again must make fewer allocations than this.
const MOST: u64 = 1000;

/// Calls `make` again and again: first its first allocation is refused, then its second, and so on;
/// at last no allocation is refused. Prints each outcome that differs from the outcome before it,
/// `again` once where an outcome comes several times in succession, and after `all` the outcome
/// without a refusal.
pub(crate) fn each<W: Write + Drop, F: Fn(&FailingAllocator<Global>) -> io::Result<String>>(
    alloc: Global,
    make: F,
    writer: &mut BufWriter<W>,
) -> io::Result<()>
    requires { F.IsAlwaysCallable make }
{
    let heap = FailingAllocator::new(alloc);
    let mut before = String::new(alloc);
    let mut told = false;
    for number in 1..MOST {
        heap.refuse(number);
        let outcome = make(&heap)?;
        if heap.is_armed() {
            return write!(writer, "all\n{outcome}");
        }
        let same = outcome == before;
        if !same {
            write!(writer, "{outcome}")?;
        } else if !told {
            writeln!(writer, "again")?;
        }
        told = same;
        before = outcome;
    }
    Err(bad())
}
