//! Telling what changed since a snapshot, which is updated: one part of it after the other.

ghost use Rattle.std.specs.Prelude.{List};
ghost use Rattle.sv_print.specs.Printed.{Prints};
ghost use Rattle.sv_history.specs.declared.event.Config.{Config};
ghost use Rattle.sv_history.specs.Act.{Act, device_acts, instrument_acts};
ghost use Rattle.sv_explain.specs.Shown.{AreLinks, IsScanner, IsExchange, AreStatuses, IsShown};
ghost use Rattle.sv_explain.specs.Changes.{changes, all_links_lines, scanner_lines, exchange_lines, status_lines};
ghost use Rattle.sv_server.specs.Server.State.{Represents};

use crate::explain::shown::{
    list_channels, list_errors, measurement_shown, message_shown, settings_shown,
};
use crate::server::Server;
use arrayvec::ArrayVec;
use std::alloc::Allocator;
use std::io::Write;
use sv_explain::{ExchangeShown, LinksShown, ScannerShown, Shown, StatusesShown, put_statuses};

impl<A: Allocator> Server<A> {
    /// Writes what changed since `shown`, and updates `shown`.
    pub(crate) fn tell<W: Write>(&self, shown: &mut Shown, writer: &mut W, failed: &mut bool)
        ensures { (config : Config) (log : List Act) → Represents self.now config log
            → IsShown shown.new log
            × Prints (W.contents writer.old) failed.old (W.contents writer.new) failed.new
            (changes shown.old shown.new) }
    {
        self.tell_conns(&mut shown.conns, writer, failed);
        self.tell_links(&mut shown.links, writer, failed);
        self.tell_scanner(&mut shown.scanner, writer, failed);
        self.tell_exchange(&mut shown.exchange, writer, failed);
        self.tell_statuses(&mut shown.statuses, writer, failed);
    }

    /// Writes what changed of the links and the lock, and updates `shown`.
    fn tell_links<W: Write>(&self, shown: &mut LinksShown, writer: &mut W, failed: &mut bool)
        ensures { (config : Config) (log : List Act) → Represents self.now config log
            → AreLinks shown.new (device_acts log)
            × Prints (W.contents writer.old) failed.old (W.contents writer.new) failed.new
            (all_links_lines shown.old shown.new) }
    {
        let (mut links, mut asking) = (ArrayVec::new(), ArrayVec::new());
        self.device.list_links(&mut links);
        self.device.list_asking_links(&mut asking);
        shown.update(links, self.device.lock_holder(), asking, writer, failed);
    }

    /// Writes what changed of the scanner, and updates `shown`.
    fn tell_scanner<W: Write>(&self, shown: &mut ScannerShown, writer: &mut W, failed: &mut bool)
        ensures { (config : Config) (log : List Act) → Represents self.now config log
            → IsScanner shown.new (instrument_acts (device_acts log))
            × Prints (W.contents writer.old) failed.old (W.contents writer.new) failed.new
            (scanner_lines shown.old shown.new) }
    {
        let scanner = self.device.instrument().layers().scanner();
        let (settings, measurement) = (settings_shown(scanner), measurement_shown(scanner));
        let mut list = ArrayVec::new();
        list_channels(scanner, &mut list);
        shown.update(settings, list, measurement, writer, failed);
    }

    /// Writes what changed of message exchange and of the errors, and updates `shown`.
    fn tell_exchange<W: Write>(&self, shown: &mut ExchangeShown, writer: &mut W, failed: &mut bool)
        ensures { (config : Config) (log : List Act) → Represents self.now config log
            → IsExchange shown.new (instrument_acts (device_acts log))
            × Prints (W.contents writer.old) failed.old (W.contents writer.new) failed.new
            (exchange_lines shown.old shown.new) }
    {
        let instrument = self.device.instrument();
        let mut errors = ArrayVec::new();
        list_errors(instrument.layers().errors(), &mut errors);
        shown.update(message_shown(instrument), errors, writer, failed);
    }

    /// Writes what changed of the status registers and of the status byte, and updates `shown`.
    fn tell_statuses<W: Write>(&self, shown: &mut StatusesShown, writer: &mut W, failed: &mut bool)
        ensures { (config : Config) (log : List Act) → Represents self.now config log
            → AreStatuses shown.new (instrument_acts (device_acts log))
            × Prints (W.contents writer.old) failed.old (W.contents writer.new) failed.new
            (status_lines shown.old shown.new) }
    {
        let now = self.statuses_shown();
        put_statuses(writer, failed, *shown, now);
        *shown = now;
    }
}
