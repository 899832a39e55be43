//! Which condition words of the status registers an act of the scanner might have changed.

ghost use Rattle.std.specs.Prelude.{◌≡◌, List};
ghost use Rattle.sv_scan.specs.declared.acts.ScanAct.{ScanAct};
ghost use Rattle.sv_scan.specs.Counted.{effective};
ghost use Rattle.sv_scan.specs.Stands.{StandsFor};
ghost use Rattle.sv_scan.specs.Touched.{IsTouched};

use crate::scanner::Scanner;
use std::alloc::Allocator;

/// Which condition words of the status registers might have changed at the newest act that took
/// effect (SCPI-1999, chapter 20). If a field is false, the act didn't change the condition word
/// that has the name of this field.
#[derive(Clone, Copy)]
pub struct Touched {
    /// Whether the condition word of the operation register might have changed.
    pub operation: bool,
    /// Whether the scanner's bits in the condition word of the questionable register might have
    /// changed.
    pub questionable: bool,
    /// Whether the condition word of the register of limits might have changed.
    pub limit: bool,
}

impl<A: Allocator> Scanner<A> {
    /// Which condition words of the status registers might have changed at the newest act that took
    /// effect. A refused act has no effect and changes no word.
    pub fn touched(&self) -> Touched
        ensures value { result ≡ self.now.touched }
        ensures stands { (acts : List ScanAct) → StandsFor self.now acts
            → IsTouched result (effective acts) }
    {
        self.touched
    }
}
