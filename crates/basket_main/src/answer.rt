//! Help and the version.
ghost use Rattle.std.specs.Prelude.{◌≡◌, ◌↔◌, false, true, IsOk, List, OnErr, OnOk, Option, ℕ};
ghost use Rattle.std.specs.Io.KnownBytes.{Appends};
ghost use Rattle.basket_main.specs.Ending.{is_cut_off};
ghost use Rattle.basket_main.specs.Program.{IsRefusal, Writes, is_silent};
ghost use Rattle.basket_report.specs.Bytes.{TakesPrefix};

use crate::ending::Ending;
use basket::{Failed, PlanFault, Sink};
use basket_report::write_bytes;

/// Writes help or the version, if the fault is that it was asked for.
pub fn answer<W: Sink>(fault: PlanFault, output: &mut W) -> Ending
    requires { W.has_failed output.old ≡ false }
    ensures refused { IsRefusal fault result }
    ensures written { (bytes : Option (List ℕ) → Option (List ℕ)) → Writes bytes result (W.ends_in_flush output.new) (W.taken output.old) (W.taken output.new) }
    ensures untouched { is_silent result ≡ true → output.new ≡ output.old }
    ensures failed { W.has_failed output.new ≡ is_cut_off result }
{
    match fault {
        PlanFault::Help(text) => match write_text(output, text.as_str()) {
            Ok(()) => Ending::Refused(PlanFault::Help(text)),
            Err(_) => Ending::Unanswered(text),
        },
        PlanFault::Usage(text) => Ending::Refused(PlanFault::Usage(text)),
        PlanFault::Memory => Ending::Refused(PlanFault::Memory),
    }
}

/// Writes a text and flushes. If the output fails, it has taken a prefix of the text, and all of it if
/// only the flush failed.
#[tactic(auto, using(std::proofs::lemmas::Grind::common_steps, crate::proofs::ProgramLemmas::taken_whole, crate::proofs::ProgramLemmas::prefix_on_err))]
fn write_text<W: Sink>(output: &mut W, text: &str) -> Result<(), Failed>
    requires { W.has_failed output.old ≡ false }
    ensures ok { OnOk result (Appends (W.taken output.old) (W.taken output.new) text.now) }
    ensures err { OnErr result (TakesPrefix (W.taken output.old) (W.taken output.new) text.now) }
    ensures whole { W.ends_in_flush output.new ≡ true → Appends (W.taken output.old) (W.taken output.new) text.now }
    ensures flushed { OnOk result (W.ends_in_flush output.new ≡ true) }
    ensures failed { (W.has_failed output.new ≡ false) ↔ IsOk result }
{
    match write_bytes(output, text.as_bytes()) {
        Ok(()) => output.flush(),
        Err(failed) => Err(failed),
    }
}
