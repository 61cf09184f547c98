//! Bytes that are written.
ghost use Rattle.std.specs.Prelude.{◌≡◌, ◌↔◌, ◌++◌, ℕ, List, Option, true, false, IsOk, OnErr, OnOk};
ghost use Rattle.std.specs.Io.KnownBytes.{Appends};
ghost use Rattle.basket_report.specs.Bytes.{IsWritten, TakesPrefix, joined};

use basket_core::{Failed, Sink};

/// Writes bytes, unless the writer has failed.
#[tactic(auto, using(std::proofs::lemmas::Grind::common_steps, crate::proofs::BytesLemmas::more_written))]
pub fn send_bytes<W: Sink>(writer: &mut W, bytes: &[u8])
    ensures { (start : Option (List ℕ)) (text : List ℕ)
        → IsWritten start (W.taken writer.old) (W.has_failed writer.old) (W.ends_in_flush writer.old) text
        → IsWritten start (W.taken writer.new) (W.has_failed writer.new) (W.ends_in_flush writer.new) (text ++ bytes.now) }
{
    if !writer.failed() {
        let _ = write_bytes(writer, bytes);
    }
}

/// Writes all bytes. If the sink fails, it has taken a prefix of them.
#[tactic(auto, using(std::proofs::lemmas::Grind::common_steps, crate::proofs::Fronts::some_taken, crate::proofs::Fronts::count_within, crate::proofs::Fronts::written_more))]
pub fn write_bytes<W: Sink>(writer: &mut W, bytes: &[u8]) -> Result<(), Failed>
    requires { W.has_failed writer.old ≡ false }
    ensures ok { OnOk result (Appends (W.taken writer.old) (W.taken writer.new) bytes.now) }
    ensures err { OnErr result (TakesPrefix (W.taken writer.old) (W.taken writer.new) bytes.now) }
    ensures last { OnErr result (W.ends_in_flush writer.new ≡ false) }
    ensures failed { (W.has_failed writer.new ≡ false) ↔ IsOk result }
{
    let mut written = 0;
    while written < bytes.len() {
        let count = writer.write(&bytes[written..])?;
        if count == 0 {
            return Err(Failed);
        }
        written += count;
    }
    Ok(())
}

/// Writes all texts, one after another, and flushes. If the sink fails, it has taken a prefix of
/// them, and all of them if only the flush failed.
pub fn write_texts<W: Sink>(writer: &mut W, texts: &[Vec<u8>]) -> Result<(), Failed>
    requires { W.has_failed writer.old ≡ false }
    ensures ok { OnOk result (Appends (W.taken writer.old) (W.taken writer.new) (joined texts.now)) }
    ensures err { OnErr result (TakesPrefix (W.taken writer.old) (W.taken writer.new) (joined texts.now)) }
    ensures whole { W.ends_in_flush writer.new ≡ true → Appends (W.taken writer.old) (W.taken writer.new) (joined texts.now) }
    ensures flushed { OnOk result (W.ends_in_flush writer.new ≡ true) }
    ensures failed { (W.has_failed writer.new ≡ false) ↔ IsOk result }
{
    for text in texts {
        send_bytes(writer, text);
    }
    if writer.failed() {
        return Err(Failed);
    }
    writer.flush()
}
