//! Laws on runs over parts.
ghost use Rattle.basket_laws.specs.Runs.{RunsOverPartsAgree};

use basket_parts::laws::{combining_keeps_counts, combining_keeps_frequent, combining_keeps_sets};
use basket_read::laws::{good_is_faultless, lines_say_theirs, prefixes_are_good};

/// If a FIMI input is cut after line feeds, and sets that include each set which is frequent in
/// some part are counted over each part, the concatenated counts answer each question at the share
/// as the whole input does, byte for byte.
pub fn runs_over_parts_agree()
    ensures { RunsOverPartsAgree }
{
    prefixes_are_good();
    good_is_faultless();
    lines_say_theirs();
    combining_keeps_sets();
    combining_keeps_counts();
    combining_keeps_frequent();
}
