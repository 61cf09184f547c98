//! Laws on texts that are cut.
ghost use Rattle.basket_laws.specs.Cuts.{CutsAreParts};

use basket_read::laws::{good_is_faultless, lines_say_theirs, prefixes_are_good};

/// Each part of a FIMI input that is cut after line feeds is an input, and the baskets of the
/// parts, concatenated, are those of the whole.
pub fn cuts_are_parts()
    ensures { CutsAreParts }
{
    prefixes_are_good();
    good_is_faultless();
    lines_say_theirs();
}
