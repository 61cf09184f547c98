//! Room after the numbers of a list, into which others are written.
ghost use Rattle.std.specs.Prelude.{◌≡◌, ◌≤◌, ◌+◌, OnOk, take, vec_len};

use std::alloc::AllocError;

/// Makes room for this many numbers after the first ones, and for more, so that it is seldom made.
pub fn make_room(list: &mut Vec<u32>, count: usize, more: usize) -> Result<(), AllocError>
    requires { count ≤ vec_len list.old }
    ensures front { take count list.new.items ≡ take count list.old.items }
    ensures within { count ≤ vec_len list.new }
    ensures room { OnOk result (count + more ≤ vec_len list.new) }
{
    let room = list.len();
    if room - count < more {
        let more = room.max(more);
        list.resize(room.checked_add(more).ok_or(AllocError)?, 0)?;
    }
    Ok(())
}
