//! The room that a caller lends for a text.

ghost use Rattle.std.specs.Bool.{OnFalse, OnTrue};
ghost use Rattle.hive_library.specs.Rooms.{Gives, IsPut, IsShort, Puts, PutsAs};

use crate::faults::Fault;
use hive_model::ReplyText;

/// The status that the call is done.
const DONE: u32 = 0;

/// The status that the room is too short for the text.
const ROOM_SHORT: u32 = 9;

/// Puts the text at the front of the room, if it fits, and stores its length. The status is then
/// `code`.
pub(crate) fn put_as(code: u32, text: &[u8], room: &mut [u8], needed: &mut usize) -> u32
    ensures { PutsAs code text.now result room.old room.new needed.new }
{
    let count = text.len();
    *needed = count;
    if room.len() < count {
        return ROOM_SHORT;
    }
    let (front, _) = room.split_at_mut(count);
    front.copy_from_slice(text);
    code
}

/// The same with the status that the call is done.
pub(crate) fn put(text: &[u8], room: &mut [u8], needed: &mut usize) -> u32
    ensures { Puts text.now result room.old room.new needed.new }
{
    put_as(DONE, text, room, needed)
}

/// Gives the text, or the status that says why there is none.
pub(crate) fn give(answer: Result<ReplyText, Fault>, room: &mut [u8], needed: &mut usize) -> u32
    ensures { Gives answer result room.old room.new needed.new }
{
    match answer {
        Ok(text) => put(text.items(), room, needed),
        Err(fault) => {
            *needed = 0;
            fault.code()
        }
    }
}
