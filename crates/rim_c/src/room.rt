//! An answer in the room that a caller lends for it.
ghost use Rattle.std.specs.Prelude.{◌≡◌, ◌<◌, false, length, true};
ghost use Rattle.rim_c.specs.Written.{IsWritten};

/// Says how many bytes a text has, and puts it at the beginning of the room for it, unless that is too short. Whether it was put.
pub(crate) fn put(text: &[u8], out: &mut [u8], said: &mut usize) -> bool
    ensures count { said.new ≡ length text.now }
    ensures put { result ≡ true → IsWritten text.now out.old out.new said.new }
    ensures short { result ≡ false → (out.new ≡ out.old) × (length out.old < length text.now) }
{
    *said = text.len();
    if out.len() < text.len() {
        return false;
    }
    let (room, _) = out.split_at_mut(text.len());
    room.copy_from_slice(text);
    true
}
