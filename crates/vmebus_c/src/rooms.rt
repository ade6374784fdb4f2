//! Lists that are written into a room of the caller's.
ghost use Rattle.std.specs.Prelude.{◌≡◌};
ghost use Rattle.vmebus_c.specs.Rooms.{written, written_text};

/// Writes the numbers, as many as there is room for.
pub(crate) fn write(room: &mut [u32], numbers: &[u32])
    ensures { room.new ≡ written room.old numbers.now }
{
    let count = numbers.len().min(room.len());
    room[..count].copy_from_slice(&numbers[..count]);
}

/// Writes the text if there is room for all of it, with a zero byte behind it if there is room for
/// that, too; otherwise nothing.
pub(crate) fn write_text(room: &mut [u8], text: &[u8])
    ensures { room.new ≡ written_text room.old text.now }
{
    if text.len() <= room.len() {
        room[..text.len()].copy_from_slice(text);
        if text.len() < room.len() {
            room[text.len()] = 0;
        }
    }
}
