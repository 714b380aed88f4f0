// The text of the shift check for C.
ghost use Rattle.text_shift.specs.Shift.{Shifted};

use sets::Set;
use table_row::limits::SLOTS;
use text_shift::TEXT;

// Writes the text of a file, and gives its length.
#[unsafe(no_mangle)]
pub extern "C" fn awelodrun_raw_shift_text(
    file: &[u8],
    map: &mut [Set; SLOTS],
    pins: &mut [Set; SLOTS],
    out: &mut [u8; TEXT],
) -> usize
    ensures { Shifted file.now map.old pins.old out.old map.new pins.new out.new result }
{
    text_shift::shift_text(file, map, pins, out)
}
