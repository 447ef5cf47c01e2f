// A table of the points that a sheet keeps, by their classification byte, and whether it keeps a point.
ghost use Rattle.std.specs.Prelude.{◌≡◌};
ghost use Rattle.sheet.specs.Keeping.{keeps_byte, TableOf, in_table};

use crate::lookup;
use points::raw;

// Whether a sheet keeps a point, by its format and classification byte: its class is kept, and it is not withheld.
fn keeps_byte(sheet: &[u8], format: u8, byte: u8) -> bool
    ensures { result ≡ keeps_byte sheet.now format byte }
{
    let class = raw::class_in(format, byte);
    if raw::withheld_in(format, byte) {
        return false;
    }
    lookup::holds_class(sheet, class)
}

// Which points of a format a sheet keeps: entry b is for classification byte b. It is made once for a release, so that
// no point is looked up in the sheet. An array and no type of its own: its index is the byte, and its length is known.
pub fn class_table(sheet: &[u8], format: u8) -> [bool; 256]
    ensures { TableOf sheet.now format result }
{
    let mut table = [false; 256];
    for byte in 0..=255 {
        table[usize::from(byte)] = keeps_byte(sheet, format, byte);
    }
    table
}

// Whether a table keeps a point, by its format and bytes.
pub fn in_table(table: &[bool; 256], format: u8, point: &[u8]) -> bool
    ensures { result ≡ in_table table.now format point.now }
{
    table[usize::from(raw::class_byte(format, point))]
}
