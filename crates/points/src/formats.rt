// The four point formats of LAS 1.2: each one's record size, and the places of GPS time and colour in its record.
ghost use Rattle.std.specs.Prelude.{◌≡◌, ℕ};
ghost use Rattle.points.specs.Formats.{format_size, time_place, colour_place};

pub mod format0;
pub mod format1;
pub mod format2;
pub mod format3;

// A point format: its number, the size of its records, and where GPS time and colour begin in them, if they do.
pub trait Format {
    ghost NUMBER: { ℕ };

    ghost SIZE: { ℕ };

    const NUMBER: u8;

    const SIZE: usize;

    fn time_place() -> Option<usize>
        ensures { result ≡ time_place NUMBER };

    fn colour_place() -> Option<usize>
        ensures { result ≡ colour_place NUMBER };

    // The size is that of the table.
    ghost size_known: { SIZE ≡ format_size NUMBER };
}
