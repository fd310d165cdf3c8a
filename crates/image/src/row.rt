// Records of one width: the same reading and writing for every sort of record.
ghost use Rattle.std.specs.Prelude.{◌≡◌, ℕ, ◌+◌, ◌*◌, ◌<◌, ◌≤◌, List, length};
ghost use Rattle.std.specs.List.{flat_map};
ghost use Rattle.image.specs.Bytes.{put};
ghost use Rattle.image.specs.Reading.{Judged};
ghost use Rattle.image.specs.declared.counts.Counts.{Counts};

use crate::counts::Counts;

// The lowest field of a record that is out of range, by its offset in the record.
#[derive(Clone, Copy, PartialEq, Eq, Debug)]
pub(crate) struct FieldError {
    pub offset: usize,
}

pub(crate) trait Row: Copy {
    // its bytes
    ghost spelt: { Self → List ℕ };

    ghost WIDTH: { ℕ };

    // its fields are in range in an image with these counts
    ghost fine: { Counts → Self → Type 0 };

    // in an image with these counts, the field at an offset of the record of these bytes is out of range
    ghost bad: { Counts → List ℕ → ℕ → Type 0 };

    // How many bytes it has.
    const WIDTH: usize;

    fn write(self, bytes: &mut [u8], at: usize)
        requires { at + WIDTH ≤ length bytes.old }
        ensures { bytes.new ≡ put bytes.old at (spelt self) };

    // The record of these bytes.
    fn read(bytes: &[u8], counts: Counts) -> Result<Self, FieldError>
        requires { length bytes.now ≡ WIDTH }
        ensures { Judged spelt (fine counts) (bad counts bytes.now) bytes.now WIDTH result };

    ghost even: { (x : Self) → length (spelt x) ≡ WIDTH };

    ghost some: { 0 < WIDTH };
}

// Writes the records one behind the other, the first at `at`.
pub(crate) fn write_all<R: Row>(bytes: &mut [u8], at: usize, rows: &[R])
    requires { at + R.WIDTH * length rows.now ≤ length bytes.old }
    ensures { bytes.new ≡ put bytes.old at (flat_map R.spelt rows.now) }
{
    for (i, row) in rows.iter().enumerate() {
        row.write(bytes, at + R::WIDTH * i);
    }
}
