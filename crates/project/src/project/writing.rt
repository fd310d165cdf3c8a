ghost use Rattle.std.specs.Prelude.{◌≡◌, ◌≤◌, length, Decides};
ghost use Rattle.image.specs.Emission.{answer, written};
ghost use Rattle.image.specs.Encoding.{image};
ghost use Rattle.project.specs.Project.{RoundTrips, plan};

use super::Project;
use fault::Fault;
use image::emit;

// The length of the longest image: 16 sensors, 32 actors and 96 channels.
pub const LONGEST: usize = 937;

impl Project {
    // A buffer of the greatest length takes the image of every project.
    pub fn fits_the_longest(&self)
        ensures { length (image (plan self.now)) ≤ LONGEST }
    {}

    // Writes the image to the front of the buffer, leaves the rest and gives the length; a shorter buffer is left as it is.
    pub fn write(&self, buffer: &mut [u8]) -> Result<usize, Fault>
        ensures answer { result ≡ answer (plan self.now) buffer.old }
        ensures after { buffer.new ≡ written (plan self.now) buffer.old }
    {
        emit(&self.draft, buffer)
    }

    // Images and projects come back from each other.
    pub fn images_come_back()
        ensures { RoundTrips }
    {}

    // Whether two projects are the same line: whether they say the same, and so whether their images are equal.
    pub fn same_line(&self, other: &Project) -> bool
        ensures images { Decides result (image (plan self.now) ≡ image (plan other.now)) }
        ensures plans { Decides result ∥ plan self.now ≡ plan other.now ∥₁ }
    {
        self.draft == other.draft
    }
}
