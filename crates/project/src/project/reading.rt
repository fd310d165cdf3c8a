ghost use Rattle.project.specs.Project.{Reads};

use super::Project;
use fault::Fault;
use image::parse;

impl Project {
    // Reads an image into this project, which stays as it was where the image is refused.
    pub fn read(&mut self, bytes: &[u8]) -> Result<(), Fault>
        ensures { Reads bytes.now self.old self.new result }
    {
        let draft = parse(bytes)?;
        *self = Project::of(&draft)?;
        Ok(())
    }
}
