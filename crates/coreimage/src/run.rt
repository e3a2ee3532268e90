// What the program `coreimage` does with the bytes that it was given.
ghost use Rattle.std.specs.Prelude.{◌≡◌};
ghost use Rattle.manual.specs.Image.{printed};
ghost use Rattle.instructions.specs.ImageRun.{image_run, image_ran};

use image::Text;
use image::file::read_image;
use image::print::{answer_text, run_text};
use machine::run::run;

// The text of the run of an image file, or the first line alone where the file is refused.
// `mem` has 49,152 bytes; whatever is in it, the file's bytes and zeros take its place.
pub fn answer(file: &[u8], mem: &mut [u8]) -> Text
    ensures { image_ran (printed result.bytes result.len) mem.new ≡ image_run file.now mem.old }
{
    match read_image(file, mem) {
        Ok(loaded) => {
            let ran = run(loaded.cpu, mem, loaded.budget);
            run_text(ran.reply, ran.count, ran.cpu)
        }
        Err(reply) => answer_text(reply),
    }
}
