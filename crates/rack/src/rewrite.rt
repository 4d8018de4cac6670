// Loads an image and writes its table.
ghost use Rattle.rack.specs.Boundary.{Rewritten};

use table::refusals::told;

pub fn rack_rewrite(image: &[u8], buf: &mut [u8]) -> u64
    ensures { Rewritten image.now buf.old buf.new result }
{
    let loaded = image::load::load(image);
    match loaded.answer {
        Err(refused) => refused.refusal.number() as u64,
        Ok(()) => told(image::write::write(loaded.state, buf)) as u64,
    }
}
