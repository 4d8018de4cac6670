// Loads an image and writes its table as a list for a Linux rig.
ghost use Rattle.rack.specs.Boundary.{Exported};

use crate::refusals;
use table::refusals::told;

pub fn rack_export(image: &[u8], list: &mut [u8]) -> u64
    ensures { Exported image.now list.old list.new result }
{
    let loaded = image::load::load(image);
    match loaded.answer {
        Err(refused) => refusals::with_place(refused),
        Ok(()) => told(linux::write::write(loaded.state, list)) as u64,
    }
}
