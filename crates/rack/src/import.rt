// Reads a list from a Linux rig and writes its table as an image. The three that read and then write are one `match`
// each: a function over all three would take the reading, how a refusal is told and the writing, and say no more.
ghost use Rattle.rack.specs.Boundary.{Imported};

use crate::refusals;
use table::refusals::told;

pub fn rack_import(list: &[u8], buf: &mut [u8]) -> u64
    ensures { Imported list.now buf.old buf.new result }
{
    let read = linux::read::read(list);
    match read.answer {
        Err(refused) => refusals::with_place(refused),
        Ok(()) => told(image::write::write(read.state, buf)) as u64,
    }
}
